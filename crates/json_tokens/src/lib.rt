//! JSON read token by token, with little memory: what `json_words` reads as whole values.
//!
//! Shown upward: `parse_kept` and `kept_value`, which keep of an object the members with known names; `pass_value` and
//! those beside it, which pass over a value and hold nothing. In specs/: the value at the front of tokens (`Front`), what
//! is kept of one (`Kept`). It knows no object's grammar.
#![tactic(auto)]

mod front;
mod kept;
mod number;
mod opening;

pub use crate::front::{pass_from, pass_items, pass_members, pass_value};
pub use crate::kept::{emptied_from, kept_value, parse_kept};
pub use crate::opening::{is_brace, is_bracket, opens_array, opens_object};
