//! The base types of every layer: small lists, bytes and texts, object and library ids, keys.
//!
//! Shown upward: `Items` (`Bytes`, `IdList`, `KeyList`), `Text`, `ObjId`, `LibId`, `BadId`, `Kind`, `Key`, `KeyTable`;
//! and, in specs/, texts that are fixed place by place (`Form`), the words for an exact refusal (`Outcome`) and for
//! a counted fault (`FaultCount`). It knows no object's grammar and stores nothing.
#![tactic(auto)]

mod digits;
mod items;
mod key;
mod key_table;
pub mod laws;
mod library_id;
mod object_id;
mod text;

pub use crate::digits::{BadId, digits_of, is_lower_digit, read_digits};
pub use crate::items::{Bytes, Items};
pub use crate::key::{IdList, Key, KeyList, Kind};
pub use crate::key_table::KeyTable;
pub use crate::library_id::LibId;
pub use crate::object_id::ObjId;
pub use crate::text::Text;
