//! JSON words: what each reader of the project says of JSON (RFC 8259), over `serde_json`.
//!
//! Shown upward: `parse` and `write` between bytes and values; the fields of an object by type; ids as texts and values;
//! the answer of a reader, `ReadFault`. In specs/: checks of which the first that fails is answered (`Check`), the answer of
//! a reader (`Answer`), the value of a text (`JsonText`), the fields of an object (`Fields`), the texts of ids (`IdText`).
//! It knows no object's grammar, and reads whole values alone.
#![tactic(auto)]

mod answer;
mod fields;
mod id_text;
mod id_writing;
mod json_text;

pub use crate::answer::{NotJson, ReadFault};
pub use crate::fields::{
    FieldFault, array_field, field, has_only, integer_field, is_known, number_between,
    number_field, optional_field, optional_text, text_field,
};
pub use crate::id_text::{id_field, id_in, library_id, object_id, stored_id_in};
pub use crate::id_writing::{id_value, library_id_value};
pub use crate::json_text::{parse, write};
