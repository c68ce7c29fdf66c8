//! Fields of objects and entries, with their faults told at their keys.
ghost use Rattle.std.specs.Prelude.{◌≡◌, ◌<◌, ◌^◌, ◌||◌, IfOk, IsTrue};
ghost use Rattle.serde_json.specs.View.{view};
ghost use Rattle.json_words.specs.Check.{result_map};
ghost use Rattle.json_words.specs.Fields.{number_field, integer_field, text_field};
ghost use Rattle.json_words.specs.IdText.{id_field};
ghost use Rattle.fs_objects.specs.Directory.{known_mode, mode_of};
ghost use Rattle.fs_objects.specs.FsKey.{at_key, fault_at, key_text};
ghost use Rattle.fs_objects.specs.Mode.{is_file_mode, is_directory_mode};

use crate::fault::{BadFs, FsKey};
use crate::mode::{is_directory_mode, is_file_mode};
use ids::ObjId;
use json_words::FieldFault;
use serde_json::Value;

/// A field's fault at its key.
pub fn fault_at(key: FsKey, fault: FieldFault) -> BadFs
    ensures value { result ≡ fault_at key fault }
{
    match fault {
        FieldFault::Missing => BadFs::Missing(key),
        FieldFault::WrongType => BadFs::WrongType(key),
    }
}

/// A whole number from 0 to 2^64 - 1.
pub fn number_at(value: &Value, key: FsKey) -> Result<u64, BadFs>
    ensures value { result ≡ at_key key (number_field (key_text key) (view value.now)) }
{
    match json_words::number_field(value, key.text()) {
        Ok(number) => Ok(number),
        Err(fault) => Err(fault_at(key, fault)),
    }
}

/// A whole number from -2^63 to 2^63 - 1.
pub fn integer_at(value: &Value, key: FsKey) -> Result<i64, BadFs>
    ensures value { result ≡ at_key key (integer_field (key_text key) (view value.now)) }
{
    match json_words::integer_field(value, key.text()) {
        Ok(number) => Ok(number),
        Err(fault) => Err(fault_at(key, fault)),
    }
}

/// A text.
pub fn text_at<'a>(value: &'a Value, key: FsKey) -> Result<&'a str, BadFs>
    ensures value { result_map (λ text. text.now) result
        ≡ at_key key (text_field (key_text key) (view value.now)) }
{
    match json_words::text_field(value, key.text()) {
        Ok(text) => Ok(text),
        Err(fault) => Err(fault_at(key, fault)),
    }
}

/// The text of an id.
pub fn id_at(value: &Value, key: FsKey) -> Result<ObjId, BadFs>
    ensures value { result ≡ at_key key (id_field (key_text key) (view value.now)) }
{
    match json_words::id_field(value, key.text()) {
        Ok(id) => Ok(id),
        Err(fault) => Err(fault_at(key, fault)),
    }
}

/// The mode of a file or a directory.
#[tactic(auto, unfolding(crate::specs::Directory::mode_of))]
pub fn mode_in(value: &Value) -> Result<u32, BadFs>
    ensures value { result ≡ mode_of (view value.now) }
    ensures proper { IfOk result (λ mode. IsTrue (is_file_mode mode || is_directory_mode mode)) }
{
    let key = FsKey::KMode;
    match json_words::number_between(value, key.text(), 0, u64::from(u32::MAX)) {
        Ok(number) => known_mode(number),
        Err(fault) => Err(fault_at(key, fault)),
    }
}

/// A number below 2^32, where it is the mode of a file or a directory.
#[tactic(auto, unfolding(crate::specs::Directory::known_mode))]
fn known_mode(number: u64) -> Result<u32, BadFs>
    requires { number < 2 ^ 32 }
    ensures value { result ≡ known_mode number }
    ensures proper { IfOk result (λ mode. IsTrue (is_file_mode mode || is_directory_mode mode)) }
{
    let mode = number as u32;
    if is_file_mode(mode) || is_directory_mode(mode) {
        Ok(mode)
    } else {
        Err(BadFs::WrongType(FsKey::KMode))
    }
}
