//! What a library answers.
use crate::refusal::Refusal;
use ids::{Bytes, IdList, ObjId};

/// The answer to a call.
#[derive(Debug, Drop)]
pub enum Reply {
    /// What was asked about is allowed.
    Checked,
    /// The library stands at this commit.
    HeadIs(ObjId),
    /// The bytes that are stored under the key.
    Got(Bytes),
    /// The bytes are stored now: `true` where they were not before.
    Stored(bool),
    /// The ids that name nothing that is stored, in the order asked, each once.
    Absent(IdList),
    /// The commit is taken in, and the library stands at this one.
    Updated(ObjId),
    /// History is kept for as many days as was asked.
    Limited,
    /// The files and directories that one commit needs and the other doesn't, ascending.
    Listed(IdList),
    /// The call was refused; a merge may have stored some of its objects.
    Refused(Refusal),
}
