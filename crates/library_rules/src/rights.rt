//! The right that an act needs.
ghost use Rattle.std.specs.Prelude.{◌≡◌};
ghost use Rattle.library_rules.specs.Calls.{right_for};

use library_state::{Act, Op, Right};

/// The right that an act needs.
pub fn right_needed(act: &Act) -> Right
    ensures value { result ≡ right_for act.now }
{
    match act {
        Act::Check(op) => match op {
            Op::Upload => Right::Write,
            Op::Download => Right::Read,
        },
        Act::Head => Right::Read,
        Act::Get(_) => Right::Read,
        Act::Put(_, _) => Right::Write,
        Act::Missing(_, _) => Right::Write,
        Act::Update(_) => Right::Write,
        Act::Limit(_) => Right::Owner,
        Act::Ids(_, _) => Right::Read,
    }
}
