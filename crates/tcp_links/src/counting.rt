//! What a call on a connection answers, and what its failure counts for.
ghost use Rattle.std.specs.Prelude.{◌≡◌, IfOk, Ok, is_ok};
ghost use Rattle.http_front.specs.Link.{CountsFaults};

use http_front::LinkFailed;
use std::io;

/// As `answer`, and notes the failure, or that there was none.
pub(crate) fn noted_answer<T: Drop>(
    faults: &mut u64,
    failure: &mut Option<io::Error>,
    outcome: io::Result<T>,
) -> Result<T, LinkFailed>
    ensures value { IfOk result (λ value. outcome ≡ Ok value) }
    ensures fails { is_ok result ≡ is_ok outcome }
    ensures faults { CountsFaults faults.old faults.new result }
{
    *failure = match &outcome {
        Ok(_) => None,
        Err(failed) => Some(*failed),
    };
    answer(faults, outcome)
}

/// The answer of a call on a connection: what it gives, or a failure, which is counted.
pub fn answer<T: Drop>(faults: &mut u64, outcome: io::Result<T>) -> Result<T, LinkFailed>
    ensures value { IfOk result (λ value. outcome ≡ Ok value) }
    ensures fails { is_ok result ≡ is_ok outcome }
    ensures faults { CountsFaults faults.old faults.new result }
{
    match outcome {
        Ok(value) => Ok(value),
        Err(_) => {
            *faults = faults.saturating_add(1);
            Err(LinkFailed)
        }
    }
}
