//! The system's clock.

use library_state::Clock;
use std::time::{Clock as SystemTimes, SystemTime, UNIX_EPOCH};

/// The system's clock. It may show any moment. Where the system tells none, or one before 1970, it shows 0.
#[derive(Drop)]
pub struct SystemClock<R> {
    rt: R,
}

impl<R> SystemClock<R> {
    /// The clock of the runtime.
    pub fn new(rt: R) -> SystemClock<R> {
        SystemClock { rt }
    }
}

impl<R: SystemTimes> Clock for SystemClock<R> {
    ghost use Rattle.std.specs.Prelude.{⊤};

    ghost shows = { λ _ _. ⊤ };

    fn now(&self) -> u64 {
        let now = match SystemTime::now(&self.rt) {
            Ok(now) => now,
            Err(_) => return 0,
        };
        match now.duration_since(UNIX_EPOCH) {
            Ok(since) => since.as_secs(),
            Err(_) => 0,
        }
    }
}
