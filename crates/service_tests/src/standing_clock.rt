//! A clock that stands, and takes no memory.
ghost use Rattle.std.specs.Prelude.{◌≡◌};

use library_state::Clock;

/// A clock that stands.
#[derive(Drop)]
pub(crate) struct Stands;

impl Clock for Stands {
    ghost shows = { λ clock moment. moment ≡ 9 };

    fn now(&self) -> u64 {
        9
    }
}
