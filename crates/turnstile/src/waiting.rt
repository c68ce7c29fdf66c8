//! How whoever has a ticket waits for it. None of this tells anything or changes the lock.

use crate::lock::Turnstile;
use crate::steps::{DRAWN, SERVING};
use crate::story::Story;
use std::sync::Wait;
use std::thread;

// How often the next in line looks before it sleeps.
const NEAR_LOOKS: u32 = 20;

impl<V: Story> Turnstile<V> {
    /// Rests before a ticket is looked for again: the next in line lets others run for a while, and then, as everybody else
    /// at once, sleeps until another ticket is served. It may also return for no reason.
    pub(crate) fn rest<R: Wait>(&self, rt: &R, ticket: u64) {
        let shared = &self.table.shared;
        let mut served = shared.peek(SERVING);
        for _ in 0..NEAR_LOOKS {
            if served.wrapping_add(1) != ticket {
                break;
            }
            thread::yield_now();
            served = shared.peek(SERVING);
        }
        if served != ticket {
            shared.park(rt, SERVING, (served & 0xffff_ffff) as u32);
        }
    }

    /// Wakes those who sleep, where somebody has a ticket that isn't served to its end.
    pub(crate) fn wake(&self) {
        let shared = &self.table.shared;
        if shared.peek(SERVING) != shared.peek(DRAWN) {
            shared.wake_all(SERVING);
        }
    }
}
