//! A clock in memory.
ghost use Rattle.std.specs.Prelude.{◌≡◌, ◌+◌, ◌-◌, ◌^◌, ℕ, min};

use disk_model::Clock;
use std::marker::Model;

/// A clock that stands at its moment and goes on by its pauses alone, up to 2^64-1 milliseconds.
#[derive(Drop)]
pub struct MemClock {
    now_ms: u64,
}

impl Model for MemClock {
    ghost Value = { ℕ };

    ghost view = { λ clock. clock.now_ms };
}

impl MemClock {
    /// A clock that stands at this moment, in milliseconds.
    pub fn make(now_ms: u64) -> Self
        ensures { result ≡ now_ms }
    {
        MemClock { now_ms }
    }
}

impl Clock for MemClock {
    fn now_ms(&mut self) -> u64
        ensures moment { result ≡ self.old }
        ensures stands { self.new ≡ self.old }
    {
        self.now_ms
    }

    fn pause(&mut self, ms: u64)
        ensures { self.new ≡ min (self.old + ms) (2 ^ 64 - 1) }
    {
        self.now_ms = self.now_ms.saturating_add(ms);
    }
}
