//! Bytes that come in and go out, and the clock.
ghost use Rattle.std.specs.Prelude.{◌≡◌, ℕ, List, ◌<◌, Option, Ok, length, IsErr};
ghost use Rattle.std.specs.Io.{ReadsAtMost, WritesAtMost};
ghost use Rattle.std.specs.Io.KnownBytes.{ReadConsumes, WriteAppends};
ghost use Rattle.disk_model.specs.Causes.{HasCause, Rose};

use crate::Failed;

/// Bytes that come in. A source may tell the bytes that it has left; where it tells none, the clauses on them say nothing.
pub trait Source {
    /// The bytes that it has left, where it tells.
    ghost left: { Self → Option (List ℕ) };

    /// How often it failed.
    ghost faults: { Self → ℕ };

    /// Puts the next bytes at the front of `out` and answers how many they are. None, where there is room for one, is the
    /// end. Where it fails, all bytes are left.
    fn read(&mut self, out: &mut [u8]) -> Result<usize, Failed>
        ensures bound { ReadsAtMost result out.new }
        ensures bytes { ReadConsumes (left self.old) (left self.new) result out.new }
        ensures cause { HasCause (faults self.old) (faults self.new) (IsErr result) };
}

/// Bytes that go out. A sink may tell the bytes that it took; where it tells none, the clauses on them say nothing.
pub trait Sink {
    /// The bytes that it took, where it tells.
    ghost taken: { Self → Option (List ℕ) };

    /// How often it failed.
    ghost faults: { Self → ℕ };

    /// Takes the front of the piece and answers how many bytes it took. To take nothing of a piece that isn't empty is a
    /// fault. Where it fails, it took nothing.
    fn write(&mut self, piece: &[u8]) -> Result<usize, Failed>
        ensures bound { WritesAtMost result piece.now }
        ensures bytes { WriteAppends (taken self.old) (taken self.new) result piece.now }
        ensures cause { HasCause (faults self.old) (faults self.new) (IsErr result) }
        ensures nothing { result ≡ Ok 0 → 0 < length piece.now → Rose (faults self.old) (faults self.new) };
}

/// Tells the time, and waits. Nothing is claimed of it.
pub trait Clock {
    /// The time in milliseconds.
    fn now_ms(&mut self) -> u64;

    /// Waits for so many milliseconds.
    fn pause(&mut self, ms: u64);
}
