//! A source and a sink in memory, which hand over stated pieces and fail from a stated call on.
ghost use Rattle.std.specs.Prelude.{◌≡◌, ◌+◌, ◌-◌, ◌<◌, ◌≤◌, ◌^◌, ℕ, [], drop, length, min, Option, Some, None, Ok, IsOk, IsErr, IfOk, OnOk};
ghost use Rattle.std.specs.Io.{ReadsAtMost, WritesAtMost};
ghost use Rattle.std.specs.Io.KnownBytes.{ReadConsumes, WriteAppends};
ghost use Rattle.disk_model.specs.Causes.{HasCause, Rose};
ghost use Rattle.mem_disks.specs.Streams.{SourceState, SinkState, calls_after, NoCallLeft, Answers};

use disk_model::{Failed, Sink, Source};
use std::alloc::Global;
use std::marker::Model;

// How many calls are left before each one fails, if any ever does, and how often one failed.
#[derive(Drop)]
struct Calls {
    left: Option<u64>,
    faults: u64,
}

impl Calls {
    // Counts a fault.
    fn fail(&mut self) -> Failed
        ensures faults { self.new.faults ≡ min (self.old.faults + 1) (2 ^ 64 - 1) }
        ensures left { self.new.left ≡ self.old.left }
    {
        self.faults = self.faults.saturating_add(1);
        Failed
    }

    // Begins a call, which fails where none is left.
    fn begin(&mut self) -> Result<(), Failed>
        ensures fails { NoCallLeft self.old.left → IsErr result }
        ensures only { IsErr result → NoCallLeft self.old.left }
        ensures left { self.new.left ≡ calls_after self.old.left }
        ensures ok { OnOk result (self.new.faults ≡ self.old.faults) }
        ensures err { IsErr result → self.new.faults ≡ min (self.old.faults + 1) (2 ^ 64 - 1) }
    {
        match self.left {
            Some(0) => Err(self.fail()),
            Some(left) => {
                self.left = Some(left - 1);
                Ok(())
            }
            None => Ok(()),
        }
    }
}

/// Bytes in memory, to be read from the front.
#[derive(Drop)]
pub struct MemSource {
    bytes: Vec<u8>,
    at: usize,
    most: usize,
    calls: Calls,
}

impl Model for MemSource {
    ghost Value = { SourceState };

    ghost view = { λ s. record { bytes = drop s.at s.bytes.items; most = s.most; calls = s.calls.left; faults = s.calls.faults } };

    ghost invariant = { λ s. (s.at ≤ length s.bytes.items) × (0 < s.most) };
}

impl MemSource {
    /// A source of these bytes, of which each read gives as many as fit.
    pub fn make(bytes: Vec<u8>) -> Self
        ensures { result ≡ record { bytes = bytes.items; most = 2 ^ 64 - 1; calls = None; faults = 0 } }
    {
        MemSource::in_pieces(bytes, usize::MAX)
    }

    /// A source of these bytes, of which each read gives at most so many.
    pub fn in_pieces(bytes: Vec<u8>, most: usize) -> Self
        requires { 0 < most }
        ensures { result ≡ record { bytes = bytes.items; most = most; calls = None; faults = 0 } }
    {
        MemSource {
            bytes,
            at: 0,
            most,
            calls: Calls {
                left: None,
                faults: 0,
            },
        }
    }

    /// The same source, of which each call after the next `calls` ones fails.
    pub fn failing_after(mut self, calls: u64) -> Self
        ensures { result ≡ record self { calls = Some calls } }
    {
        self.calls.left = Some(calls);
        self
    }
}

impl Source for MemSource {
    ghost left = { λ s. Some s.bytes };

    ghost faults = { λ s. s.faults };

    fn read(&mut self, out: &mut [u8]) -> Result<usize, Failed>
        ensures bound { ReadsAtMost result out.new }
        ensures bytes { ReadConsumes (Some self.old.bytes) (Some self.new.bytes) result out.new }
        ensures cause { HasCause self.old.faults self.new.faults (IsErr result) }
        ensures answer { Answers self.old.calls result (min (min (length self.old.bytes) (length out.new)) self.old.most) }
        ensures calls { self.new.calls ≡ calls_after self.old.calls }
        ensures most { self.new.most ≡ self.old.most }
    {
        self.calls.begin()?;
        let count = (self.bytes.len() - self.at).min(out.len()).min(self.most);
        out[..count].copy_from_slice(&self.bytes[self.at..self.at + count]);
        self.at += count;
        Ok(count)
    }
}

/// Takes bytes into memory. A write for which there is no memory fails.
#[derive(Drop)]
pub struct MemSink {
    bytes: Vec<u8>,
    most: usize,
    calls: Calls,
}

impl Model for MemSink {
    ghost Value = { SinkState };

    ghost view = { λ s. record { bytes = s.bytes.items; most = s.most; calls = s.calls.left; faults = s.calls.faults } };

    ghost invariant = { λ s. 0 < s.most };
}

impl MemSink {
    /// A sink that took nothing yet, and of which each write takes the whole piece.
    pub fn make(alloc: Global) -> Self
        ensures { result ≡ record { bytes = []; most = 2 ^ 64 - 1; calls = None; faults = 0 } }
    {
        MemSink::in_pieces(alloc, usize::MAX)
    }

    /// A sink that took nothing yet, and of which each write takes at most so many bytes.
    pub fn in_pieces(alloc: Global, most: usize) -> Self
        requires { 0 < most }
        ensures { result ≡ record { bytes = []; most = most; calls = None; faults = 0 } }
    {
        MemSink {
            bytes: Vec::new(alloc),
            most,
            calls: Calls {
                left: None,
                faults: 0,
            },
        }
    }

    /// The same sink, of which each call after the next `calls` ones fails.
    pub fn failing_after(mut self, calls: u64) -> Self
        ensures { result ≡ record self { calls = Some calls } }
    {
        self.calls.left = Some(calls);
        self
    }

    /// The bytes that it took.
    pub fn bytes(&self) -> &[u8]
        ensures { result.now ≡ self.now.bytes }
    {
        &self.bytes
    }
}

impl Sink for MemSink {
    ghost taken = { λ s. Some s.bytes };

    ghost faults = { λ s. s.faults };

    fn write(&mut self, piece: &[u8]) -> Result<usize, Failed>
        ensures bound { WritesAtMost result piece.now }
        ensures bytes { WriteAppends (Some self.old.bytes) (Some self.new.bytes) result piece.now }
        ensures cause { HasCause self.old.faults self.new.faults (IsErr result) }
        ensures nothing { result ≡ Ok 0 → 0 < length piece.now → Rose self.old.faults self.new.faults }
        ensures answer { IfOk result (λ n. n ≡ min (length piece.now) self.old.most) }
        ensures fails { NoCallLeft self.old.calls → IsErr result }
        ensures calls { self.new.calls ≡ calls_after self.old.calls }
        ensures most { self.new.most ≡ self.old.most }
    {
        self.calls.begin()?;
        let count = piece.len().min(self.most);
        match self.bytes.extend_from_slice(&piece[..count]) {
            Ok(()) => Ok(count),
            Err(_) => Err(self.calls.fail()),
        }
    }
}
