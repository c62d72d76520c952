//! Files in memory that are being written, and files that were lent.
ghost use Rattle.std.specs.Prelude.{◌≡◌, Some, string_bytes};

use disk_model::{DiskError, Draft, Failed, Reader, SealedDraft};

/// A file in memory that is being written.
#[derive(Drop)]
pub struct MemDraft {
    number: u64,
    vol: u8,
    path: String,
    bytes: Vec<u8>,
    append_fails: bool,
    seal_fails: bool,
    faults: u64,
}

/// A file in memory that was written and sealed.
#[derive(Drop)]
pub struct MemSealed {
    pub(crate) number: u64,
    pub(crate) vol: u8,
    pub(crate) path: String,
    pub(crate) bytes: Vec<u8>,
}

/// The bytes of a file as they were when it was lent.
#[derive(Drop)]
pub struct MemReader {
    number: u64,
    bytes: Vec<u8>,
    fails: bool,
    faults: u64,
}

impl MemDraft {
    /// An empty draft, whose every append or seal fails where it is said.
    pub(crate) fn make(
        number: u64,
        vol: u8,
        path: String,
        bytes: Vec<u8>,
        append_fails: bool,
        seal_fails: bool,
    ) -> MemDraft
        ensures place { ⟦<MemDraft as Draft>⟧.place result ≡ record { number = number; vol = vol; path = string_bytes path } }
        ensures bytes { ⟦<MemDraft as Draft>⟧.bytes result ≡ Some bytes.items }
        ensures fresh { ⟦<MemDraft as Draft>⟧.faults result ≡ 0 }
    {
        MemDraft {
            number,
            vol,
            path,
            bytes,
            append_fails,
            seal_fails,
            faults: 0,
        }
    }
}

impl MemReader {
    /// A reader of these bytes, whose every read fails where it is said.
    pub(crate) fn make(number: u64, bytes: Vec<u8>, fails: bool) -> MemReader
        ensures number { ⟦<MemReader as Reader>⟧.number result ≡ number }
        ensures bytes { ⟦<MemReader as Reader>⟧.bytes result ≡ Some bytes.items }
        ensures fresh { ⟦<MemReader as Reader>⟧.faults result ≡ 0 }
    {
        MemReader {
            number,
            bytes,
            fails,
            faults: 0,
        }
    }
}

impl SealedDraft for MemSealed {
    ghost place = { λ s. record { number = s.number; vol = s.vol; path = string_bytes s.path } };

    ghost bytes = { λ s. Some s.bytes.items };
}

impl Draft for MemDraft {
    type Sealed = MemSealed;

    ghost place = { λ d. record { number = d.number; vol = d.vol; path = string_bytes d.path } };

    ghost bytes = { λ d. Some d.bytes.items };

    ghost faults = { λ d. d.faults };

    fn number(&self) -> u64 {
        self.number
    }

    fn append(&mut self, piece: &[u8]) -> Result<(), DiskError> {
        if piece.is_empty() {
            return Ok(());
        }
        if self.append_fails {
            self.faults = self.faults.saturating_add(1);
            return Err(DiskError::Failed);
        }
        self.bytes.extend_from_slice(piece)?;
        Ok(())
    }

    fn seal(mut self) -> Result<MemSealed, Self> {
        if self.seal_fails {
            self.faults = self.faults.saturating_add(1);
            return Err(self);
        }
        Ok(MemSealed {
            number: self.number,
            vol: self.vol,
            path: self.path,
            bytes: self.bytes,
        })
    }
}

impl Reader for MemReader {
    ghost number = { λ r. r.number };

    ghost bytes = { λ r. Some r.bytes.items };

    ghost faults = { λ r. r.faults };

    fn read(&mut self, at: u64, out: &mut [u8]) -> Result<usize, Failed> {
        if self.fails {
            self.faults = self.faults.saturating_add(1);
            return Err(Failed);
        }
        let start = at as usize;
        if start >= self.bytes.len() {
            return Ok(0);
        }
        let count = (self.bytes.len() - start).min(out.len());
        out[..count].copy_from_slice(&self.bytes[start..start + count]);
        Ok(count)
    }
}
