//! Real files that are written, and real files that are read.
//!
//! Trusted of the system: that the bytes of a file are durable once the file was synced, and that an open file goes on
//! giving its bytes after its name was given to another file or taken away. Nothing is told of the bytes.
ghost use Rattle.std.specs.Prelude.{◌≡◌, None, string_bytes};

use disk_model::{DiskError, Draft, Failed, Reader, SealedDraft};
use std::fs::File;
use std::io::Write;
use std::os::unix::fs::FileExt;

/// A real file that was sealed, under the name that it was made with.
#[derive(Drop)]
pub struct OsSealed {
    /// The number that the disks gave it.
    pub(crate) number: u64,
    /// Its volume.
    pub(crate) vol: u8,
    /// Its path below the pool's directory.
    pub(crate) path: String,
}

impl SealedDraft for OsSealed {
    ghost place = { λ s. record { number = s.number; vol = s.vol; path = string_bytes s.path } };

    ghost bytes = { λ s. None };
}

/// A real file that is being written.
#[derive(Drop)]
pub struct OsDraft {
    /// What is left of it once it is sealed.
    pub(crate) place: OsSealed,
    /// The open file.
    pub(crate) file: File,
    /// How often it failed.
    pub(crate) faults: u64,
}

impl Draft for OsDraft {
    type Sealed = OsSealed;

    ghost place = { λ d. record { number = d.place.number; vol = d.place.vol; path = string_bytes d.place.path } };

    ghost bytes = { λ d. None };

    ghost faults = { λ d. d.faults };

    fn number(&self) -> u64 {
        self.place.number
    }

    fn append(&mut self, piece: &[u8]) -> Result<(), DiskError> {
        if piece.is_empty() || self.file.write_all(piece).is_ok() {
            return Ok(());
        }
        self.faults = self.faults.saturating_add(1);
        Err(DiskError::Failed)
    }

    fn seal(mut self) -> Result<OsSealed, Self> {
        if self.file.sync_all().is_ok() {
            return Ok(self.place);
        }
        self.faults = self.faults.saturating_add(1);
        Err(self)
    }
}

/// A real file that was lent.
#[derive(Drop)]
pub struct OsReader {
    /// The number that the disks gave it.
    pub(crate) number: u64,
    /// The open file.
    pub(crate) file: File,
    /// How often it failed.
    pub(crate) faults: u64,
}

impl Reader for OsReader {
    ghost number = { λ r. r.number };

    ghost bytes = { λ r. None };

    ghost faults = { λ r. r.faults };

    fn read(&mut self, at: u64, out: &mut [u8]) -> Result<usize, Failed> {
        if i64::try_from(at).is_err() {
            // no file is that long
            return Ok(0);
        }
        match self.file.read_at(out, at) {
            Ok(count) => Ok(count),
            Err(_) => {
                self.faults = self.faults.saturating_add(1);
                Err(Failed)
            }
        }
    }
}
