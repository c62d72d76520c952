//! Files in memory for tests, whose calls fail from a stated one on. Their counts of faults stand at their end.
ghost use Rattle.std.specs.Prelude.{◌≡◌, ◌<◌, ◌-◌, ◌^◌, [], None, Some};
ghost use Rattle.disk_model.specs.Worlds.{draft_at};
ghost use Rattle.disk_model.specs.Untold.{untold_is_disk, untold_stands_within, untold_leaves_nothing};

use disk_model::{DiskError, Draft, Failed, Names, PoolDisks, Reader, SealedDraft};
use std::alloc::Global;

/// A file of which each read gives at most so many bytes, and each read after the next `reads` ones fails.
#[derive(Drop)]
pub struct KeptReader {
    pub bytes: Vec<u8>,
    pub most: usize,
    pub reads: usize,
    ghost some: { 0 < most },
}

impl Reader for KeptReader {
    ghost number = { λ _. 0 };

    ghost bytes = { λ r. Some r.bytes.items };

    ghost faults = { λ _. 2 ^ 64 - 1 };

    fn read(&mut self, at: u64, out: &mut [u8]) -> Result<usize, Failed> {
        if self.reads == 0 {
            return Err(Failed);
        }
        self.reads -= 1;
        let from = (at as usize).min(self.bytes.len());
        let count = (self.bytes.len() - from).min(out.len()).min(self.most);
        out[..count].copy_from_slice(&self.bytes[from..from + count]);
        Ok(count)
    }
}

/// What the calls of a draft answer.
#[derive(Clone, Copy, PartialEq, Eq)]
pub enum Answers {
    Ok,
    /// The first append finds no memory.
    NoMemory,
    AppendFails,
    SealFails,
}

/// A draft that keeps its bytes.
#[derive(Drop)]
pub struct KeptDraft {
    pub bytes: Vec<u8>,
    pub answers: Answers,
}

#[derive(Drop)]
pub struct KeptSealed {
    pub bytes: Vec<u8>,
}

impl SealedDraft for KeptSealed {
    ghost place = { λ _. draft_at 0 1 [] };

    ghost bytes = { λ s. Some s.bytes.items };
}

impl Draft for KeptDraft {
    type Sealed = KeptSealed;

    ghost place = { λ _. draft_at 0 1 [] };

    ghost bytes = { λ d. Some d.bytes.items };

    ghost faults = { λ _. 2 ^ 64 - 1 };

    fn number(&self) -> u64 {
        0
    }

    fn append(&mut self, piece: &[u8]) -> Result<(), DiskError> {
        if piece.is_empty() {
            return Ok(());
        }
        match self.answers {
            Answers::AppendFails => return Err(DiskError::Failed),
            Answers::NoMemory => {
                self.answers = Answers::Ok;
                return Err(DiskError::Memory);
            }
            Answers::Ok | Answers::SealFails => {}
        }
        self.bytes.extend_from_slice(piece)?;
        Ok(())
    }

    fn seal(self) -> Result<KeptSealed, KeptDraft> {
        if self.answers == Answers::SealFails {
            return Err(self);
        }
        Ok(KeptSealed { bytes: self.bytes })
    }
}

/// Disks that have no file and tell nothing: every call but the count of volumes fails.
#[derive(Drop)]
pub struct NoDisks;

impl PoolDisks for NoDisks {
    type Sealed = KeptSealed;

    type Draft = KeptDraft;

    type Reader = KeptReader;

    ghost worlds = { λ _. None };

    ghost moment = { λ _. 0 };

    ghost left_since = { λ _ t image. ⊥ };

    ghost faults = { λ _. 2 ^ 64 - 1 };

    ghost absences = { λ _. 0 };

    ghost next_number = { λ _. 0 };

    ghost volume_count = { λ _. 1 };

    ghost is_disk = { λ _. untold_is_disk 0 };

    ghost within = { λ _. untold_stands_within 1 };

    ghost counts_now = { λ _ t image early leaves. untold_leaves_nothing image leaves };

    ghost only_now = { λ _ image left. absurd left };

    fn volumes(&self) -> u8 {
        1
    }

    fn list(&mut self, alloc: Global, vol: u8, dir: &str) -> Result<Names, DiskError> {
        Err(DiskError::Failed)
    }

    fn size(&mut self, vol: u8, path: &str) -> Result<Option<u64>, Failed> {
        Err(Failed)
    }

    fn lend_reader(
        &mut self,
        alloc: Global,
        vol: u8,
        path: &str,
    ) -> Result<Option<KeptReader>, DiskError> {
        Err(DiskError::Failed)
    }

    fn create(&mut self, alloc: Global, vol: u8, path: &str) -> Result<KeptDraft, DiskError> {
        Err(DiskError::Failed)
    }

    fn publish(&mut self, sealed: KeptSealed, path: &str) -> Result<(), Failed> {
        Err(Failed)
    }

    fn remove(&mut self, vol: u8, path: &str) -> Result<(), Failed> {
        Err(Failed)
    }
}
