//! What a writer does: pushing bytes, and sealing its two drafts.
ghost use Rattle.std.specs.Prelude.{◌≡◌, ◌+◌, ◌*◌, ◌-◌, ◌<◌, ◌≤◌, ◌++◌, [], List, ℕ, length, IfOk, IfErr, OnOk, OnErr, IsErrOf, IsOk, Option, Some, None, Ok, Err, IsSome, IsTrue, is_some, box_value};
ghost use Rattle.std.specs.Vec.{vec_capacity};
ghost use Rattle.disk_model.specs.Causes.{Rose};
ghost use Rattle.disk_model.specs.Worlds.{World};
ghost use Rattle.meta_file.specs.Checksums.{chunk_count};
ghost use Rattle.pair_draft.specs.Writers.{writer_of, pair_of, meta_header, IsFresh, HasPushed, HasWritten, HasSealed, FailedOf, Keeps};
ghost use Rattle.pair_draft.specs.declared.writing.PushFault.TheVariants.{Over};
ghost use Rattle.pair_draft.specs.declared.writing.SealFault.TheVariants.{Failed, Memory};

use crate::writer::{SealedPair, Sums, Writing};
use disk_model::{DiskError, Draft, PoolDisks};
use meta_file::{Header, Summer, write_header};
use std::alloc::{AllocError, Global};
use volume_layout::{BlockId, Stamp};

/// The header of the meta files that are written: CRC-32C, 512 bytes a checksum.
const HEADER: Header = Header { kind: 2, step: 512 };

/// Why a piece was not pushed.
#[derive(Clone, Copy, Debug, PartialEq, Eq)]
pub enum PushFault {
    /// The piece is longer than what is left of the reserved bytes. The writer is unchanged.
    Over { left: u64 },
    /// The draft of the block failed. The writer is not whole any more, and can only be given up.
    Failed,
    /// There is no memory for the piece. The writer is unchanged.
    Memory,
}

/// Why a writer was not sealed.
#[derive(Clone, Copy, Debug, PartialEq, Eq)]
pub enum SealFault {
    /// A draft failed. The writer is not whole any more, and can only be given up.
    Failed,
    /// There was no memory. The writer is unchanged.
    Memory,
}

/// Memory for the meta file of a block of at most so many bytes, which begins with its header.
pub fn reserve_sums(alloc: Global, need: u64) -> Result<Sums, AllocError>
    ensures header { IfOk result (λ sums. sums.bytes.items ≡ meta_header) }
    ensures room { IfOk result (λ sums. 7 + 4 * chunk_count 512 need ≤ vec_capacity sums.bytes) }
    ensures start { IfOk result (λ sums. IsFresh (box_value sums.summer)) }
{
    let header = write_header(HEADER);
    let chunks = need / u64::from(HEADER.step) + 1;
    let mut bytes = Vec::with_capacity(alloc, header.len() + 4 * chunks as usize)?;
    bytes.extend_from_slice(&header)?;
    let summer = Box::new(alloc, Summer::new(HEADER))?;
    Ok(Sums { summer, bytes })
}

impl<D: PoolDisks> Writing<D> {
    /// A writer of at most so many bytes into two drafts that are empty. `sums` is what `reserve_sums` gave for them.
    pub fn new(
        id: BlockId,
        stamp: Stamp,
        vol: u8,
        reserved: u64,
        sums: Sums,
        block: D::Draft,
        meta: D::Draft,
    ) -> Writing<D>
        requires header { sums.bytes.items ≡ meta_header }
        requires start { IsFresh (box_value sums.summer) }
        ensures id { result.id ≡ id }
        ensures stamp { result.stamp ≡ stamp }
        ensures vol { result.vol ≡ vol }
        ensures reserved { result.reserved ≡ reserved }
        ensures len { result.len ≡ 0 }
        ensures block { result.block ≡ block }
        ensures meta { result.meta ≡ Some meta }
        ensures pushed { (told : Option (List World)) → (IsSome told → D.Draft.bytes block ≡ Some []) → (IsSome told → D.Draft.bytes meta ≡ Some []) →
            HasPushed told (writer_of D.Draft.place D.Draft.bytes result) [] }
    {
        Writing {
            id,
            stamp,
            vol,
            len: 0,
            reserved,
            summer: sums.summer,
            sums: sums.bytes,
            block,
            meta: Some(meta),
        }
    }

    /// How many bytes are reserved and not pushed yet.
    pub fn left(&self) -> u64
        ensures { result ≡ self.now.reserved - self.now.len }
    {
        self.reserved.saturating_sub(self.len)
    }

    /// Whether the writer can go on: no push and no seal of it failed.
    pub fn is_whole(&self) -> bool
        ensures { result ≡ is_some self.now.meta }
    {
        self.meta.is_some()
    }

    /// Appends a piece to the draft of the block, and gathers the checksums of the chunks that it fills. An empty piece
    /// makes no device call.
    pub fn push(&mut self, piece: &[u8]) -> Result<(), PushFault>
        requires whole { IsTrue (is_some self.old.meta) }
        ensures over { (n : ℕ) → result ≡ Err (Over n) → (n ≡ self.old.reserved - self.old.len) × (self.old.reserved - self.old.len < length piece.now) }
        ensures within { OnOk result (length piece.now ≤ self.old.reserved - self.old.len) }
        ensures len { OnOk result (self.new.len ≡ self.old.len + length piece.now) }
        ensures empty { length piece.now ≡ 0 → IsOk result × (self.new ≡ self.old) }
        ensures same_over { (n : ℕ) → result ≡ Err (Over n) → self.new ≡ self.old }
        ensures same_memory { result ≡ Err PushFault.Memory →
            writer_of D.Draft.place D.Draft.bytes self.new ≡ writer_of D.Draft.place D.Draft.bytes self.old }
        ensures pushed { (told : Option (List World)) (bytes : List ℕ) →
            HasPushed told (writer_of D.Draft.place D.Draft.bytes self.old) bytes →
            OnOk result (HasPushed told (writer_of D.Draft.place D.Draft.bytes self.new) (bytes ++ piece.now)) }
        ensures failed { result ≡ Err PushFault.Failed → (self.new.meta ≡ None) × Rose (D.Draft.faults self.old.block) (D.Draft.faults self.new.block) }
        ensures later { D.Draft.faults self.old.block ≤ D.Draft.faults self.new.block }
        ensures goes_on { OnOk result (self.new.meta ≡ self.old.meta) }
        ensures keeps { Keeps (writer_of D.Draft.place D.Draft.bytes self.old) (writer_of D.Draft.place D.Draft.bytes self.new) }
    {
        if piece.is_empty() {
            return Ok(());
        }
        let len = piece.len() as u64;
        let left = self.left();
        if len > left {
            return Err(PushFault::Over { left });
        }
        let Some(room) = self.summer.room_for(piece) else {
            return Err(PushFault::Memory);
        };
        if self.sums.reserve(room).is_err() {
            return Err(PushFault::Memory);
        }
        match self.block.append(piece) {
            Ok(()) => {}
            Err(DiskError::Memory) => return Err(PushFault::Memory),
            Err(DiskError::Failed) => {
                self.meta = None;
                return Err(PushFault::Failed);
            }
        }
        self.summer.push(piece, &mut self.sums).unwrap();
        self.len += len;
        Ok(())
    }

    /// Appends the header and all checksums to the draft of the meta file, in one piece.
    fn append_meta(&mut self) -> Result<(), SealFault>
        requires whole { IsTrue (is_some self.old.meta) }
        ensures written { (told : Option (List World)) (bytes : List ℕ) →
            HasPushed told (writer_of D.Draft.place D.Draft.bytes self.old) bytes →
            OnOk result (HasWritten told (writer_of D.Draft.place D.Draft.bytes self.new) bytes) }
        ensures same { result ≡ Err Memory →
            writer_of D.Draft.place D.Draft.bytes self.new ≡ writer_of D.Draft.place D.Draft.bytes self.old }
        ensures failed { result ≡ Err Failed → (self.new.meta ≡ None) × FailedOf D.Draft.place D.Draft.faults (writer_of D.Draft.place D.Draft.bytes self.old) }
        ensures goes_on { OnOk result ((writer_of D.Draft.place D.Draft.bytes self.new).meta ≡ (writer_of D.Draft.place D.Draft.bytes self.old).meta) }
        ensures keeps { Keeps (writer_of D.Draft.place D.Draft.bytes self.old) (writer_of D.Draft.place D.Draft.bytes self.new) }
        ensures len { self.new.len ≡ self.old.len }
    {
        let full = self.sums.len();
        let mut last = [0u8; 4];
        let count = self.summer.rest_into(&mut last);
        if self.sums.extend_from_slice(&last[..count]).is_err() {
            return Err(SealFault::Memory);
        }
        let Some(mut meta) = self.meta.take() else {
            return Err(SealFault::Failed);
        };
        match meta.append(&self.sums) {
            Ok(()) => {
                self.meta = Some(meta);
                Ok(())
            }
            Err(DiskError::Memory) => {
                self.meta = Some(meta);
                self.sums.truncate(full);
                Err(SealFault::Memory)
            }
            Err(DiskError::Failed) => Err(SealFault::Failed),
        }
    }

    /// Appends the header and the checksums to the draft of the meta file, and makes sure of it, then of the block's.
    pub fn seal(mut self) -> Result<SealedPair<D>, (SealFault, Writing<D>)>
        requires whole { IsTrue (is_some self.meta) }
        ensures sealed { (told : Option (List World)) (bytes : List ℕ) →
            HasPushed told (writer_of D.Draft.place D.Draft.bytes self) bytes →
            IfOk result (λ pair. HasSealed told (pair_of D.Sealed.place D.Sealed.bytes pair) bytes) }
        ensures id { IfOk result (λ pair. pair.id ≡ self.id) }
        ensures stamp { IfOk result (λ pair. pair.stamp ≡ self.stamp) }
        ensures vol { IfOk result (λ pair. pair.vol ≡ self.vol) }
        ensures places { IfOk result (λ pair. (D.Sealed.place pair.block ≡ D.Draft.place self.block) × (Some (D.Sealed.place pair.meta) ≡ (writer_of D.Draft.place D.Draft.bytes self).meta)) }
        ensures same { IfErr result (λ given. given.0 ≡ Memory →
            writer_of D.Draft.place D.Draft.bytes given.1 ≡ writer_of D.Draft.place D.Draft.bytes self) }
        ensures keeps { IfErr result (λ given. Keeps (writer_of D.Draft.place D.Draft.bytes self) (writer_of D.Draft.place D.Draft.bytes given.1)) }
        ensures len { IfErr result (λ given. given.1.len ≡ self.len) }
        ensures failed { IfErr result (λ given. given.0 ≡ Failed →
            (given.1.meta ≡ None) × FailedOf D.Draft.place D.Draft.faults (writer_of D.Draft.place D.Draft.bytes self)) }
    {
        match self.append_meta() {
            Ok(()) => {}
            Err(fault) => return Err((fault, self)),
        }
        let Some(meta) = self.meta.take() else {
            return Err((SealFault::Failed, self));
        };
        let meta = match meta.seal() {
            Ok(meta) => meta,
            Err(_) => return Err((SealFault::Failed, self)),
        };
        let Writing {
            id,
            stamp,
            vol,
            len,
            reserved,
            summer,
            sums,
            block,
            meta: sealed,
        } = self;
        match block.seal() {
            Ok(block) => Ok(SealedPair {
                id,
                stamp,
                vol,
                len,
                block,
                meta,
            }),
            Err(block) => Err((
                SealFault::Failed,
                Writing {
                    id,
                    stamp,
                    vol,
                    len,
                    reserved,
                    summer,
                    sums,
                    block,
                    meta: sealed,
                },
            )),
        }
    }
}
