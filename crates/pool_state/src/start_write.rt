//! The start of a fresh write.
ghost use Rattle.std.specs.Prelude.{◌≡◌, ◌≢◌, ◌<◌, ◌^◌, ℕ, [], None, Err, IfOk, IfSome, IsErrOf};
ghost use Rattle.disk_model.specs.Causes.{Rose};
ghost use Rattle.disk_model.specs.Marks.{GoesOn};
ghost use Rattle.map_model.specs.Cells.{Cells, absent, waiting};
ghost use Rattle.map_model.specs.Sound.{nothing};
ghost use Rattle.map_model.specs.Steps.{Step, start_write, write_refusal, memory};
ghost use Rattle.volume_layout.specs.Paths.{IsBlockId};
ghost use Rattle.pool_state.specs.Answers.{start_fault, write_fault};
ghost use Rattle.pool_state.specs.Books.{block_books};
ghost use Rattle.replica_map.specs.Books.{entry_at, used};
ghost use Rattle.pool_state.specs.Rooms.{room_of};
ghost use Rattle.pool_state.specs.Uses.{AreUses};
ghost use Rattle.pool_state.specs.Tenures.{Starts, StartsBooks, IsWriterOf, GivesNumber, KeepsWhole};
ghost use Rattle.pool_state.specs.Foreign.{LeavesForeign};
ghost use Rattle.pool_state.specs.Stands.{Stands, StandsForSome};

use crate::bookkeeping::{add_created, add_half_created, add_writer, make_room};
use crate::pool_record::Pool;
use crate::start_fault::StartFault;
use disk_model::{DiskError, Draft, PoolDisks};
use pair_draft::{Writing, reserve_sums};
use replica_map::{Entry, Grown, State};
use std::alloc::Global;
use volume_layout::{BlockId, Stamp, rbw_block, rbw_meta};

impl<D: PoolDisks> Pool<D> {
    /// Why a write of `need` bytes of a block would be refused, whatever its stamp; none where the block is absent, there is
    /// room for it and a revision is left.
    pub fn write_refusal(&self, id: BlockId, need: u64) -> Option<StartFault>
        ensures refused { (cells : Cells) (stamp : ℕ) → Stands self.now nothing cells →
            IfSome result (λ fault. Step (room_of self.now) (cells id) (start_write stamp need) (start_fault fault) (cells id)) }
        ensures absent { (cells : Cells) → Stands self.now nothing cells → result ≡ None → cells id ≡ absent }
        ensures memory { (cells : Cells) (stamp : ℕ) → Stands self.now nothing cells → result ≡ None →
            Step (room_of self.now) (cells id) (start_write stamp need) memory (cells id) }
        ensures none { result ≡ None → entry_at self.now.map id ≡ None }
        ensures fits { result ≡ None → write_refusal (room_of self.now) absent need ≡ None }
        ensures counted { AreUses (block_books self.now.map) (λ vol. used vol self.now.map) }
        ensures valid { IsBlockId id }
        ensures not_a_fault { IfSome result (λ fault. (fault ≢ StartFault.Failed) × (fault ≢ StartFault.Memory)) }
        ensures not_worn { result ≡ None → self.now.next_rev < 2 ^ 63 }
    {
        self.map.uses_are_sums();
        match self.map.find(id) {
            Some(entry) => Some(write_refusal(entry.state)),
            None => self.room_refusal(need),
        }
    }

    /// Starts a write of a block that has no replica, of at most `need` bytes, on the next volume in turn that has room for
    /// them: creates its block and its meta file under `current/rbw`. A length that passes `MOST_LENGTH`, or for which no
    /// volume has room, is refused. Memory for the checksums and the books is reserved first. Where the first create finds no
    /// memory nothing has changed; after any other fault of a create the block waits to be deleted.
    pub fn start_write(
        &mut self,
        alloc: Global,
        id: BlockId,
        stamp: Stamp,
        need: u64,
    ) -> Result<Writing<D>, StartFault>
        requires stands { StandsForSome self.old }
        ensures step { (cells : Cells) → Stands self.old nothing cells →
            Starts id stamp need result cells self.old self.new × KeepsWhole self.old self.new }
        ensures others { (other : ℕ) → other ≢ id → block_books self.new.map other ≡ block_books self.old.map other }
        ensures books { StartsBooks id stamp need result self.old self.new }
        ensures writer { IfOk result (λ w. IsWriterOf self.new w []) }
        ensures what { IfOk result (λ w. (w.id ≡ id) × (w.stamp ≡ stamp) × (w.reserved ≡ need)) }
        ensures numbers { IfOk result (λ w. GivesNumber self.old self.new (D.Draft.place w.block).number) }
        ensures meta_numbers { IfOk result (λ w. IfSome w.meta (λ meta. GivesNumber self.old self.new (D.Draft.place meta).number)) }
        ensures goes_on { GoesOn D.PoolDisks self.old.disks self.new.disks }
        ensures foreign { LeavesForeign D.PoolDisks self.old.disks self.new.disks }
        ensures failed { IsErrOf result StartFault.Failed → Rose (D.faults self.old.disks) (D.faults self.new.disks) }
    {
        let _in_range = stamp.get();
        if let Some(fault) = self.write_refusal(id, need) {
            return Err(fault);
        }
        let vol = self.choose_volume(need);
        let Ok(sums) = reserve_sums(alloc, need) else {
            return Err(StartFault::Memory);
        };
        let Ok(()) = make_room(&mut self.map) else {
            return Err(StartFault::Memory);
        };
        let waiting = Entry {
            id,
            stamp,
            len: need,
            vol,
            rev: self.next_rev,
            state: State::Waiting,
        };
        let block = match self.disks.create(alloc, vol, rbw_block(id).as_str()) {
            Ok(block) => block,
            Err(DiskError::Failed) => {
                add_half_created(&mut self.map, &waiting);
                self.next_rev += 1;
                self.pointer = self.volume_after(vol);
                return Err(StartFault::Failed);
            }
            Err(DiskError::Memory) => return Err(StartFault::Memory),
        };
        self.next_rev += 1;
        self.pointer = self.volume_after(vol);
        let meta = match self.disks.create(alloc, vol, rbw_meta(id, stamp).as_str()) {
            Ok(meta) => meta,
            Err(DiskError::Failed) => {
                add_created(&mut self.map, &waiting);
                return Err(StartFault::Failed);
            }
            Err(DiskError::Memory) => {
                add_half_created(&mut self.map, &waiting);
                return Err(StartFault::Memory);
            }
        };
        let grown = Grown {
            base: None,
            reserved: need,
            block_no: block.number(),
            meta_no: meta.number(),
        };
        add_writer(
            &mut self.map,
            Entry {
                state: State::Writing,
                ..waiting
            },
            grown,
        );
        Ok(Writing::new(id, stamp, vol, need, sums, block, meta))
    }
}

/// Why a block with an entry can't be written.
fn write_refusal(state: State) -> StartFault
    ensures { result ≡ write_fault state }
{
    match state {
        State::Finalised => StartFault::Exists,
        State::Writing => StartFault::Writing,
        State::Unsure => StartFault::Unsure,
        State::Waiting => StartFault::Waiting,
    }
}
