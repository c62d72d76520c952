//! Deleting a block.
ghost use Rattle.std.specs.Prelude.{◌≡◌, ◌≢◌, ℕ, None, Some, IfSome, IsErr, IsErrOf};
ghost use Rattle.disk_model.specs.Causes.{Rose};
ghost use Rattle.disk_model.specs.Marks.{GoesOn};
ghost use Rattle.map_model.specs.Cells.{Cells};
ghost use Rattle.map_model.specs.Sound.{nothing};
ghost use Rattle.map_model.specs.Steps.{Step, delete, delete_refusal};
ghost use Rattle.pool_state.specs.Answers.{delete_fault};
ghost use Rattle.pool_state.specs.Rooms.{room_of};
ghost use Rattle.pool_state.specs.Tenures.{Deletes, state_refusal, KeepsWhole, ChoosesAsBefore};
ghost use Rattle.volume_layout.specs.Paths.{IsBlockId};
ghost use Rattle.replica_map.specs.Books.{entry_at};
ghost use Rattle.replica_map.specs.declared.entry.State.TheVariants.{Finalised, Unsure, Waiting};
ghost use Rattle.pool_state.specs.Books.{block_books};
ghost use Rattle.pool_state.specs.BookSteps.{BooksDeleted};
ghost use Rattle.pool_state.specs.Foreign.{LeavesForeign};
ghost use Rattle.pool_state.specs.Stands.{Stands, StandsForSome};

use crate::bookkeeping::{put, take_away};
use crate::cleaning::remove_files;
use crate::pool_record::Pool;
use disk_model::PoolDisks;
use replica_map::{Entry, State};
use volume_layout::{BlockFile, BlockId};

/// Why a block was not deleted.
#[derive(Clone, Copy, Debug, PartialEq, Eq)]
pub enum DeleteFault {
    /// There is no such block.
    None,
    /// It is being written.
    Writing,
    /// The disks failed. A replica is in doubt then; any other block is as before.
    Failed,
}

impl<D: PoolDisks> Pool<D> {
    /// Why a deletion of a block would be refused; none where it has files to be deleted, and no writer.
    pub fn delete_refusal(&self, id: BlockId) -> Option<DeleteFault>
        ensures refused { (cells : Cells) → Stands self.now nothing cells →
            IfSome result (λ fault. Step (room_of self.now) (cells id) delete (delete_fault fault) (cells id)) }
        ensures none { (cells : Cells) → Stands self.now nothing cells → result ≡ None → delete_refusal (cells id) ≡ None }
        ensures valid { IsBlockId id }
        ensures not_failed { IfSome result (λ fault. fault ≢ DeleteFault.Failed) }
    {
        match self.map.find(id) {
            Some(entry) => refusal_in(entry.state),
            None => Some(DeleteFault::None),
        }
    }

    /// Deletes a block: removes its files, the block file of a replica before its meta file. Where that fails a replica is in
    /// doubt, and any other block is as before. It takes no memory.
    pub fn delete(&mut self, id: BlockId) -> Result<(), DeleteFault>
        requires stands { StandsForSome self.old }
        ensures step { (cells : Cells) → Stands self.old nothing cells → Deletes id result cells self.old self.new × KeepsWhole self.old self.new }
        ensures others { (other : ℕ) → other ≢ id → block_books self.new.map other ≡ block_books self.old.map other }
        ensures books { BooksDeleted result (block_books self.old.map id) (block_books self.new.map id) }
        ensures goes_on { GoesOn D.PoolDisks self.old.disks self.new.disks }
        ensures foreign { LeavesForeign D.PoolDisks self.old.disks self.new.disks }
        ensures choosing { ChoosesAsBefore self.old self.new }
        ensures failed { IsErrOf result DeleteFault.Failed → Rose (D.faults self.old.disks) (D.faults self.new.disks) }
    {
        let Some(entry) = self.map.find(id) else {
            return Err(DeleteFault::None);
        };
        match entry.state {
            State::Writing => Err(DeleteFault::Writing),
            State::Finalised => self.delete_final(id, &entry),
            State::Unsure => self.delete_unsure(id, &entry),
            State::Waiting => self.delete_waiting(id, &entry),
        }
    }

    /// Deletes a replica.
    fn delete_final(&mut self, id: BlockId, entry: &Entry) -> Result<(), DeleteFault>
        requires entry { entry_at self.old.map id ≡ Some entry.now }
        requires state { entry.now.state ≡ Finalised }
        requires own { entry.now.id ≡ id }
        requires valid { IsBlockId id }
        requires stands { StandsForSome self.old }
        ensures step { (cells : Cells) → Stands self.old nothing cells → Deletes id result cells self.old self.new × KeepsWhole self.old self.new }
        ensures others { (other : ℕ) → other ≢ id → block_books self.new.map other ≡ block_books self.old.map other }
        ensures books { BooksDeleted result (block_books self.old.map id) (block_books self.new.map id) }
        ensures goes_on { GoesOn D.PoolDisks self.old.disks self.new.disks }
        ensures foreign { LeavesForeign D.PoolDisks self.old.disks self.new.disks }
        ensures choosing { ChoosesAsBefore self.old self.new }
        ensures failed { IsErr result → Rose (D.faults self.old.disks) (D.faults self.new.disks) }
    {
        let files = [BlockFile::Block, BlockFile::Meta(entry.stamp)];
        match remove_files(&mut self.disks, id, entry.vol, &files) {
            Ok(()) => {
                take_away(&mut self.map, entry);
                Ok(())
            }
            Err(_) => {
                put(
                    &mut self.map,
                    Entry {
                        state: State::Unsure,
                        ..*entry
                    },
                );
                Err(DeleteFault::Failed)
            }
        }
    }

    /// Deletes a block that is in doubt.
    fn delete_unsure(&mut self, id: BlockId, entry: &Entry) -> Result<(), DeleteFault>
        requires entry { entry_at self.old.map id ≡ Some entry.now }
        requires state { entry.now.state ≡ Unsure }
        requires own { entry.now.id ≡ id }
        requires valid { IsBlockId id }
        requires stands { StandsForSome self.old }
        ensures step { (cells : Cells) → Stands self.old nothing cells → Deletes id result cells self.old self.new × KeepsWhole self.old self.new }
        ensures others { (other : ℕ) → other ≢ id → block_books self.new.map other ≡ block_books self.old.map other }
        ensures books { BooksDeleted result (block_books self.old.map id) (block_books self.new.map id) }
        ensures goes_on { GoesOn D.PoolDisks self.old.disks self.new.disks }
        ensures foreign { LeavesForeign D.PoolDisks self.old.disks self.new.disks }
        ensures choosing { ChoosesAsBefore self.old self.new }
        ensures failed { IsErr result → Rose (D.faults self.old.disks) (D.faults self.new.disks) }
    {
        let files = [
            BlockFile::Block,
            BlockFile::Meta(entry.stamp),
            BlockFile::WritingBlock,
            BlockFile::WritingMeta(entry.stamp),
        ];
        match remove_files(&mut self.disks, id, entry.vol, &files) {
            Ok(()) => {
                take_away(&mut self.map, entry);
                Ok(())
            }
            Err(_) => Err(DeleteFault::Failed),
        }
    }

    /// Deletes a block that waits: the files that are listed.
    fn delete_waiting(&mut self, id: BlockId, entry: &Entry) -> Result<(), DeleteFault>
        requires entry { entry_at self.old.map id ≡ Some entry.now }
        requires state { entry.now.state ≡ Waiting }
        requires own { entry.now.id ≡ id }
        requires valid { IsBlockId id }
        requires stands { StandsForSome self.old }
        ensures step { (cells : Cells) → Stands self.old nothing cells → Deletes id result cells self.old self.new × KeepsWhole self.old self.new }
        ensures others { (other : ℕ) → other ≢ id → block_books self.new.map other ≡ block_books self.old.map other }
        ensures books { BooksDeleted result (block_books self.old.map id) (block_books self.new.map id) }
        ensures goes_on { GoesOn D.PoolDisks self.old.disks self.new.disks }
        ensures foreign { LeavesForeign D.PoolDisks self.old.disks self.new.disks }
        ensures choosing { ChoosesAsBefore self.old self.new }
        ensures failed { IsErr result → Rose (D.faults self.old.disks) (D.faults self.new.disks) }
    {
        match self.clean(id) {
            Ok(()) => {
                take_away(&mut self.map, entry);
                Ok(())
            }
            Err(_) => Err(DeleteFault::Failed),
        }
    }
}

/// Why a block whose entry is in this state can't be deleted.
fn refusal_in(state: State) -> Option<DeleteFault>
    ensures { result ≡ state_refusal state }
{
    match state {
        State::Writing => Some(DeleteFault::Writing),
        State::Finalised | State::Unsure | State::Waiting => None,
    }
}
