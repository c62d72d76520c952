//! Removing files of a block.
ghost use Rattle.std.specs.Prelude.{◌≡◌, ◌≢◌, ◌≤◌, ℕ, [], None, length, suc, drop, IsOk, IsErr, OnOk, OnErr};
ghost use Rattle.disk_model.specs.Causes.{Rose};
ghost use Rattle.disk_model.specs.Marks.{GoesOn};
ghost use Rattle.volume_layout.specs.Paths.{IsBlockId};
ghost use Rattle.map_model.specs.Cells.{Cells};
ghost use Rattle.map_model.specs.Sound.{nothing};
ghost use Rattle.replica_map.specs.Books.{SameRows, IsFirstOf};
ghost use Rattle.pool_state.specs.Books.{block_books, left_at};
ghost use Rattle.pool_state.specs.Reaching.{RemovesFiles};
ghost use Rattle.pool_state.specs.Tenures.{Rests, KeepsWhole, ChoosesAsBefore};
ghost use Rattle.pool_state.specs.Foreign.{LeavesForeign};
ghost use Rattle.pool_state.specs.Stands.{Stands, StandsForSome};

use crate::pool_record::Pool;
use disk_model::{Failed, PoolDisks};
use volume_layout::{BlockFile, BlockId};

/// Removes files of a block from a volume, one after the other, up to the first removal that fails.
pub fn remove_files<D: PoolDisks>(
    disks: &mut D,
    id: BlockId,
    vol: u8,
    files: &[BlockFile],
) -> Result<(), Failed>
    requires valid { IsBlockId id }
    requires low { 1 ≤ vol }
    requires high { vol ≤ D.volume_count disks.old }
    ensures removes { RemovesFiles id vol files.now (IsOk result) (D.worlds disks.old) (D.worlds disks.new) (D.left_since disks.old) (D.left_since disks.new) }
    ensures goes_on { GoesOn D.PoolDisks disks.old disks.new }
    ensures foreign { LeavesForeign D.PoolDisks disks.old disks.new }
    ensures failed { IsErr result → Rose (D.faults disks.old) (D.faults disks.new) }
{
    for at in 0..files.len() {
        match disks.remove(vol, files[at].path(id).as_str()) {
            Ok(()) => {}
            Err(failed) => return Err(failed),
        }
    }
    Ok(())
}

impl<D: PoolDisks> Pool<D> {
    /// Removes the leftovers of a block, up to the first removal that fails. One that was removed is no longer listed.
    pub(crate) fn clean(&mut self, id: BlockId) -> Result<(), Failed>
        requires valid { IsBlockId id }
        requires stands { StandsForSome self.old }
        ensures quiet { (cells : Cells) → Stands self.old nothing cells → Rests cells self.old self.new × KeepsWhole self.old self.new }
        ensures done { OnOk result (left_at self.new.map id ≡ []) }
        ensures front { (count : ℕ) × (left_at self.new.map id ≡ drop count (left_at self.old.map id)) }
        ensures rows { SameRows self.old.map self.new.map }
        ensures tickets { self.new.map.tickets ≡ self.old.map.tickets }
        ensures others { (other : ℕ) → other ≢ id → block_books self.new.map other ≡ block_books self.old.map other }
        ensures goes_on { GoesOn D.PoolDisks self.old.disks self.new.disks }
        ensures foreign { LeavesForeign D.PoolDisks self.old.disks self.new.disks }
        ensures choosing { ChoosesAsBefore self.old self.new }
        ensures failed { IsErr result → Rose (D.faults self.old.disks) (D.faults self.new.disks) }
    {
        for _ in 0..self.map.leftover_count() {
            let Some(at) = self.map.first_leftover(id, None) else {
                return Ok(());
            };
            self.clean_one(id, at)?;
        }
        Ok(())
    }

    /// Removes a leftover of a block, the first one.
    fn clean_one(&mut self, id: BlockId, at: usize) -> Result<(), Failed>
        requires first { IsFirstOf id at self.old.map }
        requires valid { IsBlockId id }
        requires stands { StandsForSome self.old }
        ensures quiet { (cells : Cells) → Stands self.old nothing cells → Rests cells self.old self.new × KeepsWhole self.old self.new }
        ensures fewer { OnOk result (suc (length self.new.map.leftovers) ≡ length self.old.map.leftovers) }
        ensures front { OnOk result (left_at self.new.map id ≡ drop 1 (left_at self.old.map id)) }
        ensures kept { OnErr result (self.new.map ≡ self.old.map) }
        ensures rows { SameRows self.old.map self.new.map }
        ensures tickets { self.new.map.tickets ≡ self.old.map.tickets }
        ensures others { (other : ℕ) → other ≢ id → block_books self.new.map other ≡ block_books self.old.map other }
        ensures goes_on { GoesOn D.PoolDisks self.old.disks self.new.disks }
        ensures foreign { LeavesForeign D.PoolDisks self.old.disks self.new.disks }
        ensures choosing { ChoosesAsBefore self.old self.new }
        ensures failed { IsErr result → Rose (D.faults self.old.disks) (D.faults self.new.disks) }
    {
        let Some(leftover) = self.map.leftover_at(at) else {
            unreachable!();
        };
        self.disks
            .remove(leftover.vol, leftover.file.path(id).as_str())?;
        self.map.drop_leftover(at);
        Ok(())
    }
}
