//! The opening of a pool.
ghost use Rattle.std.specs.Prelude.{◌≡◌, ◌≤◌, ◌^◌, Some, Err, IfOk, IsOk, OnOk, IsErrOf, length};
ghost use Rattle.disk_model.specs.Causes.{Rose};
ghost use Rattle.disk_model.specs.Moments.{AddsOnly};
ghost use Rattle.disk_model.specs.Told.{InEachWorld};
ghost use Rattle.disk_model.specs.Marks.{GoesOn};
ghost use Rattle.map_model.specs.World.{DraftsAside};
ghost use Rattle.pool_state.specs.Books.{block_books};
ghost use Rattle.pool_state.specs.Foreign.{LeavesForeign};
ghost use Rattle.pool_state.specs.Rooms.{choosing_of};
ghost use Rattle.pool_open.specs.Numbering.{ChoosesAnew, first_revision};
ghost use Rattle.pool_open.specs.Remaining.{Remains};
ghost use Rattle.pool_open.specs.Outcome.{disks_of, Opens, ReadsAsOne};

use crate::clearing::clear_places;
use crate::preparing::prepare;
use disk_model::{DiskError, Failed, PoolDisks};
use pool_state::{Pool, ReplicaMap};
use std::alloc::Global;

/// Why a pool was not opened. The disks are given back.
#[derive(Drop)]
pub enum OpenFault<D: Drop> {
    /// A call of the disks failed.
    Failed(D),
    /// There was no memory. Nothing was changed.
    Memory(D),
}

/// Why a pool was not opened again.
#[derive(Clone, Copy, Debug, PartialEq, Eq)]
pub enum ReopenFault {
    /// A call of the disks failed.
    Failed,
    /// There was no memory. Nothing was changed.
    Memory,
}

/// Opens the pool of these disks, which may use so many bytes on each volume, as `reopen_pool` does. Its revisions begin
/// with the first one.
pub fn open_pool<D: PoolDisks>(
    alloc: Global,
    disks: D,
    shares: Vec<u64>,
    first_rev: u64,
) -> Result<Pool<D>, OpenFault<D>>
    requires aside { InEachWorld (D.worlds disks) DraftsAside }
    requires some_volume { 1 ≤ D.volume_count disks }
    requires shares { length shares.items ≡ D.volume_count disks }
    requires revisions { first_rev ≤ 2 ^ 63 }
    ensures choosing { IfOk result (λ pool. ChoosesAnew shares.items first_rev (block_books pool.map) (choosing_of pool)) }
    ensures opened { IfOk result (λ pool. Opens (D.worlds disks) (D.worlds pool.disks) (D.volume_count pool.disks)
        (block_books pool.map) (D.left_since disks) (D.left_since pool.disks)) }
    ensures images { AddsOnly (D.left_since disks) (D.left_since (disks_of result)) (ReadsAsOne (D.worlds disks)) }
    ensures goes_on { GoesOn D.PoolDisks disks (disks_of result) }
    ensures foreign { LeavesForeign D.PoolDisks disks (disks_of result) }
    ensures failed { (d : _) → result ≡ Err (OpenFault.Failed d) → Rose (D.faults disks) (D.faults d) }
    ensures memory { (d : _) → result ≡ Err (OpenFault.Memory d) → Remains (D.worlds disks) (D.worlds d) }
{
    let mut pool = Pool {
        disks,
        map: ReplicaMap::make(alloc),
        shares,
        next_rev: first_rev,
        pointer: 1,
    };
    match reopen_pool(alloc, &mut pool) {
        Ok(()) => Ok(pool),
        Err(ReopenFault::Failed) => Err(OpenFault::Failed(pool.disks)),
        Err(ReopenFault::Memory) => Err(OpenFault::Memory(pool.disks)),
    }
}

/// Opens a pool again, whatever its books say and whichever drafts stand: no writer of it is owned any more. It lists each
/// directory of the pool on each volume once, and asks the size of each block file that counts, by ascending ids. A block
/// file with its meta on the same volume is a copy, of any length; of several metas beside it the greatest stamp counts, but
/// where the block has a file `current/rbw/blk_<id>` on the volume, the one below it; of several copies of a block the one with the greatest
/// stamp is the replica, else the longest, else the one on the lowest volume. Where a block has no copy, its block files
/// without a meta and those under `current/rbw` wait to be deleted, and so do the metas under `current/rbw` beside the
/// latter. Then it removes the metas beside a block file that don't count, first those with smaller stamps, then those with
/// greater ones; every name in `tmp`; the other copies, of each the block file first; the files under `current/rbw`
/// of each replica, and its block files without a meta; and the metas without a block file. Names that aren't those of block
/// files or of meta files stay, outside `tmp`. All memory is taken before the first removal; it stops at the first call that
/// fails. The entries have revisions in ascending id, from the pool's next one on, or from 2^63 on where that is less, and the
/// choice of volumes begins with volume 1. After an `Err` the books say nothing of the disks: the pool is to be closed, or opened once more.
pub fn reopen_pool<D: PoolDisks>(alloc: Global, pool: &mut Pool<D>) -> Result<(), ReopenFault>
    requires aside { InEachWorld (D.worlds pool.old.disks) DraftsAside }
    ensures choosing { OnOk result (ChoosesAnew pool.old.shares.items (first_revision pool.old.next_rev) (block_books pool.new.map) (choosing_of pool.new)) }
    ensures opened { OnOk result (Opens (D.worlds pool.old.disks) (D.worlds pool.new.disks) (D.volume_count pool.new.disks)
        (block_books pool.new.map) (D.left_since pool.old.disks) (D.left_since pool.new.disks)) }
    ensures images { AddsOnly (D.left_since pool.old.disks) (D.left_since pool.new.disks) (ReadsAsOne (D.worlds pool.old.disks)) }
    ensures goes_on { GoesOn D.PoolDisks pool.old.disks pool.new.disks }
    ensures foreign { LeavesForeign D.PoolDisks pool.old.disks pool.new.disks }
    ensures failed { IsErrOf result ReopenFault.Failed → Rose (D.faults pool.old.disks) (D.faults pool.new.disks) }
    ensures memory { IsErrOf result ReopenFault.Memory → Remains (D.worlds pool.old.disks) (D.worlds pool.new.disks) }
{
    let first_rev = pool.next_rev.min(1 << 63);
    let prepared = match prepare(alloc, &mut pool.disks, first_rev) {
        Ok(prepared) => prepared,
        Err(DiskError::Failed) => return Err(ReopenFault::Failed),
        Err(DiskError::Memory) => return Err(ReopenFault::Memory),
    };
    if let Err(Failed) = clear_places(&mut pool.disks, &prepared.surplus) {
        return Err(ReopenFault::Failed);
    }
    match clear_places(&mut pool.disks, &prepared.places) {
        Ok(()) => {
            pool.map = prepared.map;
            pool.next_rev = prepared.next_rev;
            pool.pointer = 1;
            Ok(())
        }
        Err(Failed) => Err(ReopenFault::Failed),
    }
}
