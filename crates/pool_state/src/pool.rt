//! A pool: its disks and its books.
ghost use Rattle.std.specs.Prelude.{◌≡◌, ◌≤◌, length};
ghost use Rattle.map_model.specs.Cells.{absent};
ghost use Rattle.map_model.specs.Sound.{Knowledge};
ghost use Rattle.pool_state.specs.Rooms.{choosing_of};
ghost use Rattle.pool_state.specs.Stands.{Stands, HoldNoBlock};

use crate::pool_record::Pool;
use disk_model::PoolDisks;
use replica_map::ReplicaMap;
use std::alloc::Global;

/// A pool without replicas, over disks that hold no file of a block. It takes no memory and makes no device call.
pub fn make_pool<D: PoolDisks>(alloc: Global, disks: D, shares: Vec<u64>, next_rev: u64) -> Pool<D>
    requires some_volume { 1 ≤ D.volume_count disks }
    requires shares { length shares.items ≡ D.volume_count disks }
    requires empty { HoldNoBlock (D.worlds disks) }
    ensures stands { (known : Knowledge) → Stands result known (λ id. absent) }
    ensures disks { result.disks ≡ disks }
    ensures choosing { choosing_of result ≡ record { shares = shares.items; next_rev = next_rev; pointer = 1 } }
{
    Pool {
        disks,
        map: ReplicaMap::make(alloc),
        shares,
        next_rev,
        pointer: 1,
    }
}

/// The disks of a pool. It makes no device call.
pub fn close_pool<D: PoolDisks>(pool: Pool<D>) -> D
    ensures { result ≡ pool.disks }
{
    pool.disks
}
