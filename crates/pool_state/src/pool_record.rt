//! What a pool keeps.
ghost use Rattle.std.specs.Prelude.{◌≡◌, ◌≤◌, [], length};
ghost use Rattle.pool_state.specs.Books.{HasRoom};
ghost use Rattle.pool_state.specs.Volumes.{IsVolume};

use disk_model::PoolDisks;
use replica_map::ReplicaMap;

/// A pool: its disks, its books, in which there is always room for what the open writers may leave, and what it chooses
/// volumes and revisions by.
#[derive(Drop)]
pub struct Pool<D: PoolDisks> {
    pub disks: D,
    pub map: ReplicaMap,
    /// The bytes that the pool may use on each volume, by the volumes' numbers.
    pub shares: Vec<u64>,
    /// The revision that the next entry gets.
    pub next_rev: u64,
    /// The volume from which the next choice goes on.
    pub pointer: u8,
    pub ghost some_volume: { 1 ≤ D.volume_count disks },
    pub ghost room: { HasRoom map },
    pub ghost no_moves: { map.tickets ≡ [] },
    pub ghost shared: { length shares.items ≡ D.volume_count disks },
    pub ghost pointed: { IsVolume (D.volume_count disks) pointer },
}
