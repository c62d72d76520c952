//! What a pool tells a report of its volumes.
ghost use Rattle.std.specs.Prelude.{◌≡◌, ◌^◌, min};
ghost use Rattle.pool_state.specs.Books.{block_books};
ghost use Rattle.pool_state.specs.Reports.{ShowsVolume, AreLoose};
ghost use Rattle.pool_state.specs.Volumes.{IsVolume};

use crate::pool_record::Pool;
use density::{MOST_BYTES, VolumeUse};
use disk_model::PoolDisks;

impl<D: PoolDisks> Pool<D> {
    /// A volume as a report shows it: its share in bytes, what is used of it, but at most 2^54, and how many replicas it has.
    pub fn volume_use(&self, vol: u8) -> VolumeUse
        requires volume { IsVolume (D.volume_count self.now.disks) vol }
        ensures { ShowsVolume self.now.shares.items (block_books self.now.map) vol result }
    {
        self.map.uses_are_sums();
        self.map.counts_are_sums();
        VolumeUse {
            capacity: self.shares[vol as usize - 1],
            used: at_most(self.map.used(vol)),
            replicas: self.map.replicas(vol) as u64,
        }
    }

    /// How many leftovers aren't held: files that no block which waits holds.
    pub fn leftovers(&self) -> u64
        ensures { AreLoose (block_books self.now.map) result }
    {
        self.map.counts_are_sums();
        self.map.loose_count() as u64
    }
}

/// So many used bytes as a report shows.
fn at_most(used: u128) -> u64
    ensures { result ≡ min used (2 ^ 54) }
{
    used.min(u128::from(MOST_BYTES)) as u64
}
