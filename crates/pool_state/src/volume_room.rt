//! How much room a pool has.
ghost use Rattle.std.specs.Prelude.{◌≡◌, ◌≢◌, ◌≤◌, ◌<◌, ◌^◌, ◌-◌, None, IfSome, option_map, drop, length};
ghost use Rattle.map_model.specs.Cells.{absent};
ghost use Rattle.map_model.specs.Steps.{write_refusal};
ghost use Rattle.replica_map.specs.Books.{used};
ghost use Rattle.pool_state.specs.Answers.{start_fault};
ghost use Rattle.pool_state.specs.Rooms.{most_free, first_fitting, volume_after, room_of, volume_for};
ghost use Rattle.pool_state.specs.Volumes.{IsVolume};

use crate::pool_record::Pool;
use crate::start_fault::StartFault;
use disk_model::PoolDisks;

/// The most bytes of a block: 128 MiB, the block size that HDFS has where none is configured.
pub const MOST_LENGTH: u64 = 134_217_728;

/// From this revision on none is drawn.
const REVISIONS_END: u64 = 1 << 63;

/// The free bytes of a volume of which so many are used.
fn free_of(share: u64, used: u128) -> u64
    ensures { result ≡ share - used }
{
    if used >= u128::from(share) {
        0
    } else {
        share - used as u64
    }
}

impl<D: PoolDisks> Pool<D> {
    /// The free bytes of the volume that has most.
    fn most_free(&self) -> u64
        ensures { result ≡ most_free (λ vol. used vol self.now.map) 1 self.now.shares.items }
    {
        let mut most = 0;
        for i in 0..self.disks.volumes() {
            let free = free_of(self.shares[i as usize], self.map.used(i + 1));
            if free > most {
                most = free;
            }
        }
        most
    }

    /// Why a fresh replica of `need` bytes is refused for its length, the room or want of a revision; none where it fits.
    pub(crate) fn room_refusal(&self, need: u64) -> Option<StartFault>
        ensures value { option_map start_fault result ≡ write_refusal (room_of self.now) absent need }
        ensures not_a_fault { IfSome result (λ fault. (fault ≢ StartFault.Failed) × (fault ≢ StartFault.Memory)) }
        ensures not_worn { result ≡ None → self.now.next_rev < 2 ^ 63 }
    {
        if need > MOST_LENGTH {
            return Some(StartFault::TooLong { limit: MOST_LENGTH });
        }
        let free = self.most_free();
        if need > free {
            return Some(StartFault::Full { need, free });
        }
        if self.next_rev >= REVISIONS_END {
            return Some(StartFault::Worn);
        }
        None
    }

    /// The first of the volumes from this one on that has so many bytes free.
    fn first_fitting(&self, from: u8, need: u64) -> Option<u8>
        requires low { 1 ≤ from }
        ensures { result ≡ first_fitting (λ vol. used vol self.now.map) need from (drop (from - 1) self.now.shares.items) }
    {
        for i in from - 1..self.disks.volumes() {
            if need <= free_of(self.shares[i as usize], self.map.used(i + 1)) {
                return Some(i + 1);
            }
        }
        None
    }

    /// The volume of a fresh replica of so many bytes: from the pointer on, in a circle, the first that has them free.
    pub(crate) fn choose_volume(&self, need: u64) -> u8
        requires fits { write_refusal (room_of self.now) absent need ≡ None }
        ensures value { result ≡ volume_for self.now need }
        ensures placed { IsVolume (D.volume_count self.now.disks) result }
    {
        if let Some(vol) = self.first_fitting(self.pointer, need) {
            return vol;
        }
        match self.first_fitting(1, need) {
            Some(vol) => vol,
            None => unreachable!(),
        }
    }

    /// The volume behind this one, in a circle.
    pub(crate) fn volume_after(&self, vol: u8) -> u8
        requires placed { IsVolume (D.volume_count self.now.disks) vol }
        ensures value { result ≡ volume_after vol (length self.now.shares.items) }
        ensures placed { IsVolume (D.volume_count self.now.disks) result }
    {
        if vol == self.disks.volumes() {
            1
        } else {
            vol + 1
        }
    }
}
