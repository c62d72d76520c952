//! Removing what stands at some places.
ghost use Rattle.std.specs.Prelude.{IsErr, OnOk};
ghost use Rattle.disk_model.specs.Causes.{Rose};
ghost use Rattle.disk_model.specs.Moments.{AddsOnly};
ghost use Rattle.disk_model.specs.Told.{InEachWorld};
ghost use Rattle.disk_model.specs.Marks.{GoesOn};
ghost use Rattle.pool_state.specs.Foreign.{LeavesForeign};
ghost use Rattle.pool_open.specs.Plan.{places_at};
ghost use Rattle.pool_open.specs.Clearing.{AreOnVolumes, ComesAllCleared, ComesInOrder, LeftInOrder};
ghost use Rattle.pool_open.specs.Ours.{AreOurs};

use disk_model::{Failed, PoolDisks};

/// A path on a volume.
#[derive(Drop)]
pub struct VolumePath {
    /// The volume, from 1.
    pub vol: u8,
    pub path: String,
}

/// Removes what stands at these places, one after the other, up to the first removal that fails.
pub fn clear_places<D: PoolDisks>(disks: &mut D, places: &[VolumePath]) -> Result<(), Failed>
    requires on_volumes { AreOnVolumes (D.volume_count disks.old) (places_at places.now) }
    requires ours { AreOurs (places_at places.now) }
    ensures in_order { InEachWorld (D.worlds disks.new) (ComesInOrder (places_at places.now) (D.worlds disks.old)) }
    ensures all { OnOk result (InEachWorld (D.worlds disks.new) (ComesAllCleared (places_at places.now) (D.worlds disks.old))) }
    ensures images { AddsOnly (D.left_since disks.old) (D.left_since disks.new) (LeftInOrder (places_at places.now) (D.worlds disks.old)) }
    ensures goes_on { GoesOn D.PoolDisks disks.old disks.new }
    ensures foreign { LeavesForeign D.PoolDisks disks.old disks.new }
    ensures failed { IsErr result → Rose (D.faults disks.old) (D.faults disks.new) }
{
    for at in 0..places.len() {
        disks.remove(places[at].vol, places[at].path.as_str())?;
    }
    Ok(())
}
