//! What an opening looks up and reserves before it removes anything.
ghost use Rattle.std.specs.Prelude.{IfOk, IsErrOf};
ghost use Rattle.disk_model.specs.Causes.{Rose};
ghost use Rattle.disk_model.specs.Told.{InEachWorld};
ghost use Rattle.map_model.specs.World.{DraftsAside};
ghost use Rattle.pool_open.specs.Looking.{OnlyLooks};
ghost use Rattle.pool_open.specs.Prepared.{IsPrepared};

use crate::books::make_books;
use crate::clearing::VolumePath;
use crate::metas::{bring_down, list_surplus};
use crate::paths::list_places;
use disk_model::{DiskError, PoolDisks};
use pool_state::ReplicaMap;
use pool_survey::{PoolSurvey, survey_pool};
use std::alloc::Global;

/// What an opening will be, and what it removes, in this order.
#[derive(Drop)]
pub struct Prepared {
    /// The books.
    pub map: ReplicaMap,
    /// The next revision that the pool draws.
    pub next_rev: u64,
    /// The metas beside a block file that don't count.
    pub surplus: Vec<VolumePath>,
    /// What else has to go.
    pub places: Vec<VolumePath>,
}

/// Surveys the disks and makes the books of what was found, with revisions from this one on.
pub fn prepare<D: PoolDisks>(
    alloc: Global,
    disks: &mut D,
    first_rev: u64,
) -> Result<Prepared, DiskError>
    requires aside { InEachWorld (D.worlds disks.old) DraftsAside }
    ensures prepared { IfOk result (IsPrepared (D.worlds disks.old) (D.worlds disks.new)
        (D.left_since disks.old) (D.left_since disks.new) (D.volume_count disks.old) first_rev) }
    ensures looks { OnlyLooks D.PoolDisks disks.old disks.new }
    ensures failed { IsErrOf result DiskError.Failed → Rose (D.faults disks.old) (D.faults disks.new) }
{
    let found = survey_pool(alloc, disks)?;
    let surplus = list_surplus(alloc, &found.blocks)?;
    let table = PoolSurvey {
        blocks: bring_down(alloc, found.blocks)?,
        temporary: found.temporary,
    };
    let map = make_books(alloc, disks, &table.blocks, first_rev)?;
    let Some(next_rev) = first_rev.checked_add(map.entry_count() as u64) else {
        return Err(DiskError::Memory);
    };
    let places = list_places(alloc, &table, &map)?;
    Ok(Prepared {
        map,
        next_rev,
        surplus,
        places,
    })
}
