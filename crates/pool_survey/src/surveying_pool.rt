//! The survey of all volumes of a pool.
ghost use Rattle.std.specs.Prelude.{◌≡◌, ◌≤◌, ◌↔◌, IfOk, IsSome, IsErrOf, length};
ghost use Rattle.disk_model.specs.Causes.{HasCause};
ghost use Rattle.disk_model.specs.Moments.{Elapses};
ghost use Rattle.disk_model.specs.Told.{CanLeave, PicksOne};
ghost use Rattle.pool_survey.specs.Places.{ArePoolBlocks, IsPoolSurveyOf};
ghost use Rattle.pool_survey.specs.Remaining.{Remains};

use crate::places::{FoundOn, merge};
use crate::surveying::survey_volume;
use disk_model::{DiskError, Names, PoolDisks};
use std::alloc::Global;
use std::collections::BTreeMap;

/// What stands in the directories of a pool's volumes.
#[derive(Drop)]
pub struct PoolSurvey {
    /// The blocks of which a file stands, by their ids, each with the volumes on which one does, in ascending order.
    pub blocks: BTreeMap<u64, Vec<FoundOn>>,
    /// The names in `tmp` of each volume, whatever they are, from volume 1 on.
    pub temporary: Vec<Names>,
}

/// Lists each directory of each volume once, as [`survey_volume`] does, from volume 1 on and each volume whole before the
/// next. But for their number it asks nothing else of the disks, and it stops at the first call that fails.
pub fn survey_pool<D: PoolDisks>(alloc: Global, disks: &mut D) -> Result<PoolSurvey, DiskError>
    ensures ok { IfOk result (λ survey. PicksOne (λ world. IsPoolSurveyOf world (D.volume_count disks.old) survey) (λ world. world)
        (D.worlds disks.old) (D.worlds disks.new)) }
    ensures blocks { IfOk result (λ survey. ArePoolBlocks (D.volume_count disks.old) survey.blocks) }
    ensures counted { IfOk result (λ survey. length survey.temporary.items ≡ D.volume_count disks.old) }
    ensures limit { IfOk result (λ survey. (1 ≤ length survey.temporary.items) × (length survey.temporary.items ≤ 64)) }
    ensures looks { Remains (D.worlds disks.old) (D.worlds disks.new) }
    ensures honest { IsSome (D.worlds disks.old) ↔ IsSome (D.worlds disks.new) }
    ensures time { Elapses (D.moment disks.old) (D.moment disks.new)
        (D.left_since disks.old) (D.left_since disks.new) (CanLeave (D.worlds disks.new)) }
    ensures cause { HasCause (D.faults disks.old) (D.faults disks.new) (IsErrOf result DiskError.Failed) }
    ensures absences { D.absences disks.old ≤ D.absences disks.new }
    ensures numbers { D.next_number disks.new ≡ D.next_number disks.old }
    ensures volumes { D.volume_count disks.new ≡ D.volume_count disks.old }
{
    let volumes = disks.volumes();
    let mut blocks = BTreeMap::new(alloc);
    let mut temporary = Vec::with_capacity(alloc, volumes as usize)?;
    for i in 0..volumes {
        let vol = i + 1;
        let survey = survey_volume(alloc, disks, vol)?;
        merge(alloc, &mut blocks, vol, survey.blocks)?;
        temporary.push(survey.temporary)?;
    }
    Ok(PoolSurvey { blocks, temporary })
}
