//! The survey of a volume.
ghost use Rattle.std.specs.Prelude.{◌≡◌, ◌≤◌, ◌<◌, ◌↔◌, IfOk, OnOk, IsSome, IsErrOf};
ghost use Rattle.disk_model.specs.Causes.{HasCause, Rose};
ghost use Rattle.disk_model.specs.Moments.{Elapses};
ghost use Rattle.disk_model.specs.Told.{CanLeave, InEachWorld, PicksOne};
ghost use Rattle.disk_model.specs.Looking.{TellOne, HaveLooked};
ghost use Rattle.pool_survey.specs.Exact.{IsSurveyOf};
ghost use Rattle.pool_survey.specs.Found.{AreBlocks};
ghost use Rattle.pool_survey.specs.Regions.{NoneFound, AreExact, AreSameOutside, in_row, in_finalised};
ghost use Rattle.pool_survey.specs.Remaining.{Remains};

use crate::found::FoundFiles;
use crate::listing::add_names;
use crate::naming::Directory;
use disk_model::{DiskError, Names, PoolDisks};
use std::alloc::Global;
use std::collections::BTreeMap;
use volume_layout::{RBW_DIR, TMP_DIR, dir_path};

/// How many directories of finalised files stand in one directory, and how many of those there are.
const FAN_OUT: u8 = 32;

/// What stands in the directories of a volume.
#[derive(Drop)]
pub struct Survey {
    /// The blocks of which a file stands, by their ids.
    pub blocks: BTreeMap<u64, FoundFiles>,
    /// The names in `tmp`, whatever they are.
    pub temporary: Names,
}

/// Adds the files in the directories of finalised files with this first number.
fn survey_row<D: PoolDisks>(
    alloc: Global,
    disks: &mut D,
    vol: u8,
    d1: u8,
    blocks: &mut BTreeMap<u64, FoundFiles>,
) -> Result<(), DiskError>
    requires low { 1 ≤ vol }
    requires high { vol ≤ D.volume_count disks.old }
    requires one { TellOne (D.worlds disks.old) }
    requires blocks { AreBlocks blocks.old }
    requires fresh { NoneFound (in_row d1) blocks.old }
    ensures blocks { OnOk result (AreBlocks blocks.new) }
    ensures exact { OnOk result (InEachWorld (D.worlds disks.new) (λ world. AreExact (in_row d1) world vol blocks.new)) }
    ensures others { OnOk result (AreSameOutside (in_row d1) blocks.old blocks.new) }
    ensures looked { HaveLooked D.PoolDisks disks.old disks.new }
    ensures failed { IsErrOf result DiskError.Failed → Rose (D.faults disks.old) (D.faults disks.new) }
{
    for d2 in 0..FAN_OUT {
        let names = disks.list(alloc, vol, dir_path(d1, d2).as_str())?;
        add_names(alloc, blocks, Directory::Finalised(d1, d2), &names)?;
    }
    Ok(())
}

/// Adds the files in the directories of finalised files.
fn survey_finalised<D: PoolDisks>(
    alloc: Global,
    disks: &mut D,
    vol: u8,
    blocks: &mut BTreeMap<u64, FoundFiles>,
) -> Result<(), DiskError>
    requires low { 1 ≤ vol }
    requires high { vol ≤ D.volume_count disks.old }
    requires one { TellOne (D.worlds disks.old) }
    requires blocks { AreBlocks blocks.old }
    requires fresh { NoneFound in_finalised blocks.old }
    ensures blocks { OnOk result (AreBlocks blocks.new) }
    ensures exact { OnOk result (InEachWorld (D.worlds disks.new) (λ world. AreExact in_finalised world vol blocks.new)) }
    ensures others { OnOk result (AreSameOutside in_finalised blocks.old blocks.new) }
    ensures looked { HaveLooked D.PoolDisks disks.old disks.new }
    ensures failed { IsErrOf result DiskError.Failed → Rose (D.faults disks.old) (D.faults disks.new) }
{
    for d1 in 0..FAN_OUT {
        survey_row(alloc, disks, vol, d1, blocks)?;
    }
    Ok(())
}

/// Lists each directory of a volume once: `current/rbw`, `tmp`, then those of finalised files by their two numbers, 0
/// to 31 each. It makes no other call of the disks, and stops at the first that fails. Other names than those of block
/// files and meta files, and finalised files in another directory than their block's own, don't matter outside `tmp`.
pub fn survey_volume<D: PoolDisks>(
    alloc: Global,
    disks: &mut D,
    vol: u8,
) -> Result<Survey, DiskError>
    requires low { 1 ≤ vol }
    requires high { vol ≤ D.volume_count disks.old }
    ensures ok { IfOk result (λ survey. PicksOne (λ world. IsSurveyOf world vol survey) (λ world. world)
        (D.worlds disks.old) (D.worlds disks.new)) }
    ensures blocks { IfOk result (λ survey. AreBlocks survey.blocks) }
    ensures looks { Remains (D.worlds disks.old) (D.worlds disks.new) }
    ensures honest { IsSome (D.worlds disks.old) ↔ IsSome (D.worlds disks.new) }
    ensures time { Elapses (D.moment disks.old) (D.moment disks.new)
        (D.left_since disks.old) (D.left_since disks.new) (CanLeave (D.worlds disks.new)) }
    ensures cause { HasCause (D.faults disks.old) (D.faults disks.new) (IsErrOf result DiskError.Failed) }
    ensures absences { D.absences disks.old ≤ D.absences disks.new }
    ensures numbers { D.next_number disks.new ≡ D.next_number disks.old }
    ensures volumes { D.volume_count disks.new ≡ D.volume_count disks.old }
{
    let mut blocks = BTreeMap::new(alloc);
    let writing = disks.list(alloc, vol, RBW_DIR)?;
    add_names(alloc, &mut blocks, Directory::Writing, &writing)?;
    let temporary = disks.list(alloc, vol, TMP_DIR)?;
    survey_finalised(alloc, disks, vol, &mut blocks)?;
    Ok(Survey { blocks, temporary })
}
