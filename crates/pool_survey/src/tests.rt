//! Surveys of disks in memory.
ghost use Rattle.std.specs.Prelude.{◌≡◌, ◌≤◌, codes, OnOk};
ghost use Rattle.disk_model.specs.Told.{NoDraftAt};

use super::*;
use disk_model::{DiskError, Draft, Failed, PoolDisks};
use mem_disks::MemDisks;
use std::alloc::{AllocError, Global};
use std::test::Fail;
use volume_layout::Stamp;

// Puts an empty file at a path of volume 2.
fn put_file<D: PoolDisks>(alloc: Global, disks: &mut D, path: &str) -> Result<(), DiskError>
    requires volumes { D.volume_count disks.old ≡ 2 }
    requires free { NoDraftAt (D.worlds disks.old) 2 (codes "tmp/draft") }
    ensures volumes { D.volume_count disks.new ≡ 2 }
    ensures free { OnOk result (NoDraftAt (D.worlds disks.new) 2 (codes "tmp/draft")) }
{
    let draft = disks.create(alloc, 2, "tmp/draft")?;
    let sealed = match draft.seal() {
        Ok(sealed) => sealed,
        Err(_) => return Err(DiskError::Failed),
    };
    match disks.publish(sealed, path) {
        Ok(()) => Ok(()),
        Err(Failed) => Err(DiskError::Failed),
    }
}

// Puts an empty file at each of these paths of volume 2.
fn put_files<D: PoolDisks>(alloc: Global, disks: &mut D, paths: &[&str]) -> Result<(), DiskError>
    requires volumes { D.volume_count disks.old ≡ 2 }
    requires free { NoDraftAt (D.worlds disks.old) 2 (codes "tmp/draft") }
    ensures volumes { D.volume_count disks.new ≡ 2 }
{
    for path in paths {
        put_file(alloc, disks, path)?;
    }
    Ok(())
}

// How many stamps there are, and the greatest.
fn summary(stamps: &[Stamp]) -> (usize, u64) {
    let mut greatest = 0;
    for stamp in stamps {
        greatest = greatest.max(stamp.get());
    }
    (stamps.len(), greatest)
}

/// What was found of a block: its files, and how many metas with which greatest stamp.
type Row = (bool, (usize, u64), bool, (usize, u64));

// What these files are.
fn row_of(files: &FoundFiles) -> Row {
    (
        files.block,
        summary(&files.metas),
        files.writing,
        summary(&files.writing_metas),
    )
}

// What a survey found of a block.
fn row(survey: &Survey, id: u64) -> Option<Row> {
    Some(row_of(survey.blocks.get(&id)?))
}

// The volume of a place of a block, by the place's index, and what a survey found there.
fn place(survey: &PoolSurvey, id: u64, i: usize) -> Option<(u8, Row)> {
    let on = survey.blocks.get(&id)?.get(i)?;
    Some((on.vol, row_of(&on.files)))
}

// Puts an empty file at each of these paths of a volume.
fn fill(disks: &mut MemDisks, vol: u8, paths: &[&str]) -> Result<(), AllocError>
    requires low { 1 ≤ vol }
    requires high { vol ≤ ⟦<MemDisks as PoolDisks>⟧.volume_count disks.old }
    ensures volumes { ⟦<MemDisks as PoolDisks>⟧.volume_count disks.new ≡ ⟦<MemDisks as PoolDisks>⟧.volume_count disks.old }
{
    for path in paths {
        disks.put(vol, path, &[])?;
    }
    Ok(())
}

// Puts an empty file at a path of the volumes 1 to this one.
fn fill_each(disks: &mut MemDisks, volumes: u8, path: &str) -> Result<(), AllocError>
    requires volumes { ⟦<MemDisks as PoolDisks>⟧.volume_count disks.old ≡ volumes }
    ensures volumes { ⟦<MemDisks as PoolDisks>⟧.volume_count disks.new ≡ volumes }
{
    for i in 0..volumes {
        disks.put(i + 1, path, &[])?;
    }
    Ok(())
}

#[test]
fn files_are_found_where_they_belong(rt: HostRuntime) -> Result<(), Fail> {
    let alloc = rt.alloc();
    let mut disks = MemDisks::empty(alloc, 2)?;
    let put = put_files(
        alloc,
        &mut disks,
        &[
            "current/finalized/subdir0/subdir0/blk_5",
            "current/finalized/subdir0/subdir0/blk_5_1001.meta",
            "current/finalized/subdir0/subdir0/blk_5_999.meta",
            // the block's own directory is another one
            "current/finalized/subdir0/subdir1/blk_5_1002.meta",
            "current/finalized/subdir0/subdir1/blk_7",
            "current/finalized/subdir31/subdir31/blk_2039552_8.meta",
            "current/finalized/subdir32/subdir0/blk_8",
            "current/finalized/blk_8",
            "current/rbw/blk_5",
            "current/rbw/blk_6_1003.meta",
            "current/rbw/blk_6.meta",
            "current/rbw/blk_07",
            "tmp/scanner.cursor.tmp",
            "tmp/blk_9_1.meta",
        ],
    );
    assert_eq!(rt; put, Ok(()));
    let Ok(empty) = survey_volume(alloc, &mut disks, 1) else {
        assert!(rt; false);
        return Ok(());
    };
    assert_eq!(rt; empty.blocks.len(), 0);
    assert_eq!(rt; empty.temporary.len(), 0);
    let Ok(survey) = survey_volume(alloc, &mut disks, 2) else {
        assert!(rt; false);
        return Ok(());
    };
    assert_eq!(rt; survey.blocks.len(), 3);
    for (id, expected) in [
        (5, Some((true, (2, 1001), true, (0, 0)))),
        (6, Some((false, (0, 0), false, (1, 1003)))),
        (2_039_552, Some((false, (1, 8), false, (0, 0)))),
        (7, None),
        (8, None),
        (9, None),
    ] {
        assert_eq!(rt; row(&survey, id), expected, "of block {id}");
    }
    assert_eq!(rt; survey.temporary.len(), 2);
    if survey.temporary.len() == 2 {
        assert_eq!(rt; survey.temporary.get(0), "blk_9_1.meta");
        assert_eq!(rt; survey.temporary.get(1), "scanner.cursor.tmp");
    }
    Ok(())
}

#[test]
fn blocks_are_gathered_over_the_volumes(rt: HostRuntime) -> Result<(), Fail> {
    let alloc = rt.alloc();
    let mut disks = MemDisks::empty(alloc, 2)?;
    let first = [
        "current/finalized/subdir0/subdir0/blk_5",
        "current/finalized/subdir0/subdir0/blk_5_1001.meta",
        "tmp/blk_9_1.meta",
    ];
    fill(&mut disks, 1, &first)?;
    let second = [
        "current/finalized/subdir0/subdir0/blk_6",
        "current/rbw/blk_5",
        "current/rbw/blk_5_1002.meta",
    ];
    fill(&mut disks, 2, &second)?;
    let Ok(survey) = survey_pool(alloc, &mut disks) else {
        assert!(rt; false);
        return Ok(());
    };
    assert_eq!(rt; survey.blocks.len(), 2);
    for (id, i, expected) in [
        (5, 0, Some((1, (true, (1, 1001), false, (0, 0))))),
        (5, 1, Some((2, (false, (0, 0), true, (1, 1002))))),
        (5, 2, None),
        (6, 0, Some((2, (true, (0, 0), false, (0, 0))))),
        (6, 1, None),
        (9, 0, None),
    ] {
        assert_eq!(rt;
            place(&survey, id, i),
            expected,
            "of place {i} of block {id}"
        );
    }
    assert_eq!(rt; survey.temporary.len(), 2);
    if survey.temporary.len() == 2 {
        assert_eq!(rt; survey.temporary[0].len(), 1);
        assert_eq!(rt; survey.temporary[1].len(), 0);
    }
    Ok(())
}

#[test]
fn a_block_is_found_on_every_volume(rt: HostRuntime) -> Result<(), Fail> {
    let alloc = rt.alloc();
    let mut disks = MemDisks::empty(alloc, 64)?;
    fill_each(&mut disks, 64, "current/rbw/blk_7")?;
    let Ok(survey) = survey_pool(alloc, &mut disks) else {
        assert!(rt; false);
        return Ok(());
    };
    assert_eq!(rt; survey.blocks.len(), 1);
    for i in 0..64 {
        let expected = Some((i + 1, (false, (0, 0), true, (0, 0))));
        assert_eq!(rt; place(&survey, 7, i as usize), expected, "of place {i}");
    }
    assert!(rt; place(&survey, 7, 64).is_none());
    assert_eq!(rt; survey.temporary.len(), 64);
    Ok(())
}
