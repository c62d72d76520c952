//! Openings of disks in memory.
ghost use Rattle.std.specs.Prelude.{◌≡◌, codes, OnOk};
ghost use Rattle.disk_model.specs.Told.{InEachWorld, NoDraftAt};
ghost use Rattle.map_model.specs.World.{DraftsAside};

use super::*;
use disk_model::{DiskError, Draft, Failed, PoolDisks};
use mem_disks::MemDisks;
use std::alloc::Global;
use std::process::Abort;
use std::test::Fail;

/// What an opening answered.
#[derive(Clone, Copy, Debug, PartialEq, Eq)]
enum Answer {
    /// A pool with so many entries, and so many leftovers.
    Opened(usize, usize),
    Failed,
    Memory,
}

use Answer::Opened;

// Puts an empty file at a path of volume 1.
fn put_file<D: PoolDisks>(alloc: Global, disks: &mut D, path: &str) -> Result<(), DiskError>
    requires one_volume { D.volume_count disks.old ≡ 1 }
    requires free { NoDraftAt (D.worlds disks.old) 1 (codes "tmp/draft") }
    requires aside { InEachWorld (D.worlds disks.old) DraftsAside }
    ensures one_volume { D.volume_count disks.new ≡ 1 }
    ensures aside { OnOk result (InEachWorld (D.worlds disks.new) DraftsAside) }
{
    let draft = disks.create(alloc, 1, "tmp/draft")?;
    let sealed = match draft.seal() {
        Ok(sealed) => sealed,
        Err(_) => return Err(DiskError::Failed),
    };
    match disks.publish(sealed, path) {
        Ok(()) => Ok(()),
        Err(Failed) => Err(DiskError::Failed),
    }
}

// What the opening of these disks answers.
fn opened<D: PoolDisks>(alloc: Global, disks: D) -> Answer
    requires aside { InEachWorld (D.worlds disks) DraftsAside }
    requires one_volume { D.volume_count disks ≡ 1 }
{
    let Ok(shares) = vec![in alloc; 1 << 50] else {
        return Answer::Memory;
    };
    match open_pool(alloc, disks, shares, 1) {
        Ok(pool) => Opened(pool.map.entry_count(), pool.map.leftover_count()),
        Err(OpenFault::Failed(_)) => Answer::Failed,
        Err(OpenFault::Memory(_)) => Answer::Memory,
    }
}

// What the opening of disks with this one file answers.
fn opened_with(alloc: Global, path: &str) -> Result<Answer, DiskError> {
    let mut disks = MemDisks::empty(alloc, 1)?;
    put_file(alloc, &mut disks, path)?;
    Ok(opened(alloc, disks))
}

#[test]
fn a_block_file_waits_and_a_meta_alone_goes(rt: HostRuntime) -> Result<(), Fail> {
    let alloc = rt.alloc();
    assert_eq!(rt; opened(alloc, MemDisks::empty(alloc, 1)?), Opened(0, 0));
    for (path, answer) in [
        ("current/rbw/blk_5", Opened(1, 1)),
        ("current/finalized/subdir0/subdir0/blk_5", Opened(1, 1)),
        (
            "current/finalized/subdir0/subdir0/blk_5_1001.meta",
            Opened(0, 0),
        ),
        ("current/rbw/blk_5_1001.meta", Opened(0, 0)),
        ("tmp/blk_5", Opened(0, 0)),
        // the block's own directory is another one
        ("current/finalized/subdir31/subdir31/blk_5", Opened(0, 0)),
        ("current/rbw/junk", Opened(0, 0)),
    ] {
        assert_eq!(rt; opened_with(alloc, path), Ok(answer), "at {path}");
    }
    Ok(())
}
