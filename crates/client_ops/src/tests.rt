//! Reads of files in memory.
ghost use Rattle.std.specs.Prelude.{◌≡◌, ◌≤◌, [], OnOk};
ghost use Rattle.disk_model.specs.Told.{InEachWorld};

use super::*;
use disk_model::{DiskError, PoolDisks};
use mem_disks::{Call, FailRule, MemDisks};
use meta_file::{MetaFault, Verdict};
use pool_state::ReadPair;
use std::alloc::{AllocError, Global};
use std::process::Abort;
use std::test::Fail;
use volume_layout::Stamp;

// Puts a file on disks without drafts, or none.
fn put_file(disks: &mut MemDisks, path: &str, bytes: Option<&[u8]>) -> Result<(), AllocError>
    requires some { 1 ≤ ⟦<MemDisks as PoolDisks>⟧.volume_count disks.old }
    requires bare { InEachWorld (⟦<MemDisks as PoolDisks>⟧.worlds disks.old) (λ world. world.drafts ≡ []) }
    ensures volumes { ⟦<MemDisks as PoolDisks>⟧.volume_count disks.new ≡ ⟦<MemDisks as PoolDisks>⟧.volume_count disks.old }
    ensures bare { OnOk result (InEachWorld (⟦<MemDisks as PoolDisks>⟧.worlds disks.new) (λ world. world.drafts ≡ [])) }
{
    match bytes {
        Some(bytes) => match disks.put(1, path, bytes) {
            Ok(()) => Ok(()),
            Err(fault) => Err(fault),
        },
        None => Ok(()),
    }
}

// A block file and a meta file, each of which may be absent, that are read. The reads of one of the readers fail: those
// of the first or the second, by its number from 1, or of none at 0.
fn pair_of(
    alloc: Global,
    block: Option<&[u8]>,
    meta: Option<&[u8]>,
    len: u64,
    fails: u64,
) -> Result<Option<ReadPair<MemDisks>>, DiskError> {
    let Some(stamp) = Stamp::new(1001) else {
        return Ok(None);
    };
    let mut disks = MemDisks::empty(alloc, 1)?;
    put_file(&mut disks, "b", block)?;
    put_file(&mut disks, "m", meta)?;
    disks.fail(FailRule {
        call: Call::Read,
        nth: fails,
        forever: false,
    })?;
    Ok(Some(ReadPair {
        block: disks.lend_reader(alloc, 1, "b")?,
        meta: disks.lend_reader(alloc, 1, "m")?,
        stamp,
        len,
    }))
}

// What a read of nine bytes answers.
fn nine_read(
    alloc: Global,
    block: Option<&[u8]>,
    meta: Option<&[u8]>,
    fails: u64,
) -> Result<Result<Vec<u8>, ReadEnd>, DiskError> {
    let mut buf = vec![in alloc; 0u8; 4]?;
    match pair_of(alloc, block, meta, 9, fails)? {
        Some(pair) => Ok(read_all(alloc, pair, &mut buf)),
        None => Err(DiskError::Failed),
    }
}

#[test]
fn a_read_gives_what_its_meta_file_vouches_for(rt: HostRuntime) -> Result<(), Fail> {
    let alloc = rt.alloc();
    let block: &[u8] = b"123456789";
    let rows: [(Option<&[u8]>, Option<&[u8]>, Verdict); 14] = [
        (
            Some(block),
            Some(b"\x00\x01\x02\x00\x00\x02\x00\xe3\x06\x92\x83"),
            Verdict::Whole,
        ),
        (
            Some(block),
            Some(b"\x00\x01\x01\x00\x00\x02\x00\xcb\xf4\x39\x26"),
            Verdict::Whole,
        ),
        (
            Some(b"123456789x"),
            Some(b"\x00\x01\x00\x00\x00\x02\x00"),
            Verdict::Whole,
        ),
        (
            Some(block),
            Some(b"\x00\x01\x01\x00\x00\x02\x00\xe3\x06\x92\x83"),
            Verdict::BadChunk {
                chunk: 0,
                stored: 3_808_858_755,
                computed: 3_421_780_262,
            },
        ),
        (
            Some(block),
            Some(b"\x00\x01\x02"),
            Verdict::Meta(MetaFault::Short { have: 3 }),
        ),
        (
            Some(block),
            Some(b"\x00\x02\x02\x00\x00\x02\x00"),
            Verdict::Meta(MetaFault::Version { v: 2 }),
        ),
        (
            Some(block),
            Some(b"\x00\x01\x03\x00\x00\x02\x00"),
            Verdict::Meta(MetaFault::Kind { t: 3 }),
        ),
        (
            Some(block),
            Some(b"\x00\x01\x02\x00\x00\x00\x00"),
            Verdict::Meta(MetaFault::Step { n: 0 }),
        ),
        (
            Some(block),
            Some(b"\x00\x01\x02\x00\x00\x02\x00"),
            Verdict::Count { want: 4, have: 0 },
        ),
        (
            Some(block),
            Some(b"\x00\x01\x02\x00\x00\x02\x00\xe3\x06\x92\x83\x00"),
            Verdict::Count { want: 4, have: 5 },
        ),
        (
            Some(b"12345"),
            Some(b"\x00\x01\x00\x00\x00\x02\x00"),
            Verdict::Short { want: 9, have: 5 },
        ),
        (
            None,
            Some(b"\x00\x01\x00\x00\x00\x02\x00"),
            Verdict::Short { want: 9, have: 0 },
        ),
        (
            Some(block),
            None,
            Verdict::Meta(MetaFault::Short { have: 0 }),
        ),
        (None, None, Verdict::Meta(MetaFault::Short { have: 0 })),
    ];
    for (block, meta, want) in rows {
        let read = nine_read(alloc, block, meta, 0)?;
        match read {
            Ok(bytes) => {
                assert_eq!(rt; want, Verdict::Whole);
                assert_eq!(rt; bytes.as_slice(), b"123456789".as_slice());
            }
            Err(end) => assert_eq!(rt; end, ReadEnd::Bad(want)),
        }
    }
    Ok(())
}

#[test]
fn an_absent_block_file_is_read_as_one_without_bytes(rt: HostRuntime) -> Result<(), Fail> {
    let alloc = rt.alloc();
    let mut buf = [0u8; 4];
    let meta: &[u8] = b"\x00\x01\x00\x00\x00\x02\x00";
    let Some(pair) = pair_of(alloc, None, Some(meta), 0, 0)? else {
        panic!(rt; "no stamp");
    };
    let Ok(bytes) = read_all(alloc, pair, &mut buf) else {
        panic!(rt; "not read");
    };
    assert_eq!(rt; bytes.len(), 0);
    Ok(())
}

#[test]
fn a_read_fails_where_either_reader_fails(rt: HostRuntime) -> Result<(), Fail> {
    let alloc = rt.alloc();
    let block: &[u8] = b"123456789";
    let meta: &[u8] = b"\x00\x01\x02\x00\x00\x02\x00\xe3\x06\x92\x83";
    for reader in [1u64, 2] {
        let read = nine_read(alloc, Some(block), Some(meta), reader)?;
        assert_eq!(rt; read.err(), Some(ReadEnd::Failed));
    }
    assert!(rt; nine_read(alloc, Some(block), Some(meta), 3)?.is_ok());
    Ok(())
}
