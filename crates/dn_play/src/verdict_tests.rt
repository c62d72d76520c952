//! Replicas beside their meta files: what a read answers, and what a write leaves.
ghost use Rattle.std.specs.Prelude.{All, IfOk};
ghost use Rattle.disk_model.specs.Told.{InEachWorld};
ghost use Rattle.map_model.specs.World.{DraftsAside};

use super::*;
use crate::tests::{WORDS, only, put_file, words_of};
use disk_model::PoolDisks;
use mem_disks::{MemDisks, MemSink, MemSource};
use std::alloc::{AllocError, Global};
use std::process::Abort;
use std::test::Fail;

// Disks of one volume, on which block 5 holds `123456789` beside this meta file.
fn nine_beside(alloc: Global, meta: &[u8]) -> Result<Vec<MemDisks>, AllocError>
    ensures aside { IfOk result (λ disks. All (λ d. InEachWorld (⟦<MemDisks as PoolDisks>⟧.worlds d) DraftsAside) disks.items) }
{
    let mut disk = MemDisks::empty(alloc, 1)?;
    put_file(
        &mut disk,
        "current/finalized/subdir0/subdir0/blk_5",
        b"123456789",
    )?;
    put_file(
        &mut disk,
        "current/finalized/subdir0/subdir0/blk_5_1001.meta",
        meta,
    )?;
    only(alloc, disk)
}

#[test]
fn a_read_answers_the_verdict_of_the_meta_file(rt: HostRuntime) -> Result<(), Fail> {
    let alloc = rt.alloc();
    let words = words_of(alloc, WORDS)?;
    let header = [0u8, 1, 2, 0, 0, 2, 0];
    for (meta, reply) in [
        (
            [0u8, 1, 1, 0, 0, 2, 0, 0xe3, 6, 0x92, 0x83].as_slice(),
            "badchunk 0 3808858755 3421780262\n",
        ),
        (&[0, 1, 2], "badmeta short 3\n"),
        (&[0, 2, 2, 0, 0, 2, 0], "badmeta version 2\n"),
        (&[0, 1, 3, 0, 0, 2, 0], "badmeta type 3\n"),
        (&[0, 1, 2, 0, 0, 0, 0], "badmeta step 0\n"),
        (&header, "count 4 0\n"),
        (&[0, 1, 2, 0, 0, 2, 0, 1, 2, 3, 4, 5], "count 4 5\n"),
        (
            &[0, 1, 2, 0, 0, 2, 0, 0xe3, 6, 0x92, 0x83],
            "data 1001 313233343536373839\n",
        ),
        (
            &[0, 1, 1, 0, 0, 2, 0, 0xcb, 0xf4, 0x39, 0x26],
            "data 1001 313233343536373839\n",
        ),
        (&[0, 1, 0, 0, 0, 2, 0], "data 1001 313233343536373839\n"),
    ] {
        let mut source = MemSource::make(b"read 5\n".to_vec(alloc)?);
        let mut sink = MemSink::make(alloc);
        let disks = nine_beside(alloc, meta)?;
        let run = play(alloc, words.as_slice(), disks, &mut source, &mut sink);
        assert_eq!(rt; run.status, 0);
        assert_eq!(rt; sink.bytes(), reply.as_bytes());
    }
    Ok(())
}

// The line that writes block 5 with so many bytes, all `a`.
fn line_of_length(alloc: Global, len: usize) -> Result<Vec<u8>, AllocError> {
    let mut line = b"write 5 1001 ".to_vec(alloc)?;
    for _ in 0..len {
        line.extend_from_slice(b"61")?;
    }
    line.extend_from_slice(b"\n")?;
    Ok(line)
}

// The disks that a script leaves which began with none.
fn left_by(alloc: Global, script: Vec<u8>) -> Result<Option<MemDisks>, AllocError> {
    let words = words_of(alloc, WORDS)?;
    let disks = only(alloc, MemDisks::empty(alloc, 1)?)?;
    let mut source = MemSource::make(script);
    let mut sink = MemSink::make(alloc);
    let mut run = play(alloc, words.as_slice(), disks, &mut source, &mut sink);
    Ok(run.disks.pop())
}

#[test]
fn a_write_leaves_the_checksums_of_its_chunks(rt: HostRuntime) -> Result<(), Fail> {
    let alloc = rt.alloc();
    for (len, meta_len) in [(0, 7), (1, 11), (512, 11), (513, 15), (1025, 19)] {
        let Some(disk) = left_by(alloc, line_of_length(alloc, len)?)? else {
            panic!(rt; "no disks");
        };
        let meta = disk.bytes(1, "current/finalized/subdir0/subdir0/blk_5_1001.meta");
        assert_eq!(rt; meta.map(|bytes| bytes.len()), Some(meta_len));
    }
    let script = b"open 5 1001 9\npush 5 3132\npush 5 33343536373839\nfinish 5\n";
    let Some(disk) = left_by(alloc, script.to_vec(alloc)?)? else {
        panic!(rt; "no disks");
    };
    assert_eq!(rt;
        disk.bytes(1, "current/finalized/subdir0/subdir0/blk_5_1001.meta"),
        Some([0u8, 1, 2, 0, 0, 2, 0, 0xe3, 6, 0x92, 0x83].as_slice())
    );
    assert_eq!(rt;
        disk.bytes(1, "current/finalized/subdir0/subdir0/blk_5"),
        Some(b"123456789".as_slice())
    );
    Ok(())
}
