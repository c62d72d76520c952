//! Scripts over disks, sources and sinks in memory.
ghost use Rattle.std.specs.Prelude.{◌≡◌, ◌≤◌, All, IfOk, OnOk};
ghost use Rattle.disk_model.specs.Told.{InEachWorld};
ghost use Rattle.map_model.specs.World.{DraftsAside};

use super::*;
use disk_model::PoolDisks;
use mem_disks::{Call, FailRule, MemDisks, MemSink, MemSource};
use std::alloc::{AllocError, Global};
use std::process::Abort;
use std::test::Fail;

pub(crate) const WORDS: &str = "bp1 DN-1 DS-1:1000000:v1";

// The empty disks of one pool.
#[tactic(auto, using(crate::proofs::OneDisk::holds_of_one))]
fn empty_disks(alloc: Global, volumes: u8) -> Result<Vec<MemDisks>, AllocError>
    requires some { 1 ≤ volumes }
    requires limit { volumes ≤ 64 }
    ensures aside { IfOk result (λ disks. All (λ d. InEachWorld (⟦<MemDisks as PoolDisks>⟧.worlds d) DraftsAside) disks.items) }
{
    let mut disks = Vec::new(alloc);
    disks.push(MemDisks::empty(alloc, volumes)?)?;
    Ok(disks)
}

// The words of a line.
pub(crate) fn words_of(alloc: Global, line: &str) -> Result<Vec<String>, AllocError> {
    let mut words = Vec::new(alloc);
    for word in line.split(' ') {
        words.push(String::from_str(alloc, word)?)?;
    }
    Ok(words)
}

// The status, and what the sink took.
fn played(
    alloc: Global,
    words: &str,
    volumes: u8,
    mut source: MemSource,
    mut sink: MemSink,
) -> Result<(u8, Vec<u8>), AllocError>
    requires some { 1 ≤ volumes }
    requires limit { volumes ≤ 64 }
{
    let disks = empty_disks(alloc, volumes)?;
    let words = words_of(alloc, words)?;
    let run = play(alloc, words.as_slice(), disks, &mut source, &mut sink);
    Ok((run.status, sink.bytes().to_vec(alloc)?))
}

#[test]
fn lines_are_answered_in_any_pieces(rt: HostRuntime) -> Result<(), Fail> {
    let alloc = rt.alloc();
    for (script, want, replies) in [
        (
            "open 5 1001 5\npush 5 68656c6c6f\nfinish 5\nread 5\n",
            0,
            "ok\nok\nok\ndata 1001 68656c6c6f\n",
        ),
        ("", 0, ""),
        (
            "open 5 1001 0\nfinish 5\nread 5\n",
            0,
            "ok\nok\ndata 1001 \n",
        ),
        ("read 5\nraed 5\n", 5, "none\nend line 2 1\n"),
        ("\n# a comment\nread 5", 0, "none\n"),
        ("read 5\nsweep\n", 8, "none\nend later 2\n"),
        ("sweep 1\n", 5, "end line 1 7\n"),
        ("open 5 1001 x\n", 5, "end line 1 13\n"),
        (
            "open 5 1001 3\npush 5 6f\nreopen\nread 5\nopen 5 1001 3\ndelete 5\nread 5\n",
            0,
            "ok\nok\nok\nwaiting\nwaiting\nok\nnone\n",
        ),
        (
            "write 5 1001 6f6c64\nopen 6 1 2\nreopen\npush 6 61\nreopen\nread 5\nread 6\nread 7\n",
            0,
            "ok\nok\nok\nnowriter\nok\ndata 1001 6f6c64\nwaiting\nnone\n",
        ),
        (
            "write 5 1001 6f6c64\nwrite 5 1001 6f6c64\nopen 6 1 2\npush 6 616161\nread 6\ndrop 6\nread 6\npush 6 61\ndelete 6\n",
            0,
            "ok\nexists\nok\nover 2\nwriting\nok\nnone\nnowriter\nnone\n",
        ),
        ("drop 6\n", 0, "nowriter\n"),
        (
            "write 5 1001 68656c6c6f\nwrite 5 1002 61\nread 5\ndelete 5\nread 5\ndelete 5\n",
            0,
            "ok\nexists\ndata 1001 68656c6c6f\nok\nnone\nnone\n",
        ),
        (
            "open 5 1001 2\ndelete 5\nwrite 5 1002 61\nfinish 5\ndelete 5\nwrite 5 1002 61\nread 5\n",
            0,
            "ok\nwriting\nwriting\nok\nok\nok\ndata 1002 61\n",
        ),
        (
            "open 5 1001 2\npush 5 616263\npush 6 61\nread 5\nopen 5 1002 1\n",
            0,
            "ok\nover 2\nnowriter\nwriting\nwriting\n",
        ),
    ] {
        for most in [1, 65_536] {
            let source = MemSource::in_pieces(script.as_bytes().to_vec(alloc)?, most);
            let (status, shown) = played(alloc, WORDS, 1, source, MemSink::make(alloc))?;
            assert_eq!(rt; status, want, "of {script}");
            assert_eq!(rt; shown.as_slice(), replies.as_bytes(), "of {script}");
        }
    }
    Ok(())
}

#[test]
fn other_words_are_refused(rt: HostRuntime) -> Result<(), Fail> {
    let alloc = rt.alloc();
    for (words, volumes, want, shown_text) in [
        ("", 1, 1, "end usage\n"),
        ("bp1,bp2 DN-1 DS-1:1000:v1", 1, 1, "end usage\n"),
        ("bp1 DN-1 DS-1:1000:v1 DS-2:1000:v2", 1, 1, "end usage\n"),
        ("bp1 DN-1 DS-1:1000:v1 DS-1:1000:v2", 2, 1, "end usage\n"),
        ("bp1 DN-1 DS-1:0:v1 DS-2:1000:v2", 2, 1, "end usage\n"),
    ] {
        let source = MemSource::make(b"read 5\n".to_vec(alloc)?);
        let (status, shown) = played(alloc, words, volumes, source, MemSink::make(alloc))?;
        assert_eq!(rt; status, want, "of {words}");
        assert_eq!(rt; shown.as_slice(), shown_text.as_bytes(), "of {words}");
    }
    Ok(())
}

// Lengths of replicas and what open writers reserved count; what is deleted or dropped counts no longer.
#[test]
fn starts_are_refused_for_room(rt: HostRuntime) -> Result<(), Fail> {
    let alloc = rt.alloc();
    for (script, replies) in [
        (
            "open 5 1001 11\nopen 5 1001 134217729\nopen 5 1001 10\nopen 5 1001 11\nopen 6 1001 1\nopen 6 1001 0\n",
            "full 11 10\ntoolong 134217728\nok\nwriting\nfull 1 0\nok\n",
        ),
        (
            "open 5 1001 10\npush 5 61\nfinish 5\nwrite 6 1 61616161616161616161\nwrite 6 1 616161616161616161\ndelete 5\nopen 7 1 2\nopen 7 1 1\n",
            "ok\nok\nok\nfull 10 9\nok\nok\nfull 2 1\nok\n",
        ),
        (
            "open 5 1001 4\npush 5 616263\nopen 6 1 7\nopen 6 1 6\ndrop 5\nopen 7 1 5\nopen 7 1 4\n",
            "ok\nok\nfull 7 6\nok\nok\nfull 5 4\nok\n",
        ),
    ] {
        let source = MemSource::make(script.as_bytes().to_vec(alloc)?);
        let words = "bp1 DN-1 DS-1:10:v1";
        let (status, shown) = played(alloc, words, 1, source, MemSink::make(alloc))?;
        assert_eq!(rt; status, 0, "of {script}");
        assert_eq!(rt; shown.as_slice(), replies.as_bytes(), "of {script}");
    }
    Ok(())
}

// Each volume in turn takes a fresh replica, the first that has room; the pointer goes on only where an entry is made, and
// begins anew where the pool is opened again.
#[test]
fn volumes_are_chosen_in_turn(rt: HostRuntime) -> Result<(), Fail> {
    let alloc = rt.alloc();
    for (shares, script, replies) in [
        (
            "DS-1:1000:v1 DS-2:1000:v2",
            "write 5 1001 61\nwrite 6 1002 61\nwrite 7 1003 61\nreport\n",
            "ok\nok\nok\nreport 2 0\nvolume 1 1000 2 2\nvolume 2 1000 1 1\n",
        ),
        (
            "DS-1:4:v1 DS-2:9:v2",
            "open 5 1 5\nreport\nopen 6 1 5\nwrite 6 1 616161\nwrite 7 1 61\ndrop 5\nreport\n",
            "ok\nreport 2 0\nvolume 1 4 0 0\nvolume 2 9 5 0\nfull 5 4\nok\nok\nok\nreport 2 0\nvolume 1 4 3 1\nvolume 2 9 1 1\n",
        ),
        (
            "DS-1:10:v1 DS-2:10:v2",
            "write 5 1 61\nreopen\nwrite 6 1 61\ndelete 5\nreport\n",
            "ok\nok\nok\nok\nreport 2 0\nvolume 1 10 1 1\nvolume 2 10 0 0\n",
        ),
    ] {
        let source = MemSource::make(script.as_bytes().to_vec(alloc)?);
        let words = format!(in alloc; "bp1 DN-1 {shares}")?;
        let (status, shown) = played(alloc, words.as_str(), 2, source, MemSink::make(alloc))?;
        assert_eq!(rt; status, 0, "of {script}");
        assert_eq!(rt; shown.as_slice(), replies.as_bytes(), "of {script}");
    }
    Ok(())
}

#[test]
fn streams_that_fail_end_a_run(rt: HostRuntime) -> Result<(), Fail> {
    let alloc = rt.alloc();
    let source = MemSource::make(b"read 5\n".to_vec(alloc)?).failing_after(0);
    let (status, shown) = played(alloc, WORDS, 1, source, MemSink::make(alloc))?;
    assert_eq!(rt; status, 2);
    assert_eq!(rt; shown.as_slice(), b"end source\n".as_slice());
    let source = MemSource::make(b"read 5\n".to_vec(alloc)?);
    let sink = MemSink::make(alloc).failing_after(0);
    let (status, shown) = played(alloc, WORDS, 1, source, sink)?;
    assert_eq!(rt; status, 3);
    assert_eq!(rt; shown.as_slice(), b"".as_slice());
    Ok(())
}

// Disks of one volume that fail by one rule, once.
#[tactic(auto, using(crate::proofs::OneDisk::holds_of_one))]
fn failing_disks(alloc: Global, call: Call, nth: u64) -> Result<Vec<MemDisks>, AllocError>
    ensures aside { IfOk result (λ disks. All (λ d. InEachWorld (⟦<MemDisks as PoolDisks>⟧.worlds d) DraftsAside) disks.items) }
{
    let mut disk = MemDisks::empty(alloc, 1)?;
    disk.fail(FailRule {
        call,
        nth,
        forever: false,
    })?;
    let mut disks = Vec::new(alloc);
    disks.push(disk)?;
    Ok(disks)
}

#[test]
fn calls_that_fail_are_answered(rt: HostRuntime) -> Result<(), Fail> {
    let alloc = rt.alloc();
    let words = words_of(alloc, WORDS)?;
    for (call, nth, want, replies) in [
        (Call::Publish, 1, 0, "failed\nunsure\nok\nnone\n"),
        (Call::Publish, 2, 0, "failed\nunsure\nok\nnone\n"),
        (Call::Create, 1, 0, "failed\nwaiting\nok\nnone\n"),
        (Call::Create, 2, 0, "failed\nwaiting\nok\nnone\n"),
        (Call::Append, 1, 0, "failed\nwaiting\nok\nnone\n"),
        (Call::Seal, 2, 0, "failed\nwaiting\nok\nnone\n"),
        (Call::Lend, 1, 0, "ok\nfailed\nok\nnone\n"),
        (Call::Lend, 2, 0, "ok\nfailed\nok\nnone\n"),
        (Call::Read, 1, 0, "ok\nfailed\nok\nnone\n"),
        (Call::Read, 2, 0, "ok\nfailed\nok\nnone\n"),
        (Call::Remove, 1, 0, "ok\ndata 1001 61\nfailed\nunsure\n"),
        (Call::Remove, 2, 0, "ok\ndata 1001 61\nfailed\nunsure\n"),
        (Call::List, 9, 6, "end open\n"),
    ] {
        let disks = failing_disks(alloc, call, nth)?;
        let script = b"write 5 1001 61\nread 5\ndelete 5\nread 5\n";
        let mut source = MemSource::make(script.to_vec(alloc)?);
        let mut sink = MemSink::make(alloc);
        let run = play(alloc, words.as_slice(), disks, &mut source, &mut sink);
        assert_eq!(rt; run.status, want, "of {call:?} {nth}");
        assert_eq!(rt; sink.bytes(), replies.as_bytes(), "of {call:?} {nth}");
    }
    Ok(())
}

// A rule on appends names the draft that fails: that of the block, or of the meta file.
#[test]
fn a_push_that_fails_gives_its_writer_up(rt: HostRuntime) -> Result<(), Fail> {
    let alloc = rt.alloc();
    let words = words_of(alloc, WORDS)?;
    for (nth, replies) in [
        (1, "ok\nfailed\nnowriter\nnowriter\nwaiting\nok\nnone\n"),
        (2, "ok\nok\nok\nfailed\nwaiting\nok\nnone\n"),
        (3, "ok\nok\nok\nok\ndata 1001 6162\nok\nnone\n"),
    ] {
        let disks = failing_disks(alloc, Call::Append, nth)?;
        let script = b"open 5 1001 2\npush 5 61\npush 5 62\nfinish 5\nread 5\ndelete 5\nread 5\n";
        let mut source = MemSource::make(script.to_vec(alloc)?);
        let mut sink = MemSink::make(alloc);
        let run = play(alloc, words.as_slice(), disks, &mut source, &mut sink);
        assert_eq!(rt; run.status, 0);
        assert_eq!(rt; sink.bytes(), replies.as_bytes(), "of {nth}");
    }
    Ok(())
}

// Each opening lists 1,026 directories; a drop removes two files.
#[test]
fn openings_again_that_fail_end_a_run(rt: HostRuntime) -> Result<(), Fail> {
    let alloc = rt.alloc();
    let words = words_of(alloc, WORDS)?;
    for (call, nth, want, replies) in [
        (Call::List, 1027, 6, "ok\nok\nend open\n"),
        (
            Call::List,
            2053,
            0,
            "ok\nok\nok\ndata 1001 61\nwaiting\nnowriter\nok\nok\nnone\n",
        ),
        (Call::Size, 1, 6, "ok\nok\nend open\n"),
        (
            Call::Remove,
            1,
            0,
            "ok\nok\nok\ndata 1001 61\nwaiting\nnowriter\nok\nfailed\nwaiting\n",
        ),
        (
            Call::Remove,
            2,
            0,
            "ok\nok\nok\ndata 1001 61\nwaiting\nnowriter\nok\nfailed\nwaiting\n",
        ),
    ] {
        let disks = failing_disks(alloc, call, nth)?;
        let script =
            b"write 5 1001 61\nopen 6 1002 1\nreopen\nread 5\nread 6\ndrop 6\nopen 7 1 1\ndrop 7\nread 7\n";
        let mut source = MemSource::make(script.to_vec(alloc)?);
        let mut sink = MemSink::make(alloc);
        let run = play(alloc, words.as_slice(), disks, &mut source, &mut sink);
        assert_eq!(rt; run.status, want, "of {call:?} {nth}");
        assert_eq!(rt; sink.bytes(), replies.as_bytes(), "of {call:?} {nth}");
    }
    Ok(())
}

// Puts a file on a volume.
#[tactic(auto, using(crate::proofs::PutFiles::put_aside))]
pub(crate) fn put_on(
    disk: &mut MemDisks,
    vol: u8,
    path: &str,
    bytes: &[u8],
) -> Result<(), AllocError>
    requires low { 1 ≤ vol }
    requires high { vol ≤ ⟦<MemDisks as PoolDisks>⟧.volume_count disk.old }
    requires aside { InEachWorld (⟦<MemDisks as PoolDisks>⟧.worlds disk.old) DraftsAside }
    ensures volumes { ⟦<MemDisks as PoolDisks>⟧.volume_count disk.new ≡ ⟦<MemDisks as PoolDisks>⟧.volume_count disk.old }
    ensures aside { OnOk result (InEachWorld (⟦<MemDisks as PoolDisks>⟧.worlds disk.new) DraftsAside) }
{
    match disk.put(vol, path, bytes) {
        Ok(()) => Ok(()),
        Err(fault) => Err(fault),
    }
}

// Puts a file on volume 1.
pub(crate) fn put_file(disk: &mut MemDisks, path: &str, bytes: &[u8]) -> Result<(), AllocError>
    requires one_volume { ⟦<MemDisks as PoolDisks>⟧.volume_count disk.old ≡ 1 }
    requires aside { InEachWorld (⟦<MemDisks as PoolDisks>⟧.worlds disk.old) DraftsAside }
    ensures one_volume { ⟦<MemDisks as PoolDisks>⟧.volume_count disk.new ≡ 1 }
    ensures aside { OnOk result (InEachWorld (⟦<MemDisks as PoolDisks>⟧.worlds disk.new) DraftsAside) }
{
    put_on(disk, 1, path, bytes)
}

// The only disks of a run.
#[tactic(auto, using(crate::proofs::OneDisk::holds_of_one))]
pub(crate) fn only(alloc: Global, disk: MemDisks) -> Result<Vec<MemDisks>, AllocError>
    requires aside { InEachWorld (⟦<MemDisks as PoolDisks>⟧.worlds disk) DraftsAside }
    ensures aside { IfOk result (λ disks. All (λ d. InEachWorld (⟦<MemDisks as PoolDisks>⟧.worlds d) DraftsAside) disks.items) }
{
    let mut disks = Vec::new(alloc);
    disks.push(disk)?;
    Ok(disks)
}

// Disks of one volume with the pair of block 5, a block file of 6 without a meta file, a meta file of 7 alone, and a block
// file of 8 that was being written.
fn stored_disks(alloc: Global) -> Result<Vec<MemDisks>, AllocError>
    ensures aside { IfOk result (λ disks. All (λ d. InEachWorld (⟦<MemDisks as PoolDisks>⟧.worlds d) DraftsAside) disks.items) }
{
    let mut disk = MemDisks::empty(alloc, 1)?;
    put_file(
        &mut disk,
        "current/finalized/subdir0/subdir0/blk_5",
        b"hello",
    )?;
    put_file(
        &mut disk,
        "current/finalized/subdir0/subdir0/blk_5_1001.meta",
        &[0, 1, 0, 0, 0, 2, 0],
    )?;
    put_file(&mut disk, "current/finalized/subdir0/subdir0/blk_6", b"hi")?;
    put_file(
        &mut disk,
        "current/finalized/subdir0/subdir0/blk_7_1001.meta",
        b"",
    )?;
    put_file(&mut disk, "current/rbw/blk_8", b"")?;
    only(alloc, disk)
}

// Disks of one volume with block 5 beside metas of three stamps, and one more file.
fn doubtful_disks(alloc: Global, written: &str) -> Result<Vec<MemDisks>, AllocError>
    ensures aside { IfOk result (λ disks. All (λ d. InEachWorld (⟦<MemDisks as PoolDisks>⟧.worlds d) DraftsAside) disks.items) }
{
    let mut disk = MemDisks::empty(alloc, 1)?;
    put_file(
        &mut disk,
        "current/finalized/subdir0/subdir0/blk_5",
        b"hello",
    )?;
    put_file(
        &mut disk,
        "current/finalized/subdir0/subdir0/blk_5_1001.meta",
        b"",
    )?;
    put_file(
        &mut disk,
        "current/finalized/subdir0/subdir0/blk_5_1002.meta",
        &[0, 1, 0, 0, 0, 2, 0],
    )?;
    put_file(
        &mut disk,
        "current/finalized/subdir0/subdir0/blk_5_1003.meta",
        &[0, 1, 0, 0, 0, 2, 0],
    )?;
    put_file(&mut disk, written, b"hello!")?;
    only(alloc, disk)
}

#[test]
fn several_metas_are_brought_down_to_one(rt: HostRuntime) -> Result<(), Fail> {
    let alloc = rt.alloc();
    let words = words_of(alloc, WORDS)?;
    for (written, replies) in [
        (
            "current/rbw/blk_6",
            "data 1003 68656c6c6f\nok\ndata 1003 68656c6c6f\n",
        ),
        (
            "current/rbw/blk_5",
            "data 1002 68656c6c6f\nok\ndata 1002 68656c6c6f\n",
        ),
    ] {
        let disks = doubtful_disks(alloc, written)?;
        let mut source = MemSource::make(b"read 5\nreopen\nread 5\n".to_vec(alloc)?);
        let mut sink = MemSink::make(alloc);
        let run = play(alloc, words.as_slice(), disks, &mut source, &mut sink);
        assert_eq!(rt; run.status, 0);
        assert_eq!(rt; sink.bytes(), replies.as_bytes());
    }
    Ok(())
}

#[test]
fn stored_replicas_are_opened(rt: HostRuntime) -> Result<(), Fail> {
    let alloc = rt.alloc();
    let words = words_of(alloc, WORDS)?;
    let disks = stored_disks(alloc)?;
    let script =
        b"read 5\nwrite 5 1002 61\nread 6\nread 7\nread 8\ndelete 6\nwrite 6 1002 61\nread 6\ndelete 5\nread 5\n";
    let mut source = MemSource::make(script.to_vec(alloc)?);
    let mut sink = MemSink::make(alloc);
    let run = play(alloc, words.as_slice(), disks, &mut source, &mut sink);
    let replies =
        "data 1001 68656c6c6f\nexists\nwaiting\nnone\nwaiting\nok\nok\ndata 1002 61\nok\nnone\n";
    assert_eq!(rt; run.status, 0);
    assert_eq!(rt; sink.bytes(), replies.as_bytes());
    Ok(())
}

// Disks of two volumes with a copy of block 5 on each.
fn twin_disks(alloc: Global) -> Result<Vec<MemDisks>, AllocError>
    ensures aside { IfOk result (λ disks. All (λ d. InEachWorld (⟦<MemDisks as PoolDisks>⟧.worlds d) DraftsAside) disks.items) }
{
    let block = "current/finalized/subdir0/subdir0/blk_5";
    let mut disk = MemDisks::empty(alloc, 2)?;
    put_on(&mut disk, 1, block, b"a")?;
    put_on(
        &mut disk,
        1,
        "current/finalized/subdir0/subdir0/blk_5_1001.meta",
        &[0, 1, 0, 0, 0, 2, 0],
    )?;
    put_on(&mut disk, 2, block, b"ab")?;
    put_on(
        &mut disk,
        2,
        "current/finalized/subdir0/subdir0/blk_5_1002.meta",
        &[0, 1, 0, 0, 0, 2, 0],
    )?;
    only(alloc, disk)
}

#[test]
fn the_greatest_copy_of_a_block_is_kept(rt: HostRuntime) -> Result<(), Fail> {
    let alloc = rt.alloc();
    let words = words_of(alloc, "bp1 DN-1 DS-1:1000:v1 DS-2:1000:v2")?;
    let disks = twin_disks(alloc)?;
    let script = b"read 5\nreport\ndelete 5\nreopen\nread 5\n";
    let mut source = MemSource::make(script.to_vec(alloc)?);
    let mut sink = MemSink::make(alloc);
    let run = play(alloc, words.as_slice(), disks, &mut source, &mut sink);
    let replies =
        "data 1002 6162\nreport 2 0\nvolume 1 1000 0 0\nvolume 2 1000 2 1\nok\nok\nnone\n";
    assert_eq!(rt; run.status, 0);
    assert_eq!(rt; sink.bytes(), replies.as_bytes());
    Ok(())
}
