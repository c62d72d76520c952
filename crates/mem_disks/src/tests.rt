//! The disks, streams and the clock in memory, through the traits: what fails by which rule, and what stands then.
ghost use Rattle.std.specs.Prelude.{◌≡◌, ◌≤◌, [], ◌∷◌, Some, IfOk, OnOk};
ghost use Rattle.disk_model.specs.Worlds.{Holds};
ghost use Rattle.disk_model.specs.Told.{InEachWorld, NoDraftAt};
ghost use Rattle.mem_disks.specs.History.{empty_world};

use super::*;
use disk_model::{Clock, DiskError, Draft, Failed, PoolDisks, Reader, Sink, Source};
use std::alloc::{AllocError, Global};
use std::process::Abort;
use std::test::Fail;

// Empty disks of one volume, which fail by one rule.
fn failing(alloc: Global, call: Call, nth: u64, forever: bool) -> Result<MemDisks, AllocError>
    ensures empty { IfOk result (λ disks. ⟦<MemDisks as PoolDisks>⟧.worlds disks ≡ Some (empty_world ∷ [])) }
    ensures volumes { IfOk result (λ disks. ⟦<MemDisks as PoolDisks>⟧.volume_count disks ≡ 1) }
{
    let mut disks = MemDisks::empty(alloc, 1)?;
    disks.fail(FailRule { call, nth, forever })?;
    Ok(disks)
}

// Writes a whole file through a draft.
fn write_file<D: PoolDisks>(
    alloc: Global,
    disks: &mut D,
    vol: u8,
    draft_path: &str,
    target: &str,
    bytes: &[u8],
) -> Result<(), DiskError>
    requires low { 1 ≤ vol }
    requires high { vol ≤ D.volume_count disks.old }
    requires free { NoDraftAt (D.worlds disks.old) vol draft_path.now }
    ensures volumes { D.volume_count disks.new ≡ D.volume_count disks.old }
    ensures written { OnOk result (InEachWorld (D.worlds disks.new) (Holds vol target.now (Some bytes.now))) }
    ensures free { OnOk result (NoDraftAt (D.worlds disks.new) vol draft_path.now) }
{
    let mut draft = disks.create(alloc, vol, draft_path)?;
    draft.append(bytes)?;
    let sealed = match draft.seal() {
        Ok(sealed) => sealed,
        Err(_) => return Err(DiskError::Failed),
    };
    match disks.publish(sealed, target) {
        Ok(()) => Ok(()),
        Err(Failed) => Err(DiskError::Failed),
    }
}

#[test]
fn files_are_written_listed_read_and_removed(rt: HostRuntime) -> Result<(), Fail> {
    let alloc = rt.alloc();
    let mut disks = MemDisks::empty(alloc, 2)?;
    assert_eq!(rt; disks.volumes(), 2);
    write_file(alloc, &mut disks, 1, "tmp/draft", "current/rbw/b", b"hi")?;
    write_file(alloc, &mut disks, 1, "tmp/draft", "current/rbw/a", b"hello")?;
    assert_eq!(rt; disks.bytes(1, "current/rbw/a"), Some(b"hello".as_slice()));
    assert_eq!(rt; disks.bytes(2, "current/rbw/a"), None);
    assert_eq!(rt; disks.size(1, "current/rbw/b"), Ok(Some(2)));
    let names = disks.list(alloc, 1, "current/rbw")?;
    assert_eq!(rt; names.len(), 2);
    assert_eq!(rt; names.get(0), "a");
    assert_eq!(rt; names.get(1), "b");
    assert_eq!(rt; disks.list(alloc, 1, "current")?.len(), 0);
    disks.remove(1, "current/rbw/a")?;
    assert_eq!(rt; disks.bytes(1, "current/rbw/a"), None);
    disks.put(1, "current/rbw/c", b"put")?;
    assert_eq!(rt; disks.bytes(1, "current/rbw/c"), Some(b"put".as_slice()));
    assert_eq!(rt; disks.list(alloc, 1, "current/rbw")?.len(), 2);
    assert_eq!(rt; disks.faults(), 0);
    assert_eq!(rt; disks.lacks(), 0);
    Ok(())
}

#[test]
fn a_reader_gives_the_bytes_of_a_removed_file(rt: HostRuntime) -> Result<(), Fail> {
    let alloc = rt.alloc();
    let mut disks = MemDisks::empty(alloc, 1)?;
    write_file(alloc, &mut disks, 1, "tmp/draft", "a", b"hello")?;
    let Some(mut reader) = disks.lend_reader(alloc, 1, "a")? else {
        panic!(rt; "no reader");
    };
    assert_eq!(rt; disks.remove(1, "a"), Ok(()));
    assert_eq!(rt; disks.remove(1, "a"), Ok(()));
    assert_eq!(rt; disks.size(1, "a"), Ok(None));
    assert_eq!(rt; disks.size(1, "tmp/draft"), Ok(None));
    let mut out = [0; 4];
    assert_eq!(rt; reader.read(0, &mut out), Ok(4));
    assert_eq!(rt; out.as_slice(), b"hell".as_slice());
    assert_eq!(rt; reader.read(3, &mut out), Ok(2));
    assert_eq!(rt; &out[..2], b"lo".as_slice());
    assert_eq!(rt; reader.read(5, &mut out), Ok(0));
    Ok(())
}

#[test]
fn drafts_have_numbers_and_are_listed(rt: HostRuntime) -> Result<(), Fail> {
    let alloc = rt.alloc();
    let mut disks = MemDisks::empty(alloc, 64)?;
    let first = disks.create(alloc, 64, "tmp/x")?;
    assert_eq!(rt; first.number(), 0);
    let names = disks.list(alloc, 64, "tmp")?;
    assert_eq!(rt; names.len(), 1);
    assert_eq!(rt; names.get(0), "x");
    assert_eq!(rt; disks.list(alloc, 63, "tmp")?.len(), 0);
    Ok(())
}

#[test]
fn a_rule_names_one_call_or_all_from_it_on(rt: HostRuntime) -> Result<(), Fail> {
    let alloc = rt.alloc();
    let mut disks = failing(alloc, Call::Size, 2, false)?;
    assert_eq!(rt; disks.size(1, "a"), Ok(None));
    assert_eq!(rt; disks.size(1, "a"), Err(Failed));
    assert_eq!(rt; disks.size(1, "a"), Ok(None));
    assert_eq!(rt; disks.faults(), 1);

    let mut disks = failing(alloc, Call::Remove, 1, true)?;
    assert_eq!(rt; disks.size(1, "a"), Ok(None));
    assert_eq!(rt; disks.remove(1, "a"), Err(Failed));
    assert_eq!(rt; disks.size(1, "a"), Err(Failed));
    assert_eq!(rt; disks.list(alloc, 1, "tmp").is_err(), true);

    let mut disks = failing(alloc, Call::List, 1, false)?;
    assert_eq!(rt; disks.list(alloc, 1, "tmp").is_err(), true);
    assert_eq!(rt; disks.list(alloc, 1, "tmp").is_err(), false);

    let mut disks = failing(alloc, Call::Any, 2, false)?;
    assert_eq!(rt; disks.size(1, "a"), Ok(None));
    assert_eq!(rt; disks.remove(1, "a"), Err(Failed));
    assert_eq!(rt; disks.remove(1, "a"), Ok(()));
    Ok(())
}

// Whether a file is written to disks that fail by one rule, and how often the disks failed.
fn written_by(alloc: Global, call: Call, nth: u64) -> Result<(bool, u64), AllocError> {
    let mut disks = failing(alloc, call, nth, false)?;
    let written = write_file(alloc, &mut disks, 1, "tmp/draft", "a", b"hi").is_ok();
    Ok((written, disks.faults()))
}

#[test]
fn drafts_fail_in_the_order_of_their_making(rt: HostRuntime) -> Result<(), Fail> {
    let alloc = rt.alloc();
    assert_eq!(rt; written_by(alloc, Call::Create, 1)?, (false, 1));
    assert_eq!(rt; written_by(alloc, Call::Create, 2)?, (true, 0));
    assert_eq!(rt; written_by(alloc, Call::Append, 1)?, (false, 0));
    assert_eq!(rt; written_by(alloc, Call::Append, 2)?, (true, 0));
    assert_eq!(rt; written_by(alloc, Call::Seal, 1)?, (false, 0));
    assert_eq!(rt; written_by(alloc, Call::Publish, 1)?, (false, 1));
    Ok(())
}

#[test]
fn readers_fail_in_the_order_of_their_lending(rt: HostRuntime) -> Result<(), Fail> {
    let alloc = rt.alloc();
    let mut disks = failing(alloc, Call::Read, 1, false)?;
    write_file(alloc, &mut disks, 1, "tmp/draft", "a", b"hi")?;
    let Some(mut first) = disks.lend_reader(alloc, 1, "a")? else {
        panic!(rt; "no reader");
    };
    let mut out = [0; 4];
    assert_eq!(rt; first.read(0, &mut out), Err(Failed));
    assert_eq!(rt; first.read(0, &mut out), Err(Failed));
    Ok(())
}

// Puts a file on disks without drafts.
fn put_file(disks: &mut MemDisks, vol: u8, path: &str, bytes: &[u8]) -> Result<(), AllocError>
    requires low { 1 ≤ vol }
    requires high { vol ≤ ⟦<MemDisks as PoolDisks>⟧.volume_count disks.old }
    requires bare { InEachWorld (⟦<MemDisks as PoolDisks>⟧.worlds disks.old) (λ world. world.drafts ≡ []) }
    ensures volumes { ⟦<MemDisks as PoolDisks>⟧.volume_count disks.new ≡ ⟦<MemDisks as PoolDisks>⟧.volume_count disks.old }
    ensures bare { OnOk result (InEachWorld (⟦<MemDisks as PoolDisks>⟧.worlds disks.new) (λ world. world.drafts ≡ [])) }
{
    match disks.put(vol, path, bytes) {
        Ok(()) => Ok(()),
        Err(fault) => Err(fault),
    }
}

// Disks of two volumes with a file on each, which fail from the first call of this kind on.
fn failing_with_files(alloc: Global, call: Call, forever: bool) -> Result<MemDisks, AllocError>
    ensures volumes { IfOk result (λ disks. ⟦<MemDisks as PoolDisks>⟧.volume_count disks ≡ 2) }
    ensures bare { IfOk result (λ disks. InEachWorld (⟦<MemDisks as PoolDisks>⟧.worlds disks) (λ world. world.drafts ≡ [])) }
{
    let mut disks = MemDisks::empty(alloc, 2)?;
    put_file(&mut disks, 2, "b", b"there")?;
    put_file(&mut disks, 1, "a", b"hi")?;
    disks.fail(FailRule {
        call,
        nth: 1,
        forever,
    })?;
    Ok(disks)
}

// Disks on which the first call of this kind failed, on the file of volume 1, and all calls from then on.
fn crashed(alloc: Global, call: Call) -> Result<MemDisks, AllocError>
    ensures volumes { IfOk result (λ disks. ⟦<MemDisks as PoolDisks>⟧.volume_count disks ≡ 2) }
{
    let mut disks = failing_with_files(alloc, call, true)?;
    match call {
        Call::Create => drop(disks.create(alloc, 1, "a")),
        Call::Publish => drop(write_file(alloc, &mut disks, 1, "tmp/draft", "a", b"new")),
        _ => drop(disks.remove(1, "a")),
    }
    Ok(disks)
}

#[test]
fn images_count_the_open_call_as_done_or_not(rt: HostRuntime) -> Result<(), Fail> {
    let alloc = rt.alloc();
    let old = Some(b"hi".as_slice());
    let new = Some(b"new".as_slice());
    let filled = Some(b"xxx".as_slice());
    for (call, done, file, draft) in [
        (Call::Create, false, old, None),
        (Call::Create, true, filled, None),
        (Call::Publish, false, old, filled),
        (Call::Publish, true, new, None),
        (Call::Remove, false, old, None),
        (Call::Remove, true, None, None),
    ] {
        let disks = crashed(alloc, call)?;
        assert_eq!(rt; disks.faults(), 1, "of {call:?}");
        assert_eq!(rt; disks.image(alloc, done, 0, u64::MAX).is_err(), true);
        let mut image = disks.image(alloc, done, b'x', 3)?;
        assert_eq!(rt; image.bytes(1, "a"), file, "of {call:?} {done}");
        assert_eq!(rt; image.bytes(1, "tmp/draft"), draft, "of {call:?} {done}");
        assert_eq!(rt; image.bytes(2, "b"), Some(b"there".as_slice()));
        assert_eq!(rt; image.faults(), 0);
        assert_eq!(rt; disks.bytes(1, "a"), old);
        assert_eq!(rt; disks.faults(), 1);
        assert_eq!(rt; image.remove(1, "a"), Ok(()));
    }
    Ok(())
}

#[test]
fn images_count_later_calls_as_not_done(rt: HostRuntime) -> Result<(), Fail> {
    let alloc = rt.alloc();
    let mut disks = failing_with_files(alloc, Call::Remove, true)?;
    assert_eq!(rt; disks.remove(1, "a"), Err(Failed));
    assert_eq!(rt; disks.remove(2, "b"), Err(Failed));
    let image = disks.image(alloc, true, b'x', 3)?;
    assert_eq!(rt; image.bytes(1, "a"), None);
    assert_eq!(rt; image.bytes(2, "b"), Some(b"there".as_slice()));
    let mut disks = failing_with_files(alloc, Call::Remove, false)?;
    assert_eq!(rt; disks.remove(1, "a"), Err(Failed));
    assert_eq!(rt; disks.size(1, "c"), Ok(None));
    let image = disks.image(alloc, true, b'x', 3)?;
    assert_eq!(rt; image.bytes(1, "a"), Some(b"hi".as_slice()));
    Ok(())
}

// Reads all that a source has left through a small buffer, and writes it to a sink. Answers how many bytes were read.
fn copy_pieces<S: Source, K: Sink>(source: &mut S, sink: &mut K) -> Result<u64, Failed> {
    let mut out = [0; 4];
    let mut count = 0u64;
    for _ in 0..100 {
        let read = source.read(&mut out)?;
        if read == 0 {
            return Ok(count);
        }
        sink.write(&out[..read])?;
        count = count.saturating_add(read as u64);
    }
    Ok(count)
}

#[test]
fn sources_and_sinks_hand_over_pieces_and_fail(rt: HostRuntime) -> Result<(), Fail> {
    let alloc = rt.alloc();
    let mut source = MemSource::make(b"hello world".to_vec(alloc)?);
    let mut sink = MemSink::make(alloc);
    assert_eq!(rt; copy_pieces(&mut source, &mut sink), Ok(11));
    assert_eq!(rt; sink.bytes(), b"hello world".as_slice());

    let mut source = MemSource::in_pieces(b"hello".to_vec(alloc)?, 2);
    let mut sink = MemSink::in_pieces(alloc, 1);
    assert_eq!(rt; copy_pieces(&mut source, &mut sink), Ok(5));
    assert_eq!(rt; sink.bytes(), b"hlo".as_slice());

    let mut source = MemSource::in_pieces(b"hello".to_vec(alloc)?, 2).failing_after(2);
    let mut sink = MemSink::make(alloc);
    assert_eq!(rt; copy_pieces(&mut source, &mut sink), Err(Failed));
    assert_eq!(rt; copy_pieces(&mut source, &mut sink), Err(Failed));
    assert_eq!(rt; sink.bytes(), b"hell".as_slice());

    let mut source = MemSource::make(b"hello".to_vec(alloc)?);
    let mut sink = MemSink::make(alloc).failing_after(1);
    assert_eq!(rt; copy_pieces(&mut source, &mut sink), Err(Failed));
    assert_eq!(rt; sink.bytes(), b"hell".as_slice());
    Ok(())
}

// The time after a pause.
fn pause_from<C: Clock + Drop>(mut clock: C, ms: u64) -> u64 {
    clock.pause(ms);
    clock.now_ms()
}

#[test]
fn a_clock_goes_on_by_its_pauses(rt: HostRuntime) {
    assert_eq!(rt; pause_from(MemClock::make(7), 5), 12);
    assert_eq!(rt; pause_from(MemClock::make(u64::MAX - 5), 4), u64::MAX - 1);
    assert_eq!(rt; pause_from(MemClock::make(u64::MAX - 5), 6), u64::MAX);
}
