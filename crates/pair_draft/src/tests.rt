//! Verdicts on files of known bytes, and writers into drafts in memory.
ghost use Rattle.std.specs.Prelude.{◌≡◌, ◌<◌, ◌≤◌, ◌^◌, length, IfOk, None, IsTrue, is_some};

use super::*;
use crate::fakes::{Answers, KeptDraft, KeptReader, NoDisks};
use meta_file::{MetaFault, Verdict};
use std::alloc::{AllocError, Global};
use std::process::Abort;
use std::test::Fail;
use volume_layout::{BlockId, Stamp};

// A file of these bytes, or an absent one, whose reads give at most so many bytes.
fn file(
    alloc: Global,
    bytes: Option<&[u8]>,
    most: usize,
    reads: usize,
) -> Result<Option<KeptReader>, AllocError>
    requires { 0 < most }
{
    match bytes {
        Some(bytes) => Ok(Some(KeptReader {
            bytes: bytes.to_vec(alloc)?,
            most,
            reads,
        })),
        None => Ok(None),
    }
}

#[test]
fn verdicts_on_known_files(rt: HostRuntime) -> Result<(), Fail> {
    let alloc = rt.alloc();
    let block: &[u8] = b"123456789";
    let rows: [(Option<&[u8]>, Option<&[u8]>, Verdict); 17] = [
        (
            Some(block),
            Some(b"\x00\x01\x02\x00\x00\x02\x00\xe3\x06\x92\x83"),
            Verdict::Whole,
        ),
        (
            Some(b"123456789x"),
            Some(b"\x00\x01\x02\x00\x00\x02\x00\xe3\x06\x92\x83"),
            Verdict::Whole,
        ),
        (
            Some(block),
            Some(b"\x00\x01\x01\x00\x00\x02\x00\xcb\xf4\x39\x26"),
            Verdict::Whole,
        ),
        (
            Some(block),
            Some(b"\x00\x01\x01\x00\x00\x02\x00\xe3\x06\x92\x83"),
            Verdict::BadChunk {
                chunk: 0,
                stored: 3_808_858_755,
                computed: 3_421_780_262,
            },
        ),
        (
            Some(block),
            Some(b"\x00\x01\x02"),
            Verdict::Meta(MetaFault::Short { have: 3 }),
        ),
        (
            Some(block),
            Some(b"\x00\x02\x02\x00\x00\x02\x00"),
            Verdict::Meta(MetaFault::Version { v: 2 }),
        ),
        (
            Some(block),
            Some(b"\x00\x01\x03\x00\x00\x02\x00"),
            Verdict::Meta(MetaFault::Kind { t: 3 }),
        ),
        (
            Some(block),
            Some(b"\x00\x01\x02\x00\x00\x00\x00"),
            Verdict::Meta(MetaFault::Step { n: 0 }),
        ),
        (
            Some(block),
            Some(b"\x00\x01\x02\x00\x00\x02\x00"),
            Verdict::Count { want: 4, have: 0 },
        ),
        (
            Some(block),
            Some(b"\x00\x01\x02\x00\x00\x02\x00\xe3\x06\x92\x83\x00"),
            Verdict::Count { want: 4, have: 5 },
        ),
        (
            Some(block),
            Some(b"\x00\x01\x02\x00\x00\x02\x00\xe3\x06\x92\x83\x00\x00\x00"),
            Verdict::Count { want: 4, have: 5 },
        ),
        (
            Some(block),
            Some(b"\x00\x01\x00\x00\x00\x02\x00"),
            Verdict::Whole,
        ),
        (
            Some(block),
            Some(b"\x00\x01\x00\x00\x00\x02\x00\x11"),
            Verdict::Whole,
        ),
        (
            Some(b"12345"),
            Some(b"\x00\x01\x02\x00\x00\x02\x00\xe3\x06\x92\x83"),
            Verdict::Short { want: 9, have: 5 },
        ),
        (
            Some(block),
            None,
            Verdict::Meta(MetaFault::Short { have: 0 }),
        ),
        (
            None,
            Some(b"\x00\x01\x02\x00\x00\x02\x00\xe3\x06\x92\x83"),
            Verdict::Short { want: 9, have: 0 },
        ),
        (
            None,
            Some(b"\x00\x01\x00\x00\x00\x02\x00"),
            Verdict::Short { want: 9, have: 0 },
        ),
    ];
    for (block, meta, want) in rows {
        for most in [1usize, 4, 1000] {
            let mut buf = [0u8; 4];
            let mut block = file(alloc, block, most, 1000)?;
            let mut meta = file(alloc, meta, most, 1000)?;
            let verdict = verify(&mut block, &mut meta, 9, &mut buf);
            assert!(rt; verdict == Ok(want), "in {most}");
        }
    }
    Ok(())
}

// 1,300 bytes in three chunks, whose checksums another program computed.
#[test]
fn the_first_bad_chunk_comes_before_missing_bytes(rt: HostRuntime) -> Result<(), Fail> {
    let alloc = rt.alloc();
    let meta: &[u8] =
        b"\x00\x01\x02\x00\x00\x02\x00\x30\x9c\x86\x81\x33\x88\xa5\x98\xda\x0d\xcd\xd9";
    let mut bytes = [0u8; 1300];
    for i in 0..1300usize {
        bytes[i] = (i % 251) as u8;
    }
    let rows = [
        (1300usize, 1300usize, Verdict::Whole),
        (
            1300,
            700,
            Verdict::BadChunk {
                chunk: 1,
                stored: 864_593_304,
                computed: 108_077_598,
            },
        ),
        (
            1299,
            1299,
            Verdict::Short {
                want: 1300,
                have: 1299,
            },
        ),
        (
            1299,
            700,
            Verdict::BadChunk {
                chunk: 1,
                stored: 864_593_304,
                computed: 108_077_598,
            },
        ),
        (
            1023,
            700,
            Verdict::Short {
                want: 1300,
                have: 1023,
            },
        ),
        (
            1300,
            1299,
            Verdict::BadChunk {
                chunk: 2,
                stored: 3_658_337_753,
                computed: 1_492_907_681,
            },
        ),
    ];
    for (len, flipped, want) in rows {
        for size in [1usize, 500, 512, 1024, 1300] {
            let mut changed = bytes;
            if flipped < 1300 {
                changed[flipped] ^= if flipped == 700 { 1 } else { 0x80 };
            }
            let mut buf = [0u8; 1300];
            let mut block = file(alloc, changed.get(..len), 1000, 10000)?;
            let mut meta = file(alloc, Some(meta), 1000, 10000)?;
            let verdict = verify(&mut block, &mut meta, 1300, &mut buf[..size]);
            assert!(rt; verdict == Ok(want), "at {len} in {size}");
        }
    }
    Ok(())
}

#[test]
fn a_read_that_fails_fails_the_check(rt: HostRuntime) -> Result<(), Fail> {
    let alloc = rt.alloc();
    let meta: &[u8] = b"\x00\x01\x02\x00\x00\x02\x00\xe3\x06\x92\x83";
    let mut buf = [0u8; 4];
    for reads in 0..6usize {
        let mut block = file(alloc, Some(b"123456789"), 9, reads)?;
        let mut whole = file(alloc, Some(meta), 9, 100)?;
        assert_eq!(rt;
            verify(&mut block, &mut whole, 9, &mut buf).is_ok(),
            reads >= 3,
            "block {reads}"
        );
        let mut whole = file(alloc, Some(b"123456789"), 9, 100)?;
        let mut meta = file(alloc, Some(meta), 9, reads)?;
        assert_eq!(rt;
            verify(&mut whole, &mut meta, 9, &mut buf).is_ok(),
            reads >= 4,
            "meta {reads}"
        );
    }
    Ok(())
}

// A writer into two drafts in memory.
fn writer(alloc: Global, reserved: u64, block: Answers, meta: Answers) -> Option<Writing<NoDisks>> {
    let sums = reserve_sums(alloc, reserved).ok()?;
    let block = KeptDraft {
        bytes: Vec::new(alloc),
        answers: block,
    };
    let meta = KeptDraft {
        bytes: Vec::new(alloc),
        answers: meta,
    };
    Some(Writing::new(
        BlockId::new(5)?,
        Stamp::new(1001)?,
        1,
        reserved,
        sums,
        block,
        meta,
    ))
}

// The bytes of a block and of its meta file, where the block was pushed in two pieces.
fn written(alloc: Global, bytes: &[u8], cut: usize) -> Option<(Vec<u8>, Vec<u8>)>
    requires { cut ≤ length bytes.now }
{
    let mut writer = writer(alloc, bytes.len() as u64, Answers::Ok, Answers::Ok)?;
    if !writer.is_whole() || writer.push(&bytes[..cut]).is_err() || !writer.is_whole() {
        return None;
    }
    if writer.push(&bytes[cut..]).is_err() || !writer.is_whole() {
        return None;
    }
    match writer.seal() {
        Ok(pair) => Some((pair.block.bytes, pair.meta.bytes)),
        Err(_) => None,
    }
}

#[test]
fn pushed_bytes_get_their_meta_file(rt: HostRuntime) -> Result<(), Fail> {
    let alloc = rt.alloc();
    for cut in 0..10usize {
        let Some((block, meta)) = written(alloc, b"123456789", cut) else {
            panic!(rt; "not written at {cut}");
        };
        assert_eq!(rt; block.as_slice(), b"123456789".as_slice(), "at {cut}");
        assert_eq!(rt;
            meta.as_slice(),
            b"\x00\x01\x02\x00\x00\x02\x00\xe3\x06\x92\x83".as_slice(),
            "at {cut}"
        );
    }
    let bytes = [7u8; 513];
    for (len, want) in [(0usize, 7usize), (1, 11), (512, 11), (513, 15)] {
        let Some((block, meta)) = written(alloc, bytes.get(..len).unwrap_or(&[]), 0) else {
            panic!(rt; "not written of {len}");
        };
        assert_eq!(rt; block.len(), len);
        assert_eq!(rt; meta.len(), want, "of {len}");
    }
    Ok(())
}

// What a push of `123456789` answers, and whether the writer is whole then.
fn pushed(
    alloc: Global,
    reserved: u64,
    block: Answers,
) -> Option<(Result<(), PushFault>, bool, u64)> {
    let mut writer = writer(alloc, reserved, block, Answers::Ok)?;
    if !writer.is_whole() {
        return None;
    }
    let answer = writer.push(b"123456789");
    Some((answer, writer.is_whole(), writer.len))
}

#[test]
fn a_push_that_is_not_done_is_answered(rt: HostRuntime) {
    let alloc = rt.alloc();
    let rows = [
        (9u64, Answers::Ok, (Ok(()), true, 9u64)),
        (8, Answers::Ok, (Err(PushFault::Over { left: 8 }), true, 0)),
        (9, Answers::NoMemory, (Err(PushFault::Memory), true, 0)),
        (9, Answers::AppendFails, (Err(PushFault::Failed), false, 0)),
    ];
    for (reserved, answers, want) in rows {
        assert!(rt;
            pushed(alloc, reserved, answers) == Some(want),
            "of {reserved}"
        );
    }
}

// What a seal answers, and whether the writer is whole then; none where it is sealed.
fn sealed(alloc: Global, block: Answers, meta: Answers) -> Option<(SealFault, bool)> {
    let writer = writer(alloc, 9, block, meta)?;
    if !writer.is_whole() {
        return None;
    }
    match writer.seal() {
        Ok(_) => None,
        Err((fault, writer)) => Some((fault, writer.is_whole())),
    }
}

#[test]
fn a_seal_that_is_not_done_is_answered(rt: HostRuntime) {
    let alloc = rt.alloc();
    let rows = [
        (Answers::Ok, Answers::Ok, None),
        (
            Answers::Ok,
            Answers::NoMemory,
            Some((SealFault::Memory, true)),
        ),
        (
            Answers::Ok,
            Answers::AppendFails,
            Some((SealFault::Failed, false)),
        ),
        (
            Answers::Ok,
            Answers::SealFails,
            Some((SealFault::Failed, false)),
        ),
        (
            Answers::SealFails,
            Answers::Ok,
            Some((SealFault::Failed, false)),
        ),
    ];
    for (block, meta, want) in rows {
        assert!(rt; sealed(alloc, block, meta) == want);
    }
}

// The meta file of a base, whose checksums another program computed.
const BASE_META: &[u8] = b"\x00\x01\x02\x00\x00\x02\x00\x30\x9c\x86\x81\x25\xa0\xbb\x26";

// A base of 600 bytes, of which the second chunk isn't full.
fn base_bytes() -> [u8; 600] {
    let mut bytes = [0u8; 600];
    for i in 0..600usize {
        bytes[i] = (i % 251) as u8;
    }
    bytes
}

// A writer that is to go on from a base of 600 bytes by four, into two drafts in memory. So many reads of the block's
// file are answered.
fn basing(
    alloc: Global,
    block: Option<&[u8]>,
    meta: Option<&[u8]>,
    reads: usize,
    answers: Answers,
) -> Option<Basing<NoDisks>> {
    Some(Basing {
        writer: writer(alloc, 604, answers, Answers::Ok)?,
        base_len: 600,
        block: file(alloc, block, 1000, reads).ok()?,
        meta: file(alloc, meta, 1000, 1000).ok()?,
    })
}

// What becomes of a base that is filled through so many bytes: the writer, or the fault, whether the writer is whole
// then, and how many bytes its block has.
fn filled(
    basing: Basing<NoDisks>,
    size: usize,
) -> Option<Result<Writing<NoDisks>, (BaseFault, bool, usize)>>
    requires some { 0 < size }
    requires few { size ≤ 1000 }
{
    let mut buf = [0u8; 1000];
    if !basing.writer.is_whole() || basing.base_len > basing.writer.left() {
        return None;
    }
    match basing.fill(&mut buf[..size]) {
        Ok(writer) => Some(Ok(writer)),
        Err((fault, writer)) => Some(Err((fault, writer.is_whole(), writer.block.bytes.len()))),
    }
}

// The bytes of a block and of its meta file, where `tail` was appended to a base with this meta file.
fn appended(alloc: Global, meta: &[u8], size: usize) -> Option<(Vec<u8>, Vec<u8>)>
    requires some { 0 < size }
    requires few { size ≤ 1000 }
{
    let basing = basing(alloc, Some(&base_bytes()), Some(meta), 2000, Answers::Ok)?;
    let Some(Ok(mut writer)) = filled(basing, size) else {
        return None;
    };
    if !writer.is_whole() || writer.push(b"tail").is_err() || !writer.is_whole() {
        return None;
    }
    match writer.seal() {
        Ok(pair) => Some((pair.block.bytes, pair.meta.bytes)),
        Err(_) => None,
    }
}

#[test]
fn an_append_has_its_base_in_front_and_new_checksums(rt: HostRuntime) -> Result<(), Fail> {
    let alloc = rt.alloc();
    let mut want = base_bytes().to_vec(alloc)?;
    want.extend_from_slice(b"tail")?;
    let other: &[u8] = b"\x00\x01\x01\x00\x00\x04\x00\xdf\xb2\x94\x3b";
    for meta in [BASE_META, other] {
        for size in [1usize, 100, 512, 1000] {
            let Some((block, meta)) = appended(alloc, meta, size) else {
                panic!(rt; "not appended through {size}");
            };
            assert!(rt; block.as_slice() == want.as_slice(), "through {size}");
            assert_eq!(rt;
                meta.as_slice(),
                b"\x00\x01\x02\x00\x00\x02\x00\x30\x9c\x86\x81\x4d\xb7\xc1\x06".as_slice(),
                "through {size}"
            );
        }
    }
    Ok(())
}

#[test]
fn a_base_that_is_not_whole_is_not_copied(rt: HostRuntime) {
    let alloc = rt.alloc();
    let base = base_bytes();
    let mut changed = base;
    changed[599] ^= 1;
    let rows: [(Option<&[u8]>, Option<&[u8]>, Verdict); 4] = [
        (
            Some(&changed),
            Some(BASE_META),
            Verdict::BadChunk {
                chunk: 1,
                stored: 631_290_662,
                computed: 3_620_419_621,
            },
        ),
        (
            Some(&base[..599]),
            Some(BASE_META),
            Verdict::Short {
                want: 600,
                have: 599,
            },
        ),
        (None, Some(BASE_META), Verdict::Short { want: 600, have: 0 }),
        (
            Some(&base),
            None,
            Verdict::Meta(MetaFault::Short { have: 0 }),
        ),
    ];
    for (block, meta, want) in rows {
        let Some(basing) = basing(alloc, block, meta, 1000, Answers::Ok) else {
            panic!(rt; "no memory");
        };
        let Some(Err(end)) = filled(basing, 100) else {
            panic!(rt; "copied");
        };
        assert!(rt; end == (BaseFault::Bad(want), true, 0));
    }
}

// The reads of 100 bytes that a copy makes come after six of the verification.
#[test]
fn a_base_that_is_copied_in_part_ends_its_writer(rt: HostRuntime) {
    let alloc = rt.alloc();
    let base = base_bytes();
    let rows = [
        (
            3usize,
            Answers::Ok,
            Some((BaseFault::Failed, false, 0usize)),
        ),
        (8, Answers::Ok, Some((BaseFault::Failed, false, 200))),
        (11, Answers::Ok, Some((BaseFault::Failed, false, 500))),
        (12, Answers::Ok, None),
        (12, Answers::NoMemory, Some((BaseFault::Memory, false, 0))),
        (
            12,
            Answers::AppendFails,
            Some((BaseFault::Failed, false, 0)),
        ),
    ];
    for (reads, answers, want) in rows {
        let Some(basing) = basing(alloc, Some(&base), Some(BASE_META), reads, answers) else {
            panic!(rt; "no memory");
        };
        let Some(end) = filled(basing, 100) else {
            panic!(rt; "not whole");
        };
        assert!(rt; end.err() == want, "after {reads}");
    }
}
