//! Replies to lines of clients, as they are printed.
ghost use Rattle.std.specs.Prelude.{◌≡◌};

use super::printing::is_printed;
use crate::bytes::Bytes;
use crate::reply::Reply;
use meta_file::{MetaFault, Verdict};
use std::alloc::Global;
use std::process::Abort;
use std::test::Fail;

// A reply without numbers, and its text.
fn word(n: usize) -> (Reply, &'static str) {
    match n {
        0 => (Reply::Done, "ok\n"),
        1 => (Reply::Exists, "exists\n"),
        2 => (Reply::NoBlock, "none\n"),
        3 => (Reply::Writing, "writing\n"),
        4 => (Reply::Waiting, "waiting\n"),
        5 => (Reply::Unsure, "unsure\n"),
        6 => (Reply::Failed, "failed\n"),
        7 => (Reply::Memory, "memory\n"),
        8 => (Reply::NoWriter, "nowriter\n"),
        _ => (Reply::Worn, "worn\n"),
    }
}

// A refusal with numbers, and its text.
fn refusal(n: usize) -> (Reply, &'static str) {
    match n {
        0 => (Reply::OldStamp { have: 1001 }, "oldstamp 1001\n"),
        1 => (Reply::Full { need: 9, free: 8 }, "full 9 8\n"),
        2 => (Reply::TooLong { limit: 134_217_728 }, "toolong 134217728\n"),
        _ => (Reply::Over { left: 0 }, "over 0\n"),
    }
}

// The reply on a header with a fault.
fn bad_header(fault: MetaFault) -> Reply {
    Reply::Bad(Verdict::Meta(fault))
}

// What a check of a block found, and its text.
fn verdict(n: usize) -> (Reply, &'static str) {
    match n {
        0 => (
            Reply::Bad(Verdict::Short { want: 5, have: 3 }),
            "short 5 3\n",
        ),
        1 => (
            Reply::Bad(Verdict::BadChunk {
                chunk: 0,
                stored: 4_294_967_295,
                computed: 3_808_858_755,
            }),
            "badchunk 0 4294967295 3808858755\n",
        ),
        2 => (
            Reply::Bad(Verdict::Count {
                want: 340_282_366_920_938_463_463_374_607_431_768_211_455,
                have: 4,
            }),
            "count 340282366920938463463374607431768211455 4\n",
        ),
        3 => (
            bad_header(MetaFault::Short { have: 6 }),
            "badmeta short 6\n",
        ),
        4 => (
            bad_header(MetaFault::Version { v: 65_535 }),
            "badmeta version 65535\n",
        ),
        5 => (bad_header(MetaFault::Kind { t: 255 }), "badmeta type 255\n"),
        _ => (bad_header(MetaFault::Step { n: 0 }), "badmeta step 0\n"),
    }
}

// A reply, and its text.
fn row(n: usize) -> (Reply, &'static str) {
    match n {
        0..=9 => word(n),
        10..=13 => refusal(n - 10),
        _ => verdict(n.saturating_sub(14)),
    }
}

// Whether the bytes of a block are printed so.
fn are_printed(alloc: Global, stamp: u64, bytes: &[u8], want: &str) -> bool {
    match Bytes::from_slice(alloc, bytes) {
        Ok(bytes) => is_printed(alloc, Reply::Data { stamp, bytes }, want),
        Err(_) => false,
    }
}

// Whether a reply is printed as it should be.
fn is_row_printed(alloc: Global, n: usize) -> bool {
    if n == 21 {
        return are_printed(alloc, 7, b"", "data 7 \n");
    }
    if n == 22 {
        return are_printed(alloc, 1001, b"\x00a\xff", "data 1001 0061ff\n");
    }
    let (reply, want) = row(n);
    is_printed(alloc, reply, want)
}

#[test]
fn replies_are_printed(rt: HostRuntime) {
    let alloc = rt.alloc();
    for n in 0..23 {
        assert!(rt; is_row_printed(alloc, n), "at {n}");
    }
}
