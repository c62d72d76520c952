//! Replies about scans, as they are printed.
ghost use Rattle.std.specs.Prelude.{◌≡◌};

use super::printing::is_printed;
use crate::reply::Reply;
use crate::reply::cursor_member::CursorMember;
use crate::reply::kept::Kept;
use crate::reply::scan_reply::ScanReply;
use meta_file::{MetaFault, Verdict};
use std::alloc::Global;
use std::process::Abort;
use std::test::Fail;

// What is answered about directories, and its text.
fn of_directories(n: usize) -> (ScanReply, &'static str) {
    match n {
        0 => (ScanReply::Listed { n: 1 }, "listed 1\n"),
        1 => (ScanReply::Differences { n: 1 }, "differences 1\n"),
        2 => (ScanReply::NoListing, "nolisting\n"),
        3 => (ScanReply::FixedIgnored, "fixed ignored\n"),
        4 => (ScanReply::FixedLost, "fixed lost\n"),
        5 => (ScanReply::FixedFound, "fixed found\n"),
        6 => (ScanReply::FixedRemoved, "fixed removed\n"),
        7 => (
            ScanReply::FixedKept {
                kept: Kept::Length { want: 3, have: 2 },
            },
            "fixed kept length 3 2\n",
        ),
        8 => (
            ScanReply::FixedKept { kept: Kept::NoMeta },
            "fixed kept nometa\n",
        ),
        9 => (
            ScanReply::FixedKept {
                kept: Kept::Second {
                    stamp: 1002,
                    len: 6,
                },
            },
            "fixed kept second 1002 6\n",
        ),
        10 => (
            ScanReply::FixedKept { kept: Kept::Worn },
            "fixed kept worn\n",
        ),
        _ => (ScanReply::NoDifference, "nodiff\n"),
    }
}

// What is answered about blocks and cursors of a volume, and its text.
fn of_volumes(n: usize) -> (ScanReply, &'static str) {
    match n {
        0 => (
            ScanReply::CursorAt {
                d1: 0,
                d2: 31,
                id: 5,
            },
            "cursor 0 31 5\n",
        ),
        1 => (ScanReply::CursorAbsent, "cursor none\n"),
        2 => (ScanReply::CursorSyntax, "cursor syntax\n"),
        3 => (ScanReply::Block { id: 261, rev: 4 }, "block 261 4\n"),
        4 => (ScanReply::AtEnd, "atend\n"),
        5 => (ScanReply::NoCheck, "nocheck\n"),
        6 => (ScanReply::Noted, "noted\n"),
        7 => (ScanReply::Gone, "gone\n"),
        8 => (ScanReply::Changed { want: 1, have: 3 }, "changed 1 3\n"),
        _ => (ScanReply::Unchecked, "unchecked\n"),
    }
}

// A verdict, and its text in a reply.
fn verdict(n: usize) -> (Verdict, &'static str) {
    match n {
        0 => (Verdict::Whole, "verdict whole\n"),
        1 => (
            Verdict::BadChunk {
                chunk: 1,
                stored: 2,
                computed: 3,
            },
            "verdict badchunk 1 2 3\n",
        ),
        2 => (Verdict::Count { want: 8, have: 4 }, "verdict count 8 4\n"),
        3 => (Verdict::Short { want: 5, have: 3 }, "verdict short 5 3\n"),
        4 => (
            Verdict::Meta(MetaFault::Short { have: 6 }),
            "verdict badmeta short 6\n",
        ),
        5 => (
            Verdict::Meta(MetaFault::Version { v: 2 }),
            "verdict badmeta version 2\n",
        ),
        6 => (
            Verdict::Meta(MetaFault::Kind { t: 3 }),
            "verdict badmeta type 3\n",
        ),
        _ => (
            Verdict::Meta(MetaFault::Step { n: 0 }),
            "verdict badmeta step 0\n",
        ),
    }
}

// A member of a cursor, and its text in a reply.
fn member(n: usize) -> (CursorMember, &'static str) {
    match n {
        0 => (CursorMember::AtEnd, "cursor member atEnd\n"),
        1 => (CursorMember::D1, "cursor member d1\n"),
        2 => (CursorMember::D2, "cursor member d2\n"),
        3 => (CursorMember::Id, "cursor member id\n"),
        4 => (CursorMember::IterStartMs, "cursor member iterStartMs\n"),
        _ => (CursorMember::LastSavedMs, "cursor member lastSavedMs\n"),
    }
}

// What is answered about a check of a block or a member of a cursor, and its text.
fn of_parts(n: usize) -> (ScanReply, &'static str) {
    if n < 8 {
        let (verdict, want) = verdict(n);
        return (ScanReply::Verdict { verdict }, want);
    }
    let (member, want) = member(n - 8);
    (ScanReply::CursorMember { member }, want)
}

// A reply, and its text.
fn row(n: usize) -> (ScanReply, &'static str) {
    match n {
        0..=11 => of_directories(n),
        12..=21 => of_volumes(n - 12),
        _ => of_parts(n.saturating_sub(22)),
    }
}

// Whether a reply is printed as it should be.
fn is_row_printed(alloc: Global, n: usize) -> bool {
    let (reply, want) = row(n);
    is_printed(alloc, Reply::Scan(reply), want)
}

#[test]
fn replies_about_scans(rt: HostRuntime) {
    let alloc = rt.alloc();
    for n in 0..36 {
        assert!(rt; is_row_printed(alloc, n), "at {n}");
    }
}
