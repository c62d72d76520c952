//! Replies about moves, as they are printed.
ghost use Rattle.std.specs.Prelude.{◌≡◌};

use super::printing::is_printed;
use crate::reply::Reply;
use crate::reply::move_reply::MoveReply;
use crate::reply::skip::Skip;
use std::alloc::Global;
use std::process::Abort;
use std::test::Fail;

// What is answered to the beginning of a move, and its text.
fn begun(n: usize) -> (MoveReply, &'static str) {
    match n {
        0 => (MoveReply::Moving { len: 1 }, "moving 1\n"),
        1 => (MoveReply::Skipped { why: Skip::Gone }, "skipped gone\n"),
        2 => (
            MoveReply::Skipped { why: Skip::Writing },
            "skipped writing\n",
        ),
        3 => (MoveReply::Skipped { why: Skip::Unsure }, "skipped unsure\n"),
        4 => (MoveReply::Skipped { why: Skip::Moving }, "skipped moving\n"),
        5 => (MoveReply::Skipped { why: Skip::Same }, "skipped same\n"),
        6 => (
            MoveReply::Skipped {
                why: Skip::Leftover { stamp: 1001 },
            },
            "skipped leftover 1001\n",
        ),
        7 => (
            MoveReply::Skipped {
                why: Skip::NoRoom { need: 9, free: 8 },
            },
            "skipped noroom 9 8\n",
        ),
        _ => (
            MoveReply::Skipped {
                why: Skip::Changed { want: 1, have: 3 },
            },
            "skipped changed 1 3\n",
        ),
    }
}

// What is answered to the rest of it and to a sweep, and its text.
fn carried_out(n: usize) -> (MoveReply, &'static str) {
    match n {
        0 => (MoveReply::NoMove, "nomove\n"),
        1 => (MoveReply::Copied { total: 1 }, "copied 1\n"),
        2 => (MoveReply::Sealed, "sealed\n"),
        3 => (MoveReply::Uncopied { left: 2 }, "uncopied 2\n"),
        4 => (MoveReply::Moved { bytes: 1 }, "moved 1\n"),
        5 => (MoveReply::Unsealed, "unsealed\n"),
        6 => (MoveReply::Swept { id: 5 }, "swept 5\n"),
        _ => (MoveReply::Nothing, "nothing\n"),
    }
}

// A reply, and its text.
fn row(n: usize) -> (MoveReply, &'static str) {
    match n {
        0..=8 => begun(n),
        _ => carried_out(n.saturating_sub(9)),
    }
}

// Whether a reply is printed as it should be.
fn is_row_printed(alloc: Global, n: usize) -> bool {
    let (reply, want) = row(n);
    is_printed(alloc, Reply::Move(reply), want)
}

#[test]
fn replies_about_moves(rt: HostRuntime) {
    let alloc = rt.alloc();
    for n in 0..17 {
        assert!(rt; is_row_printed(alloc, n), "at {n}");
    }
}
