//! Replies of the mover, as they are printed.
ghost use Rattle.std.specs.Prelude.{◌≡◌};

use super::printing::is_printed;
use crate::reply::Reply;
use crate::reply::mover_reply::MoverReply;
use crate::reply::skip::Skip;
use meta_file::{MetaFault, Verdict};
use std::alloc::Global;
use std::process::Abort;
use std::test::Fail;

// What is answered up to the beginning of a move, and its text.
fn looked(n: usize) -> (MoverReply, &'static str) {
    match n {
        0 => (MoverReply::Idle, "mover idle\n"),
        1 => (MoverReply::StepDone { step: 1 }, "mover stepend 1 done\n"),
        2 => (
            MoverReply::StepErrorLimit { step: 1, errors: 6 },
            "mover stepend 1 errorlimit 6\n",
        ),
        3 => (
            MoverReply::StepNoBlock { step: 1 },
            "mover stepend 1 noblock\n",
        ),
        4 => (MoverReply::Task { step: 1 }, "mover task 1\n"),
        5 => (MoverReply::Moving { id: 5 }, "mover moving 5\n"),
        6 => (
            MoverReply::Skipped {
                id: 5,
                why: Skip::Changed { want: 1, have: 3 },
            },
            "mover skipped 5 changed 1 3\n",
        ),
        7 => (MoverReply::NoneIn { pool: 2 }, "mover nonein 2\n"),
        8 => (MoverReply::NoBlock { step: 1 }, "mover noblock 1\n"),
        9 => (MoverReply::Failed { id: 5 }, "mover failed 5\n"),
        10 => (MoverReply::Worn, "mover worn\n"),
        _ => (MoverReply::Memory, "mover memory\n"),
    }
}

// What is answered to the rest of it, and its text.
fn carried_out(n: usize) -> (MoverReply, &'static str) {
    match n {
        0 => (MoverReply::Copied { id: 5, total: 5 }, "mover copied 5 5\n"),
        1 => (
            MoverReply::Bad {
                id: 5,
                verdict: Verdict::Meta(MetaFault::Short { have: 0 }),
            },
            "mover bad 5 badmeta short 0\n",
        ),
        2 => (MoverReply::Sealed { id: 5 }, "mover sealed 5\n"),
        3 => (MoverReply::Moved { id: 5, bytes: 5 }, "mover moved 5 5\n"),
        4 => (MoverReply::Dropped { id: 5 }, "mover dropped 5\n"),
        5 => (MoverReply::Counted { step: 1 }, "mover counted 1\n"),
        6 => (MoverReply::Stale, "mover stale\n"),
        7 => (MoverReply::Swept, "mover swept\n"),
        8 => (MoverReply::Nothing, "mover nothing\n"),
        9 => (MoverReply::SweepFailed, "mover sweepfailed\n"),
        _ => (MoverReply::Rest { until: 1 }, "mover rest 1\n"),
    }
}

// A reply, and its text.
fn row(n: usize) -> (MoverReply, &'static str) {
    match n {
        0..=11 => looked(n),
        _ => carried_out(n.saturating_sub(12)),
    }
}

// Whether a reply is printed as it should be.
fn is_row_printed(alloc: Global, n: usize) -> bool {
    let (reply, want) = row(n);
    is_printed(alloc, Reply::Mover(reply), want)
}

#[test]
fn replies_of_the_mover(rt: HostRuntime) {
    let alloc = rt.alloc();
    for n in 0..23 {
        assert!(rt; is_row_printed(alloc, n), "at {n}");
    }
}
