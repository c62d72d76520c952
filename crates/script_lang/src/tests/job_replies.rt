//! The lines of jobs, as they are printed.
ghost use Rattle.std.specs.Prelude.{◌≡◌};

use super::printing::is_printed;
use crate::reply::Reply;
use crate::reply::job_reply::JobReply;
use std::alloc::Global;
use std::process::Abort;
use std::test::Fail;

// The line of a job, and its text. The greatest number is 1,024 times 2^64 - 1.
fn row(n: usize) -> (JobReply, &'static str) {
    match n {
        0 => (
            JobReply::PlanDone {
                blocks: 1,
                bytes: 123,
                errors: 0,
            },
            "execute PLAN_DONE 1 123 0\n",
        ),
        1 => (
            JobReply::PlanCancelled {
                blocks: 2,
                bytes: 18_889_465_931_478_580_853_760,
                errors: 3,
            },
            "execute PLAN_CANCELLED 2 18889465931478580853760 3\n",
        ),
        2 => (JobReply::PlanMemory, "execute memory\n"),
        3 => (
            JobReply::DirScanned {
                lost: 1,
                found: 2,
                removed: 3,
                kept: 4,
                failed: 5,
            },
            "dirscan 1 2 3 4 5\n",
        ),
        4 => (JobReply::DirScanMemory, "dirscan memory\n"),
        5 => (
            JobReply::VolScanned {
                whole: 600,
                bad: 1,
                changed: 2,
                failed: 3,
            },
            "volscan 600 1 2 3\n",
        ),
        6 => (JobReply::VolScanMemory, "volscan memory\n"),
        _ => (JobReply::VolScanNoVolume, "volscan novolume\n"),
    }
}

// Whether the line of a job is printed as it should be.
fn is_row_printed(alloc: Global, n: usize) -> bool {
    let (reply, want) = row(n);
    is_printed(alloc, Reply::Job(reply), want)
}

#[test]
fn lines_of_jobs_are_printed(rt: HostRuntime) {
    let alloc = rt.alloc();
    for n in 0..8 {
        assert!(rt; is_row_printed(alloc, n), "at {n}");
    }
}
