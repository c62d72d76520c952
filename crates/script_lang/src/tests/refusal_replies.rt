//! Why a plan isn't submitted, as it is printed in reply to a line and in the line of a job.
ghost use Rattle.std.specs.Prelude.{◌≡◌};

use super::printing::{is_printed, is_printed_of_job};
use crate::reply::Reply;
use crate::reply::balancer_reply::BalancerReply;
use crate::reply::job_reply::JobReply;
use crate::reply::plan_member::PlanMember;
use crate::reply::plan_refusal::PlanRefusal;
use crate::text::Text;
use std::alloc::{AllocError, Global};
use std::process::Abort;
use std::test::Fail;

// A refusal without a text in it, and what it prints.
fn word(n: usize) -> (PlanRefusal, &'static str) {
    match n {
        0 => (PlanRefusal::InProgress, "inprogress\n"),
        1 => (
            PlanRefusal::InvalidVersion { version: 2 },
            "invalidversion 2\n",
        ),
        2 => (
            PlanRefusal::OldPlan { age: 86_400_001 },
            "oldplan 86400001\n",
        ),
        3 => (PlanRefusal::NodeMismatch, "nodemismatch\n"),
        _ => (PlanRefusal::InvalidMove { step: 1 }, "invalidmove 1\n"),
    }
}

// A member of a plan, and what its refusal prints.
fn member(n: usize) -> (PlanMember, &'static str) {
    match n {
        0 => (PlanMember::Text, "malformed text\n"),
        1 => (PlanMember::NodeUuid, "malformed nodeUUID\n"),
        2 => (PlanMember::TimeStamp, "malformed timeStamp\n"),
        3 => (PlanMember::VolumeSetPlans, "malformed volumeSetPlans\n"),
        4 => (PlanMember::SourceVolume, "malformed sourceVolume\n"),
        5 => (
            PlanMember::DestinationVolume,
            "malformed destinationVolume\n",
        ),
        6 => (PlanMember::BytesToMove, "malformed bytesToMove\n"),
        7 => (PlanMember::Bandwidth, "malformed bandwidth\n"),
        8 => (PlanMember::TolerancePercent, "malformed tolerancePercent\n"),
        _ => (PlanMember::MaxDiskErrors, "malformed maxDiskErrors\n"),
    }
}

// A refusal of a volume, and what it prints.
fn of_volume(alloc: Global) -> Result<(PlanRefusal, &'static str), AllocError> {
    let uuid = Text::from_text(alloc, "\na\r\n")?;
    Ok((PlanRefusal::InvalidVolume { uuid }, "invalidvolume ?a\r?\n"))
}

// A refusal of an id, and what it prints.
fn of_id(alloc: Global) -> Result<(PlanRefusal, &'static str), AllocError> {
    let want = Text::from_text(alloc, "X")?;
    let have = Text::from_text(alloc, "bf21")?;
    Ok((
        PlanRefusal::HashMismatch { want, have },
        "hashmismatch X bf21\n",
    ))
}

// A refusal, and what it prints.
fn row(alloc: Global, n: usize) -> Result<(PlanRefusal, &'static str), AllocError> {
    match n {
        0..=4 => Ok(word(n)),
        5..=14 => {
            let (member, want) = member(n - 5);
            Ok((PlanRefusal::Malformed { member }, want))
        }
        15 => of_volume(alloc),
        _ => of_id(alloc),
    }
}

// Whether a refusal is printed as it should be in reply to a line.
fn is_refusal_printed(alloc: Global, n: usize) -> bool {
    match row(alloc, n) {
        Ok((refusal, want)) => {
            let reply = Reply::Balancer(BalancerReply::Refused { refusal });
            is_printed(alloc, reply, want)
        }
        Err(_) => false,
    }
}

// Whether a refusal is printed as it should be in the line of a job.
fn is_job_refused(alloc: Global, n: usize) -> bool {
    match row(alloc, n) {
        Ok((refusal, want)) => {
            let reply = Reply::Job(JobReply::PlanRefused { refusal });
            is_printed_of_job(alloc, reply, want)
        }
        Err(_) => false,
    }
}

#[test]
fn refusals_are_printed(rt: HostRuntime) {
    let alloc = rt.alloc();
    for n in 0..17 {
        assert!(rt;
            is_refusal_printed(alloc, n) && is_job_refused(alloc, n),
            "at {n}"
        );
    }
}
