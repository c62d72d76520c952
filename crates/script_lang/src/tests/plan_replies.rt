//! Replies about the submitted plan, as they are printed.
ghost use Rattle.std.specs.Prelude.{◌≡◌};

use super::printing::is_printed;
use crate::listed::Listed;
use crate::reply::Reply;
use crate::reply::balancer_reply::BalancerReply;
use crate::reply::plan::StepRow;
use crate::reply::plan_state::PlanState;
use crate::reply::step_end::StepEnd;
use crate::text::Text;
use std::alloc::{AllocError, Global};
use std::process::Abort;
use std::test::Fail;

// A reply with a text in it, and what it prints.
fn with_text(alloc: Global, n: usize) -> Result<(BalancerReply, &'static str), AllocError> {
    let id = Text::from_text(alloc, "bf21")?;
    let row = match n {
        0 => (BalancerReply::Submitted { id }, "ok bf21\n"),
        _ => (BalancerReply::NoSuchPlan { id }, "nosuchplan bf21\n"),
    };
    Ok(row)
}

// Whether such a reply is printed as it should be.
fn is_text_printed(alloc: Global, n: usize) -> bool {
    match with_text(alloc, n) {
        Ok((reply, want)) => is_printed(alloc, Reply::Balancer(reply), want),
        Err(_) => false,
    }
}

// A step of this end.
fn step(end: StepEnd) -> StepRow {
    StepRow {
        k: 1,
        from: 2,
        to: 3,
        planned: 4,
        copied: 5,
        blocks: 6,
        errors: 7,
        end,
    }
}

// A plan of this state without steps.
fn empty_plan(alloc: Global, state: PlanState) -> BalancerReply {
    BalancerReply::Plan {
        number: 9,
        state,
        id: None,
        steps: Listed::new(Vec::new(alloc)),
    }
}

const ENDS: [StepEnd; 5] = [
    StepEnd::Open,
    StepEnd::Done,
    StepEnd::Cancelled,
    StepEnd::ErrorLimit,
    StepEnd::NoBlock,
];

// A plan under way, with a step of each end.
fn plan(alloc: Global) -> Result<BalancerReply, AllocError> {
    let mut steps = Vec::new(alloc);
    for end in &ENDS {
        steps.push(step(*end))?;
    }
    let id = Text::from_text(alloc, "bf21")?;
    Ok(BalancerReply::Plan {
        number: 9,
        state: PlanState::UnderProgress,
        id: Some(id),
        steps: Listed::new(steps),
    })
}

const PLAN: &str = "\
    plan 9 PLAN_UNDER_PROGRESS bf21\n\
    step 1 2 3 4 5 6 7 open\n\
    step 1 2 3 4 5 6 7 done\n\
    step 1 2 3 4 5 6 7 cancelled\n\
    step 1 2 3 4 5 6 7 errorlimit\n\
    step 1 2 3 4 5 6 7 noblock\n";

// Whether it is printed as it should be.
fn is_plan_printed(alloc: Global) -> bool {
    match plan(alloc) {
        Ok(reply) => is_printed(alloc, Reply::Balancer(reply), PLAN),
        Err(_) => false,
    }
}

// A state without a plan under way, and what a plan of it without steps prints.
fn state(n: usize) -> (PlanState, &'static str) {
    match n {
        0 => (PlanState::NoPlan, "plan 9 NO_PLAN -\n"),
        1 => (PlanState::Done, "plan 9 PLAN_DONE -\n"),
        _ => (PlanState::Cancelled, "plan 9 PLAN_CANCELLED -\n"),
    }
}

// Whether a plan without steps is printed as it should be.
fn is_state_printed(alloc: Global, n: usize) -> bool {
    let (state, want) = state(n);
    is_printed(alloc, Reply::Balancer(empty_plan(alloc, state)), want)
}

// Whether a reply is printed as it should be.
fn is_row_printed(alloc: Global, n: usize) -> bool {
    match n {
        0..=1 => is_text_printed(alloc, n),
        2..=4 => is_state_printed(alloc, n - 2),
        _ => is_plan_printed(alloc),
    }
}

#[test]
fn replies_about_plans(rt: HostRuntime) {
    let alloc = rt.alloc();
    for n in 0..6 {
        assert!(rt; is_row_printed(alloc, n), "at {n}");
    }
}
