//! A table at work: what each call answers, one after the other.
use super::*;
use plan_json::{plan_id, read_plan};
use std::alloc::Global;
use std::test::Fail;

/// A plan of two steps, for the node `DN-1`: 1,000 bytes from `DS-1` to `DS-2` within 10 percent, and 10 bytes back, which
/// may have one error.
const TWO_STEPS: &str = "{\"nodeUUID\":\"DN-1\",\"timeStamp\":0,\"volumeSetPlans\":[\
    {\"bytesToMove\":1000,\"destinationVolume\":{\"uuid\":\"DS-2\"},\"sourceVolume\":{\"uuid\":\"DS-1\"}},\
    {\"bandwidth\":3,\"bytesToMove\":10,\"destinationVolume\":{\"uuid\":\"DS-1\"},\"maxDiskErrors\":1,\
    \"sourceVolume\":{\"uuid\":\"DS-2\"},\"tolerancePercent\":1}]}";

/// A plan without steps.
const NO_STEPS: &str = "{\"nodeUUID\":\"DN-1\",\"timeStamp\":0,\"volumeSetPlans\":[]}";

/// A call of a table.
#[derive(Clone, Copy)]
enum Call {
    /// The plan of this text is submitted.
    Submit(&'static str),
    /// The plan of this text is cancelled.
    Cancel(&'static str),
    /// What is next is asked for.
    Task,
    /// Something is counted for a step of the plan of this number.
    Count(u64, u32, Counted),
    /// The work is asked for.
    Query,
}

/// Reads a plan and submits it to a node with these volumes; what comes of it, in a word.
fn submitted_to(
    alloc: Global,
    table: &mut WorkTable,
    text: &str,
    volumes: &[String],
) -> &'static str {
    if volumes.len() > 64 || table.query().plan_no >= 1 << 63 {
        return "too many";
    }
    let id = plan_id(text.as_bytes());
    match read_plan(
        alloc,
        text.as_bytes(),
        id.as_str(),
        1,
        false,
        0,
        "DN-1",
        volumes,
    ) {
        Err(_) => "refused",
        Ok(plan) => match table.submit(alloc, plan, id, volumes) {
            Ok(()) => "ok",
            Err(SubmitFault::InProgress) => "inprogress",
            Err(SubmitFault::Memory) => "memory",
        },
    }
}

/// Reads a plan and submits it to a node with the volumes `DS-1` and `DS-2`; what comes of it, in a word.
fn submitted(alloc: Global, table: &mut WorkTable, text: &str) -> Result<&'static str, Fail> {
    let mut volumes = Vec::new(alloc);
    volumes.push(String::from_str(alloc, "DS-1")?)?;
    volumes.push(String::from_str(alloc, "DS-2")?)?;
    Ok(submitted_to(alloc, table, text, volumes.as_slice()))
}

/// Cancels the plan of a text; what comes of it, in a word.
fn cancelled(table: &mut WorkTable, text: &str) -> &'static str {
    let id = plan_id(text.as_bytes());
    match table.cancel(id.as_str()) {
        Ok(()) => "ok",
        Err(NoSuchPlan {}) => "nosuchplan",
    }
}

/// What is next, in one line.
fn told_task(alloc: Global, task: TaskEnd) -> Result<String, Fail> {
    match task {
        TaskEnd::Idle => Ok(String::from_str(alloc, "idle")?),
        TaskEnd::Task {
            plan_no,
            step,
            from,
            to,
            left,
            tolerance,
            bandwidth,
        } => Ok(format!(in alloc;
            "task {plan_no} {step} {from} {to} {left} {tolerance} {bandwidth}"
        )?),
        TaskEnd::StepEnd { step, end } => Ok(format!(in alloc; "end {step} {end}")?),
    }
}

/// Counts for a step of the plan, where it has that step; what comes of it, in one line.
fn told_count(
    alloc: Global,
    table: &mut WorkTable,
    plan_no: u64,
    step: u32,
    what: Counted,
) -> Result<String, Fail> {
    if step < 1 || step as usize > table.query().steps.as_slice().len() {
        return Ok(String::from_str(alloc, "nostep")?);
    }
    match table.count(plan_no, step, what) {
        CountEnd::Counted => Ok(String::from_str(alloc, "counted")?),
        CountEnd::Stale { want, have } => Ok(format!(in alloc; "stale {want} {have}")?),
    }
}

/// The work in one line: the number and state of the plan, and its steps.
fn told_work(alloc: Global, work: &Work) -> Result<String, Fail> {
    let number = work.plan_no;
    let state = work.state;
    let mut told = format!(in alloc; "{number} {state}")?;
    for step in work.steps.as_slice() {
        let StepWork {
            from,
            to,
            planned,
            copied,
            blocks,
            errors,
            end,
        } = *step;
        let line = format!(in alloc; ", {from} {to} {planned} {copied} {blocks} {errors} {end}")?;
        told.push_str(line.as_str())?;
    }
    Ok(told)
}

/// Makes a call; what comes of it, in one line.
fn told(alloc: Global, table: &mut WorkTable, call: Call) -> Result<String, Fail> {
    match call {
        Call::Submit(text) => Ok(String::from_str(alloc, submitted(alloc, table, text)?)?),
        Call::Cancel(text) => Ok(String::from_str(alloc, cancelled(table, text))?),
        Call::Task => told_task(alloc, table.task()),
        Call::Count(plan_no, step, what) => told_count(alloc, table, plan_no, step, what),
        Call::Query => told_work(alloc, table.query()),
    }
}

#[test]
fn plans_come_to_their_ends(rt: HostRuntime) -> Result<(), Fail> {
    let alloc = rt.alloc();
    let mut table = WorkTable::make(alloc);
    for (call, want) in [
        (Call::Query, "0 NO_PLAN"),
        (Call::Task, "idle"),
        (Call::Cancel(TWO_STEPS), "nosuchplan"),
        (Call::Submit(TWO_STEPS), "ok"),
        (Call::Submit(NO_STEPS), "inprogress"),
        (Call::Task, "task 1 1 1 2 1000 10 10"),
        (Call::Count(1, 1, Counted::Moved { bytes: 909 }), "counted"),
        (Call::Task, "task 1 1 1 2 91 10 10"),
        (Call::Count(1, 1, Counted::Moved { bytes: 1 }), "counted"),
        (Call::Task, "end 1 done"),
        (Call::Task, "task 1 2 2 1 10 1 3"),
        (Call::Count(1, 2, Counted::Error), "counted"),
        (Call::Task, "task 1 2 2 1 10 1 3"),
        (Call::Count(1, 2, Counted::Error), "counted"),
        (Call::Task, "end 2 errorlimit"),
        (Call::Task, "idle"),
        (
            Call::Query,
            "1 PLAN_DONE, 1 2 1000 910 2 0 done, 2 1 10 0 0 2 errorlimit",
        ),
        (Call::Submit(TWO_STEPS), "ok"),
        (Call::Count(2, 1, Counted::NoBlock), "counted"),
        (Call::Cancel(NO_STEPS), "nosuchplan"),
        (Call::Cancel(TWO_STEPS), "ok"),
        (
            Call::Count(2, 2, Counted::Moved { bytes: u64::MAX }),
            "counted",
        ),
        (
            Call::Count(2, 2, Counted::Moved { bytes: u64::MAX }),
            "counted",
        ),
        (Call::Count(2, 2, Counted::NoBlock), "counted"),
        (
            Call::Query,
            "2 PLAN_CANCELLED, 1 2 1000 0 0 0 noblock, 2 1 10 18446744073709551615 2 0 cancelled",
        ),
        (Call::Task, "idle"),
        (Call::Submit(TWO_STEPS), "ok"),
        (Call::Count(2, 1, Counted::Error), "stale 2 3"),
        (Call::Count(3, 2, Counted::NoBlock), "counted"),
        (Call::Count(3, 1, Counted::NoBlock), "counted"),
        (Call::Cancel(TWO_STEPS), "ok"),
        (
            Call::Query,
            "3 PLAN_DONE, 1 2 1000 0 0 0 noblock, 2 1 10 0 0 0 noblock",
        ),
        (Call::Submit(NO_STEPS), "ok"),
        (Call::Task, "idle"),
        (Call::Query, "4 PLAN_DONE"),
    ] {
        let got = told(alloc, &mut table, call)?;
        assert_eq!(rt; got.as_str(), want);
    }
    Ok(())
}
