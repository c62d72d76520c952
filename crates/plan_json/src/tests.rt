//! Plans of the disk balancer, written and read. The ids were made by `sha1sum`.
ghost use Rattle.std.specs.Prelude.{◌≤◌, IfOk};
ghost use Rattle.plan_json.specs.Forms.{IsStepInForm, IsInForm};

use super::*;
use std::alloc::Global;
use std::test::Fail;

const WORKED_LINE: &str = "{\"nodeUUID\":\"DN-1\",\"timeStamp\":0,\"volumeSetPlans\":[\
    {\"bandwidth\":10,\"bytesToMove\":123,\"destinationVolume\":{\"uuid\":\"DS-2\"},\"maxDiskErrors\":5,\
    \"sourceVolume\":{\"uuid\":\"DS-4\"},\"tolerancePercent\":10},\
    {\"bandwidth\":10,\"bytesToMove\":40,\"destinationVolume\":{\"uuid\":\"DS-1\"},\"maxDiskErrors\":5,\
    \"sourceVolume\":{\"uuid\":\"DS-3\"},\"tolerancePercent\":10}]}";

const UNUSED_MEMBERS: &str = "{\"volumeSetPlans\":[{\"@class\":\"MoveStep\",\
    \"sourceVolume\":{\"path\":\"/data1\",\"capacity\":200,\"used\":100,\"uuid\":\"DS-1\",\"failed\":false,\
    \"volumeDataDensity\":-0.25,\"skip\":false},\
    \"destinationVolume\":{\"path\":\"/data2\",\"capacity\":200,\"used\":0,\"uuid\":\"DS-2\",\"failed\":false},\
    \"idealStorage\":0.25,\"bytesToMove\":50,\"maxDiskErrors\":0,\"tolerancePercent\":0,\"bandwidth\":0}],\
    \"nodeName\":\"localhost\",\"nodeUUID\":\"DN-1\",\"port\":9867,\"timeStamp\":1499999999000}";

// A step with the limits that a step has by default.
fn step(alloc: Global, from: &str, to: &str, bytes: u64) -> Result<PlanStep, Fail>
    requires some { 1 ≤ bytes }
    requires few { bytes ≤ 1000 }
    ensures { IfOk result IsStepInForm }
{
    Ok(PlanStep {
        from: Text::from_text(alloc, from)?,
        to: Text::from_text(alloc, to)?,
        bytes,
        bandwidth: 10,
        tolerance: 10,
        max_errors: 5,
    })
}

// The plan of the worked line.
fn worked_plan(alloc: Global) -> Result<Plan, Fail>
    ensures { IfOk result IsInForm }
{
    let first = step(alloc, "DS-4", "DS-2", 123)?;
    let second = step(alloc, "DS-3", "DS-1", 40)?;
    let node = Text::new(String::from_str(alloc, "DN-1")?);
    Ok(Plan {
        node,
        time_ms: 0,
        steps: Steps::new(vec![in alloc; first, second]?),
    })
}

// A plan, in words.
fn told_plan(alloc: Global, plan: &Plan) -> Result<String, Fail> {
    let (node, time) = (plan.node.as_str(), plan.time_ms);
    let mut told = format!(in alloc; "{node} {time}")?;
    for step in plan.steps.as_slice() {
        let (from, to, bytes) = (step.from.as_str(), step.to.as_str(), step.bytes);
        let limits = format!(in alloc;
            "{} {} {}",
            step.bandwidth, step.tolerance, step.max_errors
        )?;
        let step = format!(in alloc; ", {from} {to} {bytes} {limits}")?;
        told.push_str(step.as_str())?;
    }
    Ok(told)
}

// A refusal, in words.
fn told_fault(alloc: Global, fault: &PlanFault) -> Result<String, Fail> {
    let told = match fault {
        PlanFault::InvalidVersion { v } => format!(in alloc; "invalidversion {v}")?,
        PlanFault::HashMismatch { have } => {
            let have = have.as_str();
            format!(in alloc; "hashmismatch {have}")?
        }
        PlanFault::Malformed { member } => format!(in alloc; "malformed {member:?}")?,
        PlanFault::OldPlan { age } => format!(in alloc; "oldplan {age}")?,
        PlanFault::NodeMismatch => format!(in alloc; "nodemismatch")?,
        PlanFault::InvalidVolume { uuid } => {
            let uuid = uuid.as_str();
            format!(in alloc; "invalidvolume {uuid}")?
        }
        PlanFault::InvalidMove { step } => format!(in alloc; "invalidmove {step}")?,
        PlanFault::Memory => format!(in alloc; "memory")?,
    };
    Ok(told)
}

// What `read_plan` answers, in words.
fn told(alloc: Global, answer: &Result<Plan, PlanFault>) -> Result<String, Fail> {
    match answer {
        Ok(plan) => told_plan(alloc, plan),
        Err(fault) => told_fault(alloc, fault),
    }
}

// The volumes `DS-1` and `DS-2`.
fn two_volumes(alloc: Global) -> Result<Vec<String>, Fail> {
    let mut volumes = Vec::new(alloc);
    volumes.push(String::from_str(alloc, "DS-1")?)?;
    volumes.push(String::from_str(alloc, "DS-2")?)?;
    Ok(volumes)
}

// What the node `DN-1` answers, at the moment 0, to a plan with its own id.
fn submitted(alloc: Global, text: &[u8]) -> Result<String, Fail> {
    let id = plan_id(text);
    let volumes = two_volumes(alloc)?;
    let answer = read_plan(
        alloc,
        text,
        id.as_str(),
        1,
        false,
        0,
        "DN-1",
        volumes.as_slice(),
    );
    told(alloc, &answer)
}

#[test]
fn a_plan_is_written_named_and_read(rt: HostRuntime) -> Result<(), Fail> {
    let alloc = rt.alloc();
    let plan = worked_plan(alloc)?;
    let text = write_plan(alloc, &plan)?;
    assert_eq!(rt; text.as_slice(), WORKED_LINE.as_bytes());
    assert_eq!(rt;
        plan_id(text.as_slice()).as_str(),
        "819bef4ef4d6531a16a1dc7a54a6e4847ebabb2e"
    );
    assert_eq!(rt;
        plan_id(b"abc").as_str(),
        "a9993e364706816aba3e25717850c26c9cd0d89d"
    );
    let mut volumes = two_volumes(alloc)?;
    volumes.push(String::from_str(alloc, "DS-3")?)?;
    volumes.push(String::from_str(alloc, "DS-4")?)?;
    let id = "819BEF4EF4D6531A16A1DC7A54A6E4847EBABB2E";
    let answer = read_plan(
        alloc,
        text.as_slice(),
        id,
        1,
        false,
        0,
        "DN-1",
        volumes.as_slice(),
    );
    let told = told(alloc, &answer)?;
    assert_eq!(rt;
        told.as_str(),
        "DN-1 0, DS-4 DS-2 123 10 10 5, DS-3 DS-1 40 10 10 5"
    );
    assert_eq!(rt; plan.steps.len(), 2);
    assert_eq!(rt; plan.steps.into_vec().len(), 2);
    assert_eq!(rt; plan.node.into_string().as_str(), "DN-1");
    Ok(())
}

#[test]
fn members_that_are_not_used_are_passed_over(rt: HostRuntime) -> Result<(), Fail> {
    let alloc = rt.alloc();
    let volumes = two_volumes(alloc)?;
    let id = plan_id(UNUSED_MEMBERS.as_bytes());
    assert_eq!(rt; id.as_str(), "974995bac8a2d3683179ddbf8b16faeaf77eef11");
    let rows = [
        (
            1_500_000_000_000,
            false,
            "DN-1 1499999999000, DS-1 DS-2 50 10 10 5",
        ),
        (
            1_500_086_399_000,
            false,
            "DN-1 1499999999000, DS-1 DS-2 50 10 10 5",
        ),
        (1_500_086_399_001, false, "oldplan 86400001"),
        (
            1_500_086_399_001,
            true,
            "DN-1 1499999999000, DS-1 DS-2 50 10 10 5",
        ),
    ];
    for (now, force, want) in rows {
        let text = UNUSED_MEMBERS.as_bytes();
        let answer = read_plan(
            alloc,
            text,
            id.as_str(),
            1,
            force,
            now,
            "DN-1",
            volumes.as_slice(),
        );
        assert_eq!(rt; told(alloc, &answer)?.as_str(), want, "at {now}");
    }
    Ok(())
}

#[test]
fn plans_are_refused_by_the_first_check_that_fails(rt: HostRuntime) -> Result<(), Fail> {
    let alloc = rt.alloc();
    let volumes = two_volumes(alloc)?;
    let zeros = "0000000000000000000000000000000000000000";
    let empty = "bf21a9e8fbc5a3846fb05b4fa0859e0917b2202f";
    let unused = "974995bac8a2d3683179ddbf8b16faeaf77eef11";
    let late = 1_600_000_000_000;
    let rows = [
        (
            "{}",
            zeros,
            1,
            "DN-1",
            "hashmismatch bf21a9e8fbc5a3846fb05b4fa0859e0917b2202f",
        ),
        ("{}", empty, 1, "DN-1", "malformed NodeUuid"),
        ("{}", empty, 2, "DN-1", "invalidversion 2"),
        ("{}", zeros, 2, "DN-1", "invalidversion 2"),
        (UNUSED_MEMBERS, unused, 1, "DN-2", "oldplan 100000001000"),
    ];
    for (text, id, version, node, want) in rows {
        let text = text.as_bytes();
        let answer = read_plan(
            alloc,
            text,
            id,
            version,
            false,
            late,
            node,
            volumes.as_slice(),
        );
        assert_eq!(rt; told(alloc, &answer)?.as_str(), want);
    }
    Ok(())
}

// A plan of one step, of whose text a part was replaced.
fn replaced(alloc: Global, old: &str, new: &str) -> Result<String, Fail> {
    let plan = "{\"nodeUUID\":\"DN-1\",\"timeStamp\":0,\"volumeSetPlans\":[\
        {\"bandwidth\":1,\"bytesToMove\":2,\"destinationVolume\":{\"uuid\":\"DS-2\"},\"maxDiskErrors\":3,\
        \"sourceVolume\":{\"uuid\":\"DS-1\"},\"tolerancePercent\":4}]}";
    Ok(plan.replace(alloc, old, new)?)
}

// The answer to the plan below as it stands.
const READ: &str = "DN-1 0, DS-1 DS-2 2 1 4 3";

// A part of the plan below, what is put in its place, and the answer.
const OUT_OF_FORM: [(&str, &str, &str); 31] = [
    ("", "", READ),
    ("\"DN-1\"", "7", "malformed NodeUuid"),
    ("\"DN-1\"", "\"DN-1\",\"nodeUUID\":\"DN-2\"", "nodemismatch"),
    ("\"DN-1\"", "\"DN-2\",\"nodeUUID\":\"DN-1\"", READ),
    (
        "\"timeStamp\":0",
        "\"timeStamp\":18446744073709551615",
        "DN-1 18446744073709551615, DS-1 DS-2 2 1 4 3",
    ),
    (
        "\"timeStamp\":0",
        "\"timeStamp\":18446744073709551616",
        "malformed TimeStamp",
    ),
    ("\"timeStamp\":0", "\"timeStamp\":-0", "malformed TimeStamp"),
    (
        "\"timeStamp\":0",
        "\"timeStamp\":0.0",
        "malformed TimeStamp",
    ),
    (
        "\"timeStamp\":0",
        "\"timeStamp\":\"0\"",
        "malformed TimeStamp",
    ),
    ("\"timeStamp\":0", "\"timeStamp\":1e999", "malformed Text"),
    ("\"timeStamp\":0", "\"timeStamp\":00", "malformed Text"),
    ("[{", "[7,{", "malformed VolumeSetPlans"),
    ("[{", "{\"a\":[{", "malformed Text"),
    (
        "\"volumeSetPlans\"",
        "\"volumeSetPlan\"",
        "malformed VolumeSetPlans",
    ),
    (
        "\"sourceVolume\":{\"uuid\":\"DS-1\"}",
        "\"sourceVolume\":\"DS-1\"",
        "malformed SourceVolume",
    ),
    (
        "\"destinationVolume\":{\"uuid\":\"DS-2\"}",
        "\"destinationVolume\":{}",
        "malformed DestinationVolume",
    ),
    (
        "\"bytesToMove\":2",
        "\"bytesToMove\":0",
        "malformed BytesToMove",
    ),
    (
        "\"bytesToMove\":2",
        "\"bytesToMove\":1.0",
        "malformed BytesToMove",
    ),
    (
        "\"bytesToMove\":2",
        "\"bytesToMove\":18014398509481984",
        "DN-1 0, DS-1 DS-2 18014398509481984 1 4 3",
    ),
    (
        "\"bytesToMove\":2",
        "\"bytesToMove\":18014398509481985",
        "malformed BytesToMove",
    ),
    (
        "\"bandwidth\":1",
        "\"bandwidth\":1048576",
        "DN-1 0, DS-1 DS-2 2 1048576 4 3",
    ),
    (
        "\"bandwidth\":1",
        "\"bandwidth\":1048577",
        "malformed Bandwidth",
    ),
    (
        "\"bandwidth\":1",
        "\"bandwidth\":null",
        "malformed Bandwidth",
    ),
    ("\"bandwidth\":1,", "", "DN-1 0, DS-1 DS-2 2 10 4 3"),
    (
        "\"tolerancePercent\":4",
        "\"tolerancePercent\":101",
        "malformed TolerancePercent",
    ),
    (
        "\"tolerancePercent\":4",
        "\"tolerancePercent\":1e2",
        "malformed TolerancePercent",
    ),
    (
        "\"maxDiskErrors\":3",
        "\"maxDiskErrors\":4294967295",
        "DN-1 0, DS-1 DS-2 2 1 4 4294967295",
    ),
    (
        "\"maxDiskErrors\":3",
        "\"maxDiskErrors\":4294967296",
        "malformed MaxDiskErrors",
    ),
    (
        "\"maxDiskErrors\":3",
        "\"maxDiskErrors\":-1",
        "malformed MaxDiskErrors",
    ),
    ("\"DS-2\"", "\"DS-9\"", "invalidvolume DS-9"),
    ("\"DS-2\"", "\"DS-1\"", "invalidmove 1"),
];

#[test]
fn members_out_of_form_are_named(rt: HostRuntime) -> Result<(), Fail> {
    let alloc = rt.alloc();
    for (old, new, want) in OUT_OF_FORM {
        let text = replaced(alloc, old, new)?;
        let answer = submitted(alloc, text.as_bytes())?;
        assert_eq!(rt; answer.as_str(), want, "{new} for {old}");
    }
    Ok(())
}

#[test]
fn hostile_texts_have_no_reading(rt: HostRuntime) -> Result<(), Fail> {
    let alloc = rt.alloc();
    let mut brackets = Vec::new(alloc);
    brackets.resize(200, b'[')?;
    let rows: [&[u8]; 6] = [
        b"",
        b"[]",
        b"{\"nodeUUID\":\"DN-1\"",
        b"{} {}",
        b"{\"nodeUUID\":\"\xff\"}",
        brackets.as_slice(),
    ];
    for text in rows {
        assert_eq!(rt; submitted(alloc, text)?.as_str(), "malformed Text");
    }
    Ok(())
}
