//! The plan over some rows, and its text.
ghost use Rattle.std.specs.Prelude.{◌≡◌, ◌≤◌, IfOk, length, map, All};
ghost use Rattle.greedy_planner.specs.Greedy.{IsGreedyPlan};
ghost use Rattle.plan_json.specs.Forms.{IsInForm, IsStepInForm};
ghost use Rattle.plan_tool.specs.Options.{AreInRange};
ghost use Rattle.plan_tool.specs.Rows.{AreRows, uses_of};
ghost use Rattle.plan_tool.specs.Plans.{IsInLimits, plan_step, IsPlan, IsOutput};

use crate::options::Options;
use crate::row::Row;
use density::{Report, VolumeUse};
use greedy_planner::{Step, plan};
use plan_json::{Plan, PlanStep, Steps, Text, plan_id, write_plan};
use std::alloc::{AllocError, Global};

/// What the rows say of their volumes.
fn uses_of(alloc: Global, rows: &[Row]) -> Result<Vec<VolumeUse>, AllocError>
    ensures { IfOk result (λ uses. uses.items ≡ uses_of rows.now) }
{
    rows.iter()
        .map(|row| VolumeUse {
            capacity: row.capacity,
            used: row.used,
            replicas: 0,
        })
        .collect(alloc)
}

/// The report of the rows, of which there is one at least.
fn report_over(alloc: Global, rows: &[Row]) -> Result<Report, AllocError>
    ensures { IfOk result (λ report. report ≡ uses_of rows.now) }
{
    let uses = uses_of(alloc, rows)?;
    match Report::make(alloc, &uses) {
        Ok(report) => Ok(report),
        Err(_) => Err(AllocError),
    }
}

/// The steps of the greedy plan over the rows. Where there is no row no report is made.
fn steps_over(alloc: Global, options: &Options, rows: &[Row]) -> Result<Vec<Step>, AllocError>
    requires rows { AreRows rows.now }
    requires ranges { AreInRange options.now }
    ensures greedy { IfOk result (λ steps. IsGreedyPlan (uses_of rows.now) options.now.threshold steps.items) }
    ensures limits { IfOk result (λ steps. All (IsInLimits (length rows.now)) steps.items) }
    ensures few { IfOk result (λ steps. length steps.items ≤ 64) }
{
    if rows.is_empty() {
        return Ok(Vec::new(alloc));
    }
    let report = report_over(alloc, rows)?;
    let steps = plan(alloc, &report, options.threshold)?;
    Ok(steps)
}

/// A step between two rows, as a plan says it.
fn plan_step(
    alloc: Global,
    options: &Options,
    rows: &[Row],
    step: Step,
) -> Result<PlanStep, AllocError>
    requires limits { IsInLimits (length rows.now) step }
    requires ranges { AreInRange options.now }
    ensures step { IfOk result (λ s. s ≡ plan_step options.now rows.now step) }
    ensures form { IfOk result IsStepInForm }
{
    Ok(PlanStep {
        from: Text::from_text(alloc, rows[step.from].uuid.as_str())?,
        to: Text::from_text(alloc, rows[step.to].uuid.as_str())?,
        bytes: step.bytes,
        bandwidth: options.bandwidth,
        tolerance: options.tolerance,
        max_errors: options.max_errors,
    })
}

/// Steps between rows, as a plan says them.
fn plan_steps(
    alloc: Global,
    options: &Options,
    rows: &[Row],
    steps: &[Step],
) -> Result<Vec<PlanStep>, AllocError>
    requires limits { All (IsInLimits (length rows.now)) steps.now }
    requires ranges { AreInRange options.now }
    ensures steps { IfOk result (λ made. made.items ≡ map (plan_step options.now rows.now) steps.now) }
    ensures form { IfOk result (λ made. All IsStepInForm made.items) }
{
    let mut made = Vec::new(alloc);
    for step in steps {
        let said = plan_step(alloc, options, rows, *step)?;
        made.push(said)?;
    }
    Ok(made)
}

/// The plan over the rows.
fn make_plan(alloc: Global, options: &Options, rows: &[Row]) -> Result<Plan, AllocError>
    requires rows { AreRows rows.now }
    requires ranges { AreInRange options.now }
    ensures plan { IfOk result (IsPlan options.now rows.now) }
    ensures form { IfOk result IsInForm }
{
    let steps = steps_over(alloc, options, rows)?;
    let made = plan_steps(alloc, options, rows, &steps)?;
    let node = Text::from_text(alloc, options.node.as_str())?;
    Ok(Plan {
        node,
        time_ms: options.time_ms,
        steps: Steps::new(made),
    })
}

/// The text of the plan over the rows, and its id, each as a line.
pub fn plan_lines(alloc: Global, options: &Options, rows: &[Row]) -> Result<Vec<u8>, AllocError>
    requires rows { AreRows rows.now }
    requires ranges { AreInRange options.now }
    ensures { IfOk result (λ lines. IsOutput options.now rows.now lines.items) }
{
    let plan = make_plan(alloc, options, rows)?;
    let mut lines = write_plan(alloc, &plan)?;
    let id = plan_id(&lines);
    lines.push(b'\n')?;
    lines.extend_from_slice(id.as_str().as_bytes())?;
    lines.push(b'\n')?;
    Ok(lines)
}
