//! Plans are written.
ghost use Rattle.std.specs.Prelude.{◌≡◌, Ok, IfOk, map};
ghost use Rattle.serde_json.specs.View.{view};
ghost use Rattle.plan_json.specs.Forms.{IsInForm};
ghost use Rattle.plan_json.specs.Plans.{plan_in};
ghost use Rattle.plan_json.specs.Written.{step_value, plan_value, plan_text};

use crate::plan::Plan;
use crate::step::PlanStep;
use serde_json::{Map, Value, json};
use std::alloc::{AllocError, Global};

/// The value of a step.
fn step_value(alloc: Global, step: &PlanStep) -> Result<Value, AllocError>
    ensures { IfOk result (λ value. view value ≡ step_value step.now) }
{
    json!(in alloc; {
        "bandwidth": step.bandwidth,
        "bytesToMove": step.bytes,
        "destinationVolume": {"uuid": step.to.as_str()},
        "maxDiskErrors": step.max_errors,
        "sourceVolume": {"uuid": step.from.as_str()},
        "tolerancePercent": step.tolerance
    })
}

/// The values of steps.
fn step_values(alloc: Global, steps: &[PlanStep]) -> Result<Vec<Value>, AllocError>
    ensures { IfOk result (λ values. map view values.items ≡ map step_value steps.now) }
{
    let mut values = Vec::new(alloc);
    for step in steps {
        let value = step_value(alloc, step)?;
        values.push(value)?;
    }
    Ok(values)
}

/// The value of a plan.
fn plan_value(alloc: Global, plan: &Plan) -> Result<Value, AllocError>
    ensures { IfOk result (λ value. view value ≡ plan_value plan.now) }
{
    let steps = step_values(alloc, plan.steps.as_slice())?;
    json!(in alloc; {
        "nodeUUID": plan.node.as_str(),
        "timeStamp": plan.time_ms,
        "volumeSetPlans": Value::Array(steps)
    })
}

/// Writes a plan that is in form as JSON: all members, without blanks, in the order of their bytes.
pub fn write_plan(alloc: Global, plan: &Plan) -> Result<Vec<u8>, AllocError>
    requires { IsInForm plan.now }
    ensures text { IfOk result (λ bytes. bytes.items ≡ plan_text plan.now) }
    ensures reads_back { IfOk result (λ bytes. plan_in bytes.items ≡ Ok plan.now) }
{
    let value = plan_value(alloc, plan)?;
    let bytes = value.to_vec(alloc)?;
    Ok(bytes)
}
