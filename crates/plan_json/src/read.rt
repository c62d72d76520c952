//! Plans are read.
ghost use Rattle.std.specs.Prelude.{◌≡◌, ◌⊎◌, ◌≤◌, Some, None, Ok, Err, IfOk, IfErr, IfSome, option_map, option_and_then, length, All, IsTrue, codes};
ghost use Rattle.serde_json.specs.View.{view, items_view};
ghost use Rattle.plan_json.specs.declared.fault.PlanMember.TheVariants.{Text as TextMember};
ghost use Rattle.plan_json.specs.Forms.{IsStepInForm, IsInForm};
ghost use Rattle.plan_json.specs.Reading.{reading, array_at};
ghost use Rattle.plan_json.specs.Plans.{step_of, steps_of, is_short, are_objects, step_values_in, plan_of, plan_in};

use crate::fault::{PlanFault, PlanMember};
use crate::members::{array_at, number_at, number_or, number_within, text_at, volume_at};
use crate::plan::Plan;
use crate::step::PlanStep;
use crate::steps::Steps;
use crate::text::Text;
use serde_json::Value;
use std::alloc::Global;

/// The most steps that a plan may have.
const MOST_STEPS: usize = 1024;

/// The most bytes that a step may move.
const MOST_BYTES: u64 = 1 << 54;

/// The fault of a member out of form.
fn malformed(member: PlanMember) -> PlanFault
    ensures { result ≡ PlanFault.Malformed member }
{
    PlanFault::Malformed { member }
}

/// The value of a text.
fn parse(alloc: Global, text: &[u8]) -> Result<Value, PlanFault>
    ensures ok { IfOk result (λ value. reading text.now ≡ Some (view value)) }
    ensures err { IfErr result (λ fault. (fault ≡ PlanFault.Memory)
        ⊎ ((fault ≡ PlanFault.Malformed TextMember) × (reading text.now ≡ None))) }
{
    match Value::from_slice(alloc, text) {
        Ok(value) => Ok(value),
        Err(error) if error.is_memory() => Err(PlanFault::Memory),
        Err(_) => Err(PlanFault::Malformed {
            member: PlanMember::Text,
        }),
    }
}

/// The step that a value is.
fn read_step(alloc: Global, value: &Value) -> Result<PlanStep, PlanFault>
    ensures step { (result ≡ Err PlanFault.Memory) ⊎ (result ≡ step_of (view value.now)) }
    ensures in_form { IfOk result IsStepInForm }
{
    let from = volume_at(value, "sourceVolume").ok_or(malformed(PlanMember::SourceVolume))?;
    let to = volume_at(value, "destinationVolume").ok_or(malformed(PlanMember::DestinationVolume))?;
    let bytes = number_within(value, "bytesToMove", 1, MOST_BYTES).ok_or(malformed(
        PlanMember::BytesToMove,
    ))?;
    let bandwidth = number_or(value, "bandwidth", 10, 1_048_576).ok_or(malformed(
        PlanMember::Bandwidth,
    ))?;
    let tolerance = number_or(value, "tolerancePercent", 10, 100).ok_or(malformed(
        PlanMember::TolerancePercent,
    ))?;
    let max_errors = number_or(value, "maxDiskErrors", 5, u32::MAX).ok_or(malformed(
        PlanMember::MaxDiskErrors,
    ))?;
    let from = Text::from_text(alloc, from)?;
    let to = Text::from_text(alloc, to)?;
    Ok(PlanStep {
        from,
        to,
        bytes,
        bandwidth,
        tolerance: tolerance as u8,
        max_errors,
    })
}

/// The steps that values are.
fn read_steps(alloc: Global, values: &[Value]) -> Result<Vec<PlanStep>, PlanFault>
    ensures ok { IfOk result (λ steps. steps_of (items_view values.now) ≡ Ok steps.items) }
    ensures err { IfErr result (λ fault. (fault ≡ PlanFault.Memory)
        ⊎ (steps_of (items_view values.now) ≡ Err fault)) }
    ensures count { IfOk result (λ steps. length steps.items ≡ length values.now) }
    ensures in_form { IfOk result (λ steps. All IsStepInForm steps.items) }
{
    let mut steps = Vec::new(alloc);
    for value in values {
        let step = read_step(alloc, value)?;
        steps.push(step)?;
    }
    Ok(steps)
}

/// Whether each value is an object.
fn are_objects(values: &[Value]) -> bool
    ensures { result ≡ are_objects (items_view values.now) }
{
    for value in values {
        if !value.is_object() {
            return false;
        }
    }
    true
}

/// Whether there are at most so many values.
fn is_short(values: &[Value]) -> bool
    ensures short { result ≡ is_short (items_view values.now) }
    ensures few { IsTrue result → length values.now ≤ 1024 }
{
    values.len() <= MOST_STEPS
}

/// The values of the steps, where they are a list of at most 1,024 objects.
fn step_values(value: &Value) -> Option<&[Value]>
    ensures values { option_map (λ items. items_view items.now) result
        ≡ option_and_then step_values_in (array_at (codes "volumeSetPlans") (view value.now)) }
    ensures few { IfSome result (λ items. length items.now ≤ 1024) }
{
    match array_at(value, "volumeSetPlans") {
        Some(values) if is_short(values) && are_objects(values) => Some(values),
        _ => None,
    }
}

/// The plan that a value is.
fn plan_at(alloc: Global, value: &Value) -> Result<Plan, PlanFault>
    ensures plan { (result ≡ Err PlanFault.Memory) ⊎ (result ≡ plan_of (view value.now)) }
    ensures in_form { IfOk result IsInForm }
{
    if !value.is_object() {
        return Err(malformed(PlanMember::Text));
    }
    let node = text_at(value, "nodeUUID").ok_or(malformed(PlanMember::NodeUuid))?;
    let time_ms = number_at(value, "timeStamp").ok_or(malformed(PlanMember::TimeStamp))?;
    let values = step_values(value).ok_or(malformed(PlanMember::VolumeSetPlans))?;
    let steps = read_steps(alloc, values)?;
    let node = Text::from_text(alloc, node)?;
    Ok(Plan {
        node,
        time_ms,
        steps: Steps::new(steps),
    })
}

/// The plan that a text is, or its first member out of form.
pub fn plan_in(alloc: Global, text: &[u8]) -> Result<Plan, PlanFault>
    ensures plan { (result ≡ Err PlanFault.Memory) ⊎ (result ≡ plan_in text.now) }
    ensures in_form { IfOk result IsInForm }
{
    let value = parse(alloc, text)?;
    plan_at(alloc, &value)
}
