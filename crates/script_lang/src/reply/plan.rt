//! The submitted plan.
ghost use Rattle.std.specs.Prelude.{◌≡◌, Some, [], ◌∷◌, ◌++◌, IfOk, OnOk, string_bytes};
ghost use Rattle.script_lang.specs.PlanReply.{step_row_text, plan_text, plan_id_text};

use crate::reply::plan_state::PlanState;
use crate::reply::step_end::StepEnd;
use crate::text::Text;
use std::alloc::{AllocError, Global};
use std::fmt;

/// A step of the submitted plan.
#[derive(Clone, Copy, Debug, PartialEq, Eq)]
pub struct StepRow {
    /// The number of the step, from 1.
    pub k: u64,
    /// The number of the volume that gives.
    pub from: u8,
    /// The number of the volume that takes.
    pub to: u8,
    /// How many bytes are to be moved.
    pub planned: u64,
    /// How many bytes were moved.
    pub copied: u64,
    /// How many blocks were moved.
    pub blocks: u64,
    /// How many moves went wrong.
    pub errors: u64,
    pub end: StepEnd,
}

impl fmt::Display for StepRow {
    ghost output = { λ row. Some (step_row_text row) };

    fn fmt<W: fmt::Write>(&self, f: &mut fmt::Formatter<W>) -> fmt::Result {
        let StepRow {
            k,
            from,
            to,
            planned,
            copied,
            blocks,
            errors,
            end,
        } = *self;
        write!(
            f,
            "step {k} {from} {to} {planned} {copied} {blocks} {errors} {end}"
        )
    }
}

/// An id, or `-` where there is no plan.
fn id_or_dash(id: &Option<Text>) -> &str
    ensures { result.now ≡ plan_id_text id.now }
{
    match id {
        Some(id) => id.as_str(),
        None => "-",
    }
}

/// Writes a line feed, and then the line of a step behind lines, without a line feed of its own.
fn append_step(lines: &mut String, step: &StepRow) -> Result<(), AllocError>
    ensures { OnOk result (string_bytes lines.new ≡ string_bytes lines.old ++ 10 ∷ step_row_text step.now) }
{
    write!(lines, "\n{step}")
}

/// The lines about a plan.
pub fn write_plan(
    alloc: Global,
    number: u64,
    state: PlanState,
    id: &Option<Text>,
    steps: &[StepRow],
) -> Result<Vec<u8>, AllocError>
    ensures { IfOk result (λ lines. lines.items ≡ plan_text number state id.now steps.now ++ 10 ∷ []) }
{
    let told_id = id_or_dash(id);
    let mut lines = format!(in alloc; "plan {number} {state} {told_id}")?;
    for step in steps {
        append_step(&mut lines, step)?;
    }
    lines.push('\n')?;
    Ok(lines.into_bytes())
}
