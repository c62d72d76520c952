//! How far the submitted plan is.
ghost use Rattle.std.specs.Prelude.{Some};
ghost use Rattle.script_lang.specs.PlanState.{plan_state_text};

use std::fmt;

/// How far the submitted plan is.
#[derive(Clone, Copy, Debug, PartialEq, Eq)]
pub enum PlanState {
    /// `NO_PLAN`: there is none.
    NoPlan,
    /// `PLAN_UNDER_PROGRESS`: it is being carried out.
    UnderProgress,
    /// `PLAN_DONE`: it is done.
    Done,
    /// `PLAN_CANCELLED`: it was cancelled.
    Cancelled,
}

impl fmt::Display for PlanState {
    ghost output = { λ part. Some (plan_state_text part) };

    fn fmt<W: fmt::Write>(&self, f: &mut fmt::Formatter<W>) -> fmt::Result {
        f.write_str(match self {
            PlanState::NoPlan => "NO_PLAN",
            PlanState::UnderProgress => "PLAN_UNDER_PROGRESS",
            PlanState::Done => "PLAN_DONE",
            PlanState::Cancelled => "PLAN_CANCELLED",
        })
    }
}
