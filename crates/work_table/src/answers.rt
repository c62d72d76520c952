//! What the calls of a table take and answer.
ghost use Rattle.std.specs.Prelude.{◌≡◌};
ghost use Rattle.work_table.specs.declared.answers.SubmitFault.TheVariants.{Memory};

use crate::step_end::StepEnd;
use std::alloc::{AllocError, AllocFailed};

/// Why a plan wasn't submitted.
#[derive(Clone, Copy, Debug, PartialEq, Eq)]
pub enum SubmitFault {
    /// A plan is under progress.
    InProgress,
    /// There is no memory for its steps.
    Memory,
}

impl From<AllocError> for SubmitFault {
    ghost from_gives = { λ _ fault. fault ≡ Memory };

    fn from(_no_memory: AllocError) -> SubmitFault {
        SubmitFault::Memory
    }
}

impl<T: Drop> From<AllocFailed<T>> for SubmitFault {
    ghost from_gives = { λ _ fault. fault ≡ Memory };

    fn from(_no_memory: AllocFailed<T>) -> SubmitFault {
        SubmitFault::Memory
    }
}

/// No plan is held, or its id is another one.
#[derive(Clone, Copy, Debug, PartialEq, Eq)]
pub struct NoSuchPlan {}

/// What is to be done next.
#[derive(Clone, Copy, Debug, PartialEq, Eq)]
pub enum TaskEnd {
    /// Nothing: no plan is under progress.
    Idle,
    /// A replica is to be moved for this step, the first one without an end, of which so many bytes are left.
    Task {
        plan_no: u64,
        step: u32,
        from: u8,
        to: u8,
        left: u64,
        tolerance: u8,
        bandwidth: u32,
    },
    /// This step has come to its end.
    StepEnd {
        step: u32,
        end: StepEnd,
    },
}

/// What came of a task.
#[derive(Clone, Copy, Debug, PartialEq, Eq)]
pub enum Counted {
    /// A replica of so many bytes was moved.
    Moved { bytes: u64 },
    /// One could not be moved.
    Error,
    /// There is none that fits and wasn't tried.
    NoBlock,
}

/// What came of counting.
#[derive(Clone, Copy, Debug, PartialEq, Eq)]
pub enum CountEnd {
    /// It was counted.
    Counted,
    /// It was not: it is of the plan `want`, and the table has the plan `have`.
    Stale { want: u64, have: u64 },
}
