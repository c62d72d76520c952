//! Why a plan was refused.
ghost use Rattle.std.specs.Prelude.{◌≡◌};
ghost use Rattle.plan_json.specs.declared.fault.PlanFault.TheVariants.{Memory};

use crate::id::PlanId;
use crate::text::Text;
use std::alloc::{AllocError, AllocFailed};

/// A member of a plan's text, as the Disk Balancer names it.
#[derive(Clone, Copy, Debug, PartialEq, Eq)]
pub enum PlanMember {
    /// The text as a whole.
    Text,
    /// `nodeUUID`
    NodeUuid,
    /// `timeStamp`
    TimeStamp,
    /// `volumeSetPlans`
    VolumeSetPlans,
    /// `sourceVolume` of a step
    SourceVolume,
    /// `destinationVolume` of a step
    DestinationVolume,
    /// `bytesToMove` of a step
    BytesToMove,
    /// `bandwidth` of a step
    Bandwidth,
    /// `tolerancePercent` of a step
    TolerancePercent,
    /// `maxDiskErrors` of a step
    MaxDiskErrors,
}

/// Why a plan was refused.
#[derive(Drop)]
pub enum PlanFault {
    /// The version isn't 1.
    InvalidVersion { v: u64 },
    /// The id that was given isn't that of the text.
    HashMismatch { have: PlanId },
    /// This is the first member out of form.
    Malformed { member: PlanMember },
    /// The plan is older than a day: so many milliseconds.
    OldPlan { age: u64 },
    /// The plan is another node's.
    NodeMismatch,
    /// A step names this volume, which the node hasn't.
    InvalidVolume { uuid: Text },
    /// This step, counted from 1, moves from a volume to itself.
    InvalidMove { step: u32 },
    /// There is no memory for the plan.
    Memory,
}

impl From<AllocError> for PlanFault {
    ghost from_gives = { λ _ fault. fault ≡ Memory };

    fn from(_no_memory: AllocError) -> PlanFault {
        PlanFault::Memory
    }
}

impl<T: Drop> From<AllocFailed<T>> for PlanFault {
    ghost from_gives = { λ _ fault. fault ≡ Memory };

    fn from(_no_memory: AllocFailed<T>) -> PlanFault {
        PlanFault::Memory
    }
}
