//! A member of a plan, or its text as a whole.
ghost use Rattle.std.specs.Prelude.{Some};
ghost use Rattle.script_lang.specs.PlanMember.{plan_member_text};

use std::fmt;

/// A member of a plan, or its text as a whole.
#[derive(Clone, Copy, Debug, PartialEq, Eq)]
pub enum PlanMember {
    /// `text`: the text as a whole.
    Text,
    /// `nodeUUID`.
    NodeUuid,
    /// `timeStamp`.
    TimeStamp,
    /// `volumeSetPlans`.
    VolumeSetPlans,
    /// `sourceVolume` of a step.
    SourceVolume,
    /// `destinationVolume` of a step.
    DestinationVolume,
    /// `bytesToMove` of a step.
    BytesToMove,
    /// `bandwidth` of a step.
    Bandwidth,
    /// `tolerancePercent` of a step.
    TolerancePercent,
    /// `maxDiskErrors` of a step.
    MaxDiskErrors,
}

impl fmt::Display for PlanMember {
    ghost output = { λ part. Some (plan_member_text part) };

    fn fmt<W: fmt::Write>(&self, f: &mut fmt::Formatter<W>) -> fmt::Result {
        f.write_str(match self {
            PlanMember::Text => "text",
            PlanMember::NodeUuid => "nodeUUID",
            PlanMember::TimeStamp => "timeStamp",
            PlanMember::VolumeSetPlans => "volumeSetPlans",
            PlanMember::SourceVolume => "sourceVolume",
            PlanMember::DestinationVolume => "destinationVolume",
            PlanMember::BytesToMove => "bytesToMove",
            PlanMember::Bandwidth => "bandwidth",
            PlanMember::TolerancePercent => "tolerancePercent",
            PlanMember::MaxDiskErrors => "maxDiskErrors",
        })
    }
}
