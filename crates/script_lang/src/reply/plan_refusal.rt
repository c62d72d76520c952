//! Why a plan isn't submitted.
ghost use Rattle.std.specs.Prelude.{◌≡◌, [], ◌∷◌, ◌++◌, IfOk, map};
ghost use Rattle.script_lang.specs.PlanRefusal.{plan_refusal_text, in_one_line};
ghost use Rattle.script_lang.specs.declared.reply.plan_refusal.PlanRefusal.TheVariants.{InvalidVolume};

use crate::reply::plan_member::PlanMember;
use crate::text::Text;
use std::alloc::{AllocError, Global};

/// Why a plan isn't submitted.
#[derive(Drop)]
pub enum PlanRefusal {
    /// `inprogress`: another plan is being carried out.
    InProgress,
    /// `invalidversion VERSION`: plans of this version aren't read.
    InvalidVersion { version: u64 },
    /// `hashmismatch WANT HAVE`: WANT was said to be the id of the plan, and it is HAVE.
    HashMismatch { want: Text, have: Text },
    /// `malformed MEMBER`: this member of the plan is out of form.
    Malformed { member: PlanMember },
    /// `oldplan AGE`: the plan is of so many milliseconds ago.
    OldPlan { age: u64 },
    /// `nodemismatch`: the plan is another node's.
    NodeMismatch,
    /// `invalidvolume UUID`: the node hasn't this volume. Each line feed of the UUID is printed as `?`.
    InvalidVolume { uuid: Text },
    /// `invalidmove STEP`: this step, counted from 1, moves from a volume to itself.
    InvalidMove { step: u32 },
}

/// The line that it prints, with its line feed.
pub fn write_plan_refusal(alloc: Global, refusal: &PlanRefusal) -> Result<Vec<u8>, AllocError>
    ensures { IfOk result (λ line. line.items ≡ plan_refusal_text refusal.now ++ 10 ∷ []) }
{
    let line = match refusal {
        PlanRefusal::InProgress => format!(in alloc; "inprogress\n")?,
        PlanRefusal::InvalidVersion { version } => format!(in alloc; "invalidversion {version}\n")?,
        PlanRefusal::HashMismatch { want, have } => {
            let (want, have) = (want.as_str(), have.as_str());
            format!(in alloc; "hashmismatch {want} {have}\n")?
        }
        PlanRefusal::Malformed { member } => format!(in alloc; "malformed {member}\n")?,
        PlanRefusal::OldPlan { age } => format!(in alloc; "oldplan {age}\n")?,
        PlanRefusal::NodeMismatch => format!(in alloc; "nodemismatch\n")?,
        PlanRefusal::InvalidVolume { uuid } => return write_invalid_volume(
            alloc,
            uuid.as_str().as_bytes(),
        ),
        PlanRefusal::InvalidMove { step } => format!(in alloc; "invalidmove {step}\n")?,
    };
    Ok(line.into_bytes())
}

/// The line about a volume that the node hasn't.
fn write_invalid_volume(alloc: Global, uuid: &[u8]) -> Result<Vec<u8>, AllocError>
    ensures { IfOk result (λ line. line.items ≡ plan_refusal_text (InvalidVolume uuid.now) ++ 10 ∷ []) }
{
    let mut line = format!(in alloc; "invalidvolume ")?.into_bytes();
    for b in uuid {
        line.push(in_one_line(*b))?;
    }
    line.push(b'\n')?;
    Ok(line)
}

/// A byte of a text as it is printed in one line.
fn in_one_line(b: u8) -> u8
    ensures { result ≡ in_one_line b }
{
    if b == b'\n' { b'?' } else { b }
}
