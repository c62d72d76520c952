//! What is answered to a step of the plan's job.
ghost use Rattle.std.specs.Prelude.{◌≡◌, [], ◌∷◌, ◌++◌, IfOk, Some};
ghost use Rattle.script_lang.specs.MoverReply.{mover_reply_text};

use crate::reply::skip::Skip;
use meta_file::Verdict;
use std::alloc::{AllocError, Global};
use std::fmt;

/// What is answered to a step of the plan's job.
#[derive(Clone, Copy, Debug, PartialEq, Eq)]
pub enum MoverReply {
    /// `mover idle`: no plan is under progress.
    Idle,
    /// `mover stepend STEP done`: this step is done.
    StepDone { step: u32 },
    /// `mover stepend STEP errorlimit ERRORS`: this step ended after so many errors.
    StepErrorLimit { step: u32, errors: u64 },
    /// `mover stepend STEP noblock`: this step ended for want of a block that fits.
    StepNoBlock { step: u32 },
    /// `mover task STEP`: the job goes on with this step.
    Task { step: u32 },
    /// `mover moving ID`: the move of this block has begun.
    Moving { id: u64 },
    /// `mover skipped ID WHY`: this block is passed over.
    Skipped { id: u64, why: Skip },
    /// `mover nonein POOL`: no block of this pool fits.
    NoneIn { pool: u8 },
    /// `mover noblock STEP`: no block of any pool fits this step.
    NoBlock { step: u32 },
    /// `mover failed ID`: a call of the disks failed for this block.
    Failed { id: u64 },
    /// `mover worn`: the pool has no revision left.
    Worn,
    /// `mover memory`: there is no memory for the step.
    Memory,
    /// `mover copied ID TOTAL`: so many bytes of this block are copied so far.
    Copied { id: u64, total: u64 },
    /// `mover bad ID VERDICT`: this block isn't whole.
    Bad { id: u64, verdict: Verdict },
    /// `mover sealed ID`: the copy of this block is sealed.
    Sealed { id: u64 },
    /// `mover moved ID BYTES`: this block of so many bytes stands on its new volume.
    Moved { id: u64, bytes: u64 },
    /// `mover dropped ID`: the move of this block was given up.
    Dropped { id: u64 },
    /// `mover counted STEP`: what came of the move counts for this step.
    Counted { step: u32 },
    /// `mover stale`: there is another plan by now.
    Stale,
    /// `mover swept`: a leftover was removed.
    Swept,
    /// `mover nothing`: there is no leftover to be removed.
    Nothing,
    /// `mover sweepfailed`: a call of the disks failed at a leftover.
    SweepFailed,
    /// `mover rest UNTIL`: the job rests until this moment.
    Rest { until: u64 },
}

impl fmt::Display for MoverReply {
    ghost output = { λ reply. Some (mover_reply_text reply) };

    fn fmt<W: fmt::Write>(&self, f: &mut fmt::Formatter<W>) -> fmt::Result {
        match self {
            MoverReply::Idle => f.write_str("mover idle"),
            MoverReply::StepDone { step } => write!(f, "mover stepend {step} done"),
            MoverReply::StepErrorLimit { step, errors } => {
                write!(f, "mover stepend {step} errorlimit {errors}")
            }
            MoverReply::StepNoBlock { step } => write!(f, "mover stepend {step} noblock"),
            MoverReply::Task { step } => write!(f, "mover task {step}"),
            MoverReply::Moving { id } => write!(f, "mover moving {id}"),
            MoverReply::Skipped { id, why } => write!(f, "mover skipped {id} {why}"),
            MoverReply::NoneIn { pool } => write!(f, "mover nonein {pool}"),
            MoverReply::NoBlock { step } => write!(f, "mover noblock {step}"),
            MoverReply::Failed { id } => write!(f, "mover failed {id}"),
            MoverReply::Worn => f.write_str("mover worn"),
            MoverReply::Memory => f.write_str("mover memory"),
            MoverReply::Copied { id, total } => write!(f, "mover copied {id} {total}"),
            MoverReply::Bad { id, verdict } => write!(f, "mover bad {id} {verdict}"),
            MoverReply::Sealed { id } => write!(f, "mover sealed {id}"),
            MoverReply::Moved { id, bytes } => write!(f, "mover moved {id} {bytes}"),
            MoverReply::Dropped { id } => write!(f, "mover dropped {id}"),
            MoverReply::Counted { step } => write!(f, "mover counted {step}"),
            MoverReply::Stale => f.write_str("mover stale"),
            MoverReply::Swept => f.write_str("mover swept"),
            MoverReply::Nothing => f.write_str("mover nothing"),
            MoverReply::SweepFailed => f.write_str("mover sweepfailed"),
            MoverReply::Rest { until } => write!(f, "mover rest {until}"),
        }
    }
}

/// The line that it prints, with its line feed.
pub fn write_mover_reply(alloc: Global, reply: &MoverReply) -> Result<Vec<u8>, AllocError>
    ensures { IfOk result (λ line. line.items ≡ mover_reply_text reply.now ++ 10 ∷ []) }
{
    let line = format!(in alloc; "{reply}\n")?;
    Ok(line.into_bytes())
}
