//! What a job of a phase answers once the phase has ended.
ghost use Rattle.std.specs.Prelude.{◌≡◌, [], ◌∷◌, ◌++◌, IfOk};
ghost use Rattle.script_lang.specs.JobReply.{job_reply_text};
ghost use Rattle.script_lang.specs.declared.reply.job_reply.JobReply.TheVariants.{PlanRefused};

use crate::reply::plan_refusal::{PlanRefusal, write_plan_refusal};
use std::alloc::{AllocError, Global};

/// What a job of a phase answers once the phase has ended.
#[derive(Drop)]
pub enum JobReply {
    /// `execute PLAN_DONE BLOCKS BYTES ERRORS`: the plan of a `balance` or `execute` job is done. The numbers are the
    /// sums over its steps, at most 1,024 of 64 bits each.
    PlanDone {
        blocks: u128,
        bytes: u128,
        errors: u128,
    },
    /// `execute PLAN_CANCELLED BLOCKS BYTES ERRORS`: it was cancelled.
    PlanCancelled {
        blocks: u128,
        bytes: u128,
        errors: u128,
    },
    /// `execute REFUSAL`: it wasn't submitted.
    PlanRefused {
        refusal: PlanRefusal,
    },
    /// `execute memory`: there was no memory for it, or for going on with it.
    PlanMemory,
    /// `dirscan LOST FOUND REMOVED KEPT FAILED`: how many differences between directories and books were settled in
    /// each way, how many stay as they are, and how many steps failed.
    DirScanned {
        lost: u64,
        found: u64,
        removed: u64,
        kept: u64,
        failed: u64,
    },
    /// `dirscan memory`: there was no memory for it.
    DirScanMemory,
    /// `volscan WHOLE BAD CHANGED FAILED`: how many blocks of the volume were whole, how many were not, how many were
    /// changed or gone meanwhile, and how many steps failed.
    VolScanned {
        whole: u64,
        bad: u64,
        changed: u64,
        failed: u64,
    },
    /// `volscan memory`: there was no memory for it.
    VolScanMemory,
    /// `volscan novolume`: there is no volume of this number.
    VolScanNoVolume,
}

/// The line that it prints, with its line feed.
pub fn write_job_reply(alloc: Global, reply: &JobReply) -> Result<Vec<u8>, AllocError>
    ensures { IfOk result (λ line. line.items ≡ job_reply_text reply.now ++ 10 ∷ []) }
{
    let line = match reply {
        JobReply::PlanDone {
            blocks,
            bytes,
            errors,
        } => format!(in alloc; "execute PLAN_DONE {blocks} {bytes} {errors}\n")?,
        JobReply::PlanCancelled {
            blocks,
            bytes,
            errors,
        } => format!(in alloc; "execute PLAN_CANCELLED {blocks} {bytes} {errors}\n")?,
        JobReply::PlanRefused { refusal } => return write_refused_job(alloc, refusal),
        JobReply::PlanMemory => format!(in alloc; "execute memory\n")?,
        JobReply::DirScanned {
            lost,
            found,
            removed,
            kept,
            failed,
        } => format!(in alloc; "dirscan {lost} {found} {removed} {kept} {failed}\n")?,
        JobReply::DirScanMemory => format!(in alloc; "dirscan memory\n")?,
        JobReply::VolScanned {
            whole,
            bad,
            changed,
            failed,
        } => format!(in alloc; "volscan {whole} {bad} {changed} {failed}\n")?,
        JobReply::VolScanMemory => format!(in alloc; "volscan memory\n")?,
        JobReply::VolScanNoVolume => format!(in alloc; "volscan novolume\n")?,
    };
    Ok(line.into_bytes())
}

/// The line of a job whose plan wasn't submitted.
fn write_refused_job(alloc: Global, refusal: &PlanRefusal) -> Result<Vec<u8>, AllocError>
    ensures { IfOk result (λ line. line.items ≡ job_reply_text (PlanRefused refusal.now) ++ 10 ∷ []) }
{
    let refused = write_plan_refusal(alloc, refusal)?;
    let mut line = format!(in alloc; "execute ")?.into_bytes();
    line.extend_from_slice(refused.as_slice())?;
    Ok(line)
}
