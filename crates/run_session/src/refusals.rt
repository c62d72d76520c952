//! What a start, a deletion or a whole write answers, as a reply.
ghost use Rattle.std.specs.Prelude.{◌≡◌};
ghost use Rattle.run_session.specs.Replies.{refusal_reply, deletion_reply, end_reply};

use client_ops::OpReply;
use pool_state::{DeleteFault, StartFault};
use script_lang::reply::Reply;

/// Why a start was refused, as a reply.
pub fn refusal_of(fault: StartFault) -> Reply
    ensures { result ≡ refusal_reply fault }
{
    match fault {
        StartFault::Exists => Reply::Exists,
        StartFault::None => Reply::NoBlock,
        StartFault::Writing => Reply::Writing,
        StartFault::Waiting => Reply::Waiting,
        StartFault::Unsure => Reply::Unsure,
        StartFault::Full { need, free } => Reply::Full { need, free },
        StartFault::TooLong { limit } => Reply::TooLong { limit },
        StartFault::Worn => Reply::Worn,
        StartFault::Failed => Reply::Failed,
        StartFault::Memory => Reply::Memory,
    }
}

/// Why a block was not deleted, as a reply.
pub fn delete_refusal_of(fault: DeleteFault) -> Reply
    ensures { result ≡ deletion_reply fault }
{
    match fault {
        DeleteFault::None => Reply::NoBlock,
        DeleteFault::Writing => Reply::Writing,
        DeleteFault::Failed => Reply::Failed,
    }
}

/// The answer to a whole write, as a reply.
pub fn end_reply_of(reply: OpReply) -> Reply
    ensures { result ≡ end_reply reply }
{
    match reply {
        OpReply::Ok => Reply::Done,
        OpReply::Failed => Reply::Failed,
        OpReply::Memory => Reply::Memory,
    }
}
