//! The replies: what a node answers to the lines of a script.
pub mod balancer_reply;
pub mod cursor_member;
pub mod job_reply;
pub mod kept;
pub mod move_reply;
pub mod mover_reply;
pub mod node_reply;
pub mod plan;
pub mod plan_member;
pub mod plan_refusal;
pub mod plan_state;
pub mod report;
pub mod scan_reply;
pub mod skip;
pub mod step_end;

ghost use Rattle.std.specs.Prelude.{◌≡◌, ◌+◌, ◌*◌, ◌^◌, ◌<◌, [], ◌∷◌, ◌++◌, IfOk, IfSome, OnOk};
ghost use Rattle.hex.specs.Hex.{encode_lower};
ghost use Rattle.script_lang.specs.Reply.{reply_line};
ghost use Rattle.script_lang.specs.declared.reply.Reply.TheVariants.{Data};

use crate::bytes::Bytes;
use crate::reply::balancer_reply::{BalancerReply, write_balancer_reply};
use crate::reply::job_reply::{JobReply, write_job_reply};
use crate::reply::move_reply::{MoveReply, write_move_reply};
use crate::reply::mover_reply::{MoverReply, write_mover_reply};
use crate::reply::node_reply::{NodeReply, write_node_reply};
use crate::reply::scan_reply::{ScanReply, write_scan_reply};
use meta_file::Verdict;
use std::alloc::{AllocError, Global};

/// The answer to a line of a script. Its text is a line of ASCII, numbers in decimal and bytes in lower-case
/// hexadecimal digits.
#[derive(Drop)]
pub enum Reply {
    /// `ok`: the command was carried out.
    Done,
    /// `data STAMP HEX`: the generation stamp of a block, and its bytes.
    Data { stamp: u64, bytes: Bytes },
    /// `exists`: the block stands already.
    Exists,
    /// `none`: there is no such block.
    NoBlock,
    /// `writing`: the block is being written.
    Writing,
    /// `waiting`: a write of the block ended early, and its files wait to be removed.
    Waiting,
    /// `unsure`: the disks didn't tell whether the last write of the block took effect.
    Unsure,
    /// `oldstamp HAVE`: the new generation stamp isn't above the block's, which is HAVE.
    OldStamp { have: u64 },
    /// `full NEED FREE`: the command needs NEED bytes of room, and no volume has more than FREE.
    Full { need: u64, free: u64 },
    /// `toolong LIMIT`: the block would have more than LIMIT bytes.
    TooLong { limit: u64 },
    /// `failed`: a call of the disks failed.
    Failed,
    /// `memory`: there is no memory for the command.
    Memory,
    /// `over LEFT`: more bytes were pushed than the LEFT that the writer may still take.
    Over { left: u64 },
    /// `nowriter`: the block isn't being written.
    NoWriter,
    /// `worn`: the pool has no revision left for a new write.
    Worn,
    /// What the check of a replica says that isn't whole: `short WANT HAVE`, `badchunk CHUNK STORED COMPUTED`,
    /// `count WANT HAVE`, or `badmeta` with the fault of a header.
    Bad(Verdict),
    /// About the whole node.
    Node(NodeReply),
    /// About moves and leftovers.
    Move(MoveReply),
    /// About the disk balancer's plan.
    Balancer(BalancerReply),
    /// About a step of the plan's job.
    Mover(MoverReply),
    /// About scanners.
    Scan(ScanReply),
    /// About a job of a phase.
    Job(JobReply),
}

/// The line that a reply prints, with its line feed. An error says that there is no memory for it.
pub fn write_reply(alloc: Global, reply: &Reply) -> Result<Vec<u8>, AllocError>
    ensures { IfOk result (λ line. line.items ≡ reply_line reply.now) }
{
    let line = match reply {
        Reply::Done => format!(in alloc; "ok\n")?,
        Reply::Data { stamp, bytes } => return write_data(alloc, *stamp, bytes.as_slice()),
        Reply::Exists => format!(in alloc; "exists\n")?,
        Reply::NoBlock => format!(in alloc; "none\n")?,
        Reply::Writing => format!(in alloc; "writing\n")?,
        Reply::Waiting => format!(in alloc; "waiting\n")?,
        Reply::Unsure => format!(in alloc; "unsure\n")?,
        Reply::OldStamp { have } => format!(in alloc; "oldstamp {have}\n")?,
        Reply::Full { need, free } => format!(in alloc; "full {need} {free}\n")?,
        Reply::TooLong { limit } => format!(in alloc; "toolong {limit}\n")?,
        Reply::Failed => format!(in alloc; "failed\n")?,
        Reply::Memory => format!(in alloc; "memory\n")?,
        Reply::Over { left } => format!(in alloc; "over {left}\n")?,
        Reply::NoWriter => format!(in alloc; "nowriter\n")?,
        Reply::Worn => format!(in alloc; "worn\n")?,
        Reply::Bad(verdict) => format!(in alloc; "{verdict}\n")?,
        Reply::Node(reply) => return write_node_reply(alloc, reply),
        Reply::Move(reply) => return write_move_reply(alloc, reply),
        Reply::Balancer(reply) => return write_balancer_reply(alloc, reply),
        Reply::Mover(reply) => return write_mover_reply(alloc, reply),
        Reply::Scan(reply) => return write_scan_reply(alloc, reply),
        Reply::Job(reply) => return write_job_reply(alloc, reply),
    };
    Ok(line.into_bytes())
}

/// The line of a block's bytes. Its memory is taken once, for the whole line.
fn write_data(alloc: Global, stamp: u64, bytes: &[u8]) -> Result<Vec<u8>, AllocError>
    ensures { IfOk result (λ line. line.items ≡ reply_line (Data stamp bytes.now)) }
{
    let mut line = format!(in alloc; "data {stamp} ")?.into_bytes();
    append_digits(&mut line, bytes)?;
    Ok(line)
}

/// Writes bytes as hexadecimal digits, and a line feed, behind a line.
fn append_digits(line: &mut Vec<u8>, bytes: &[u8]) -> Result<(), AllocError>
    ensures { OnOk result (line.new.items ≡ line.old.items ++ encode_lower bytes.now ++ 10 ∷ []) }
{
    let start = line.len();
    let end = digits_end(start, bytes.len()).ok_or(AllocError)?;
    line.resize(end + 1, b'\n')?;
    match hex::encode_to_slice(bytes, &mut line[start..end]) {
        Ok(()) => Ok(()),
        Err(_) => unreachable!(),
    }
}

/// Where the digits of so many bytes end that begin at `start`, unless a line can't be so long.
fn digits_end(start: usize, bytes: usize) -> Option<usize>
    ensures { IfSome result (λ end. (end ≡ start + 2 * bytes) × (end + 1 < 2 ^ 64)) }
{
    let end = bytes.checked_mul(2)?.checked_add(start)?;
    end.checked_add(1)?;
    Some(end)
}
