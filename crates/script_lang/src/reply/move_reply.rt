//! What is answered to lines about moves and leftovers.
ghost use Rattle.std.specs.Prelude.{◌≡◌, [], ◌∷◌, ◌++◌, IfOk, Some};
ghost use Rattle.script_lang.specs.MoveReply.{move_reply_text};

use crate::reply::skip::Skip;
use std::alloc::{AllocError, Global};
use std::fmt;

/// What is answered to lines about moves and leftovers.
#[derive(Clone, Copy, Debug, PartialEq, Eq)]
pub enum MoveReply {
    /// `moving LEN`: the move of a block of LEN bytes has begun.
    Moving { len: u64 },
    /// `skipped WHY`: the block is passed over.
    Skipped { why: Skip },
    /// `nomove`: no move of the block is open.
    NoMove,
    /// `copied TOTAL`: TOTAL bytes are copied so far.
    Copied { total: u64 },
    /// `sealed`: the copy is sealed.
    Sealed,
    /// `uncopied LEFT`: LEFT bytes are still to be copied.
    Uncopied { left: u64 },
    /// `moved BYTES`: the block of BYTES bytes stands on its new volume.
    Moved { bytes: u64 },
    /// `unsealed`: the copy isn't sealed yet.
    Unsealed,
    /// `swept ID`: a leftover of this block was removed.
    Swept { id: u64 },
    /// `nothing`: there is no leftover to be removed.
    Nothing,
}

impl fmt::Display for MoveReply {
    ghost output = { λ reply. Some (move_reply_text reply) };

    fn fmt<W: fmt::Write>(&self, f: &mut fmt::Formatter<W>) -> fmt::Result {
        match self {
            MoveReply::Moving { len } => write!(f, "moving {len}"),
            MoveReply::Skipped { why } => write!(f, "skipped {why}"),
            MoveReply::NoMove => f.write_str("nomove"),
            MoveReply::Copied { total } => write!(f, "copied {total}"),
            MoveReply::Sealed => f.write_str("sealed"),
            MoveReply::Uncopied { left } => write!(f, "uncopied {left}"),
            MoveReply::Moved { bytes } => write!(f, "moved {bytes}"),
            MoveReply::Unsealed => f.write_str("unsealed"),
            MoveReply::Swept { id } => write!(f, "swept {id}"),
            MoveReply::Nothing => f.write_str("nothing"),
        }
    }
}

/// The line that it prints, with its line feed.
pub fn write_move_reply(alloc: Global, reply: &MoveReply) -> Result<Vec<u8>, AllocError>
    ensures { IfOk result (λ line. line.items ≡ move_reply_text reply.now ++ 10 ∷ []) }
{
    let line = format!(in alloc; "{reply}\n")?;
    Ok(line.into_bytes())
}
