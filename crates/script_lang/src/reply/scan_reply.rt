//! What is answered to lines about scanners.
ghost use Rattle.std.specs.Prelude.{◌≡◌, [], ◌∷◌, ◌++◌, IfOk, Some};
ghost use Rattle.script_lang.specs.ScanReply.{scan_reply_text};

use crate::reply::cursor_member::CursorMember;
use crate::reply::kept::Kept;
use meta_file::Verdict;
use std::alloc::{AllocError, Global};
use std::fmt;

/// What is answered to lines about scanners.
#[derive(Clone, Copy, Debug, PartialEq, Eq)]
pub enum ScanReply {
    /// `listed N`: a directory of so many names is listed.
    Listed { n: u64 },
    /// `differences N`: so many differences were found.
    Differences { n: u64 },
    /// `nolisting`: no listing is kept.
    NoListing,
    /// `fixed ignored`: there is no difference any more.
    FixedIgnored,
    /// `fixed lost`: the entry of a block whose file is gone was taken off the books.
    FixedLost,
    /// `fixed found`: a block that stands was put on the books.
    FixedFound,
    /// `fixed removed`: a file was removed.
    FixedRemoved,
    /// `fixed kept KEPT`: the difference stays as it is.
    FixedKept { kept: Kept },
    /// `nodiff`: no difference is pending.
    NoDifference,
    /// `cursor D1 D2 ID`: the pass goes on behind this place.
    CursorAt { d1: u8, d2: u8, id: u64 },
    /// `cursor none`: no cursor is stored.
    CursorAbsent,
    /// `cursor syntax`: the stored cursor has no reading.
    CursorSyntax,
    /// `cursor member MEMBER`: this member of the stored cursor is absent or out of form.
    CursorMember { member: CursorMember },
    /// `block ID REV`: this block of this revision is next.
    Block { id: u64, rev: u64 },
    /// `atend`: the pass is at its end.
    AtEnd,
    /// `verdict VERDICT`: what the check of the block says.
    Verdict { verdict: Verdict },
    /// `nocheck`: no block is picked.
    NoCheck,
    /// `noted`: the verdict is noted.
    Noted,
    /// `gone`: the block is gone.
    Gone,
    /// `changed WANT HAVE`: the block has another revision: HAVE in place of WANT.
    Changed { want: u64, have: u64 },
    /// `unchecked`: the picked block has no verdict yet.
    Unchecked,
}

impl fmt::Display for ScanReply {
    ghost output = { λ reply. Some (scan_reply_text reply) };

    fn fmt<W: fmt::Write>(&self, f: &mut fmt::Formatter<W>) -> fmt::Result {
        match self {
            ScanReply::Listed { n } => write!(f, "listed {n}"),
            ScanReply::Differences { n } => write!(f, "differences {n}"),
            ScanReply::NoListing => f.write_str("nolisting"),
            ScanReply::FixedIgnored => f.write_str("fixed ignored"),
            ScanReply::FixedLost => f.write_str("fixed lost"),
            ScanReply::FixedFound => f.write_str("fixed found"),
            ScanReply::FixedRemoved => f.write_str("fixed removed"),
            ScanReply::FixedKept { kept } => write!(f, "fixed kept {kept}"),
            ScanReply::NoDifference => f.write_str("nodiff"),
            ScanReply::CursorAt { d1, d2, id } => write!(f, "cursor {d1} {d2} {id}"),
            ScanReply::CursorAbsent => f.write_str("cursor none"),
            ScanReply::CursorSyntax => f.write_str("cursor syntax"),
            ScanReply::CursorMember { member } => write!(f, "cursor member {member}"),
            ScanReply::Block { id, rev } => write!(f, "block {id} {rev}"),
            ScanReply::AtEnd => f.write_str("atend"),
            ScanReply::Verdict { verdict } => write!(f, "verdict {verdict}"),
            ScanReply::NoCheck => f.write_str("nocheck"),
            ScanReply::Noted => f.write_str("noted"),
            ScanReply::Gone => f.write_str("gone"),
            ScanReply::Changed { want, have } => write!(f, "changed {want} {have}"),
            ScanReply::Unchecked => f.write_str("unchecked"),
        }
    }
}

/// The line that it prints, with its line feed.
pub fn write_scan_reply(alloc: Global, reply: &ScanReply) -> Result<Vec<u8>, AllocError>
    ensures { IfOk result (λ line. line.items ≡ scan_reply_text reply.now ++ 10 ∷ []) }
{
    let line = format!(in alloc; "{reply}\n")?;
    Ok(line.into_bytes())
}
