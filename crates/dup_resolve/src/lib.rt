//! Which of several meta files of a block counts, and which of its copies on several volumes is kept. The rules are this
//! project's own: the generation stamp decides, as in HDFS, and then the length and the volume.
#![tactic(auto)]

ghost use Rattle.std.specs.Prelude.{◌≡◌, length, MatchBool, MatchOption};
ghost use Rattle.volume_layout.specs.Choice.{GateKeeps};
ghost use Rattle.dup_resolve.specs.Picks.{HasStamp, IsDistinct, IsAtLeast, IsPicked};

use volume_layout::Stamp;

/// The stamp that counts among those of a block's meta files on one volume, which are distinct: the greatest, or where
/// `gate` and two or more are there the greatest but one. The gate stands where a block file of the block is under
/// `current/rbw` on the same volume, so that an append may have stopped between its two renames. It takes no memory.
pub fn pick_meta(stamps: &[Stamp], gate: bool) -> Option<Stamp>
    requires { IsDistinct stamps.now }
    ensures { MatchOption result (length stamps.now ≡ 0) (λ stamp. GateKeeps (HasStamp stamps.now) gate stamp) }
{
    let mut greatest: Option<Stamp> = None;
    let mut second: Option<Stamp> = None;
    for stamp in stamps {
        match greatest {
            Some(top) if *stamp < top => match second {
                Some(next) if *stamp < next => {}
                _ => second = Some(*stamp),
            },
            _ => {
                second = greatest;
                greatest = Some(*stamp);
            }
        }
    }
    match second {
        Some(next) if gate => Some(next),
        _ => greatest,
    }
}

/// A copy of a block on a volume.
#[derive(Clone, Copy, Debug, PartialEq, Eq)]
pub struct CopyRow {
    /// The volume, from 1.
    pub vol: u8,
    /// The generation stamp that counts of its meta files.
    pub stamp: Stamp,
    /// The bytes of its block file.
    pub len: u64,
}

/// Whether a copy comes before another, or else the other before it.
fn comes_first(copy: CopyRow, other: CopyRow, held: Option<u8>) -> bool
    ensures { MatchBool result (IsAtLeast held copy other) (IsAtLeast held other copy) }
{
    let stamp = copy.stamp.get();
    let other_stamp = other.stamp.get();
    if stamp != other_stamp {
        return stamp > other_stamp;
    }
    if copy.len != other.len {
        return copy.len > other.len;
    }
    match held {
        Some(vol) if vol == copy.vol => true,
        Some(vol) if vol == other.vol => false,
        _ => copy.vol <= other.vol,
    }
}

/// The index of the copy that is kept, of copies on distinct volumes: the greatest by stamp, then length, then the one on
/// the volume `held`, then the one on the lowest volume. None exactly where there is no copy. It takes no memory.
pub fn pick_copy(copies: &[CopyRow], held: Option<u8>) -> Option<usize>
    ensures { MatchOption result (length copies.now ≡ 0) (λ index. IsPicked copies.now held index) }
{
    let mut picked: Option<usize> = None;
    for (i, copy) in copies.iter().enumerate() {
        match picked {
            Some(best) if comes_first(copies[best], *copy, held) => {}
            _ => picked = Some(i),
        }
    }
    picked
}

#[cfg(test)]
mod tests;
