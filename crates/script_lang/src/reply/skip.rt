//! Why a move passes a block over.
ghost use Rattle.std.specs.Prelude.{Some};
ghost use Rattle.script_lang.specs.Skip.{skip_text};

use std::fmt;

/// Why a move passes a block over.
#[derive(Clone, Copy, Debug, PartialEq, Eq)]
pub enum Skip {
    /// `gone`: there is no such block.
    Gone,
    /// `writing`: the block is being written.
    Writing,
    /// `unsure`: the disks didn't tell whether the last write of the block took effect.
    Unsure,
    /// `moving`: the block is being moved already.
    Moving,
    /// `same`: the block stands on that volume.
    Same,
    /// `leftover STAMP`: a leftover of the block with this stamp is on that volume.
    Leftover { stamp: u64 },
    /// `noroom NEED FREE`: that volume has no more than FREE bytes of room.
    NoRoom { need: u64, free: u64 },
    /// `changed WANT HAVE`: the block has another revision by now.
    Changed { want: u64, have: u64 },
}

impl fmt::Display for Skip {
    ghost output = { λ part. Some (skip_text part) };

    fn fmt<W: fmt::Write>(&self, f: &mut fmt::Formatter<W>) -> fmt::Result {
        match self {
            Skip::Gone => f.write_str("gone"),
            Skip::Writing => f.write_str("writing"),
            Skip::Unsure => f.write_str("unsure"),
            Skip::Moving => f.write_str("moving"),
            Skip::Same => f.write_str("same"),
            Skip::Leftover { stamp } => write!(f, "leftover {stamp}"),
            Skip::NoRoom { need, free } => write!(f, "noroom {need} {free}"),
            Skip::Changed { want, have } => write!(f, "changed {want} {have}"),
        }
    }
}
