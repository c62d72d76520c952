//! Why a difference stays as it is.
ghost use Rattle.std.specs.Prelude.{Some};
ghost use Rattle.script_lang.specs.Kept.{kept_text};

use std::fmt;

/// Why a difference stays as it is.
#[derive(Clone, Copy, Debug, PartialEq, Eq)]
pub enum Kept {
    /// `length WANT HAVE`: the file has HAVE bytes in place of WANT.
    Length { want: u64, have: u64 },
    /// `nometa`: the block has no meta file.
    NoMeta,
    /// `second STAMP LEN`: there is a second, greater copy, of this stamp and length.
    Second { stamp: u64, len: u64 },
    /// `worn`: the pool has no revision left.
    Worn,
}

impl fmt::Display for Kept {
    ghost output = { λ part. Some (kept_text part) };

    fn fmt<W: fmt::Write>(&self, f: &mut fmt::Formatter<W>) -> fmt::Result {
        match self {
            Kept::Length { want, have } => write!(f, "length {want} {have}"),
            Kept::NoMeta => f.write_str("nometa"),
            Kept::Second { stamp, len } => write!(f, "second {stamp} {len}"),
            Kept::Worn => f.write_str("worn"),
        }
    }
}
