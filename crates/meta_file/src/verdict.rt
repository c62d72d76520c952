//! What a check of a replica answers.
ghost use Rattle.std.specs.Prelude.{Some};
ghost use Rattle.meta_file.specs.Verdicts.{WholeIsMatch};
ghost use Rattle.meta_file.specs.Texts.{verdict_text};

use crate::header::MetaFault;
use std::fmt;

/// What a check of a replica answers: the first of these that applies, in this order of decision: `Meta`, `Count`,
/// `BadChunk` before any missing byte, `Short`, `Whole`.
#[derive(Clone, Copy, Debug, PartialEq, Eq)]
pub enum Verdict {
    /// `whole`: the block has its length, and its checksums match.
    Whole,
    /// `badchunk CHUNK STORED COMPUTED`: this chunk, counted from 0, is the first whose checksums differ.
    BadChunk {
        chunk: u64,
        stored: u32,
        computed: u32,
    },
    /// `count WANT HAVE`: so many bytes of checksums must follow the header, and so many do; more than `want` count as
    /// `want + 1`.
    Count {
        want: u128,
        have: u128,
    },
    /// `short WANT HAVE`: the block gave HAVE bytes of WANT.
    Short {
        want: u64,
        have: u64,
    },
    /// `badmeta` and the fault: the header has one.
    Meta(MetaFault),
}

impl fmt::Display for Verdict {
    ghost output = { λ part. Some (verdict_text part) };

    fn fmt<W: fmt::Write>(&self, f: &mut fmt::Formatter<W>) -> fmt::Result {
        match self {
            Verdict::Whole => f.write_str("whole"),
            Verdict::BadChunk {
                chunk,
                stored,
                computed,
            } => write!(f, "badchunk {chunk} {stored} {computed}"),
            Verdict::Count { want, have } => write!(f, "count {want} {have}"),
            Verdict::Short { want, have } => write!(f, "short {want} {have}"),
            Verdict::Meta(fault) => write!(f, "badmeta {fault}"),
        }
    }
}

/// The verdict is `Whole` exactly where the meta file matches the block.
pub fn whole_is_match()
    ensures { WholeIsMatch }
{}
