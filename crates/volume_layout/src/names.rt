// The names of files in a directory.
ghost use Rattle.std.specs.Prelude.{◌≡◌, ◌≢◌, ℕ, decimal, IfSome, IfNone};
ghost use Rattle.volume_layout.specs.Paths as paths;
ghost use Rattle.volume_layout.specs.Names.{Names, NamesHaveOneReading};

use crate::ids::{BlockId, Stamp};
use itoa::Buffer;

/// What a file's name names. Numbers stand in decimal, without sign or leading zeros, in the range of ids and stamps.
#[derive(Clone, Copy)]
pub enum Named {
    /// `blk_ID`.
    Block(BlockId),
    /// `blk_ID_STAMP.meta`.
    Meta(BlockId, Stamp),
    /// Any other name.
    Other,
}

/// The number from 1 to 2^63 - 1 that a text writes in decimal, without leading zeros.
fn number_in(text: &str) -> Option<u64>
    ensures some { IfSome result (λ n. paths.IsBlockId n × (text.now ≡ decimal n)) }
    ensures none { IfNone result ((n : ℕ) → paths.IsBlockId n → text.now ≢ decimal n) }
{
    let Ok(n) = text.parse::<u64>() else {
        return None;
    };
    let mut buffer = Buffer::new();
    if n >= 1 && n < 1 << 63 && buffer.format(n) == text {
        Some(n)
    } else {
        None
    }
}

/// What a file's name names: a block file, a meta file, or neither.
pub fn read_name(name: &str) -> Named
    ensures { Names name.now result }
{
    let Some(rest) = name.strip_prefix("blk_") else {
        return Named::Other;
    };
    match rest.strip_suffix(".meta") {
        None => match number_in(rest) {
            Some(id) => Named::Block(BlockId(id)),
            None => Named::Other,
        },
        Some(middle) => match middle.split_once('_') {
            None => Named::Other,
            Some((id, stamp)) => match number_in(id) {
                None => Named::Other,
                Some(id) => match number_in(stamp) {
                    None => Named::Other,
                    Some(stamp) => Named::Meta(BlockId(id), Stamp(stamp)),
                },
            },
        },
    }
}

/// A name has one reading.
pub fn names_have_one_reading()
    ensures { NamesHaveOneReading }
{}
