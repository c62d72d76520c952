//! Numbers in texts.
ghost use Rattle.std.specs.Prelude.{◌≡◌, IfSome};
ghost use Rattle.script_lang.specs.Number.{number_of, id_of, digits_number, IsId};

use volume_layout::{BlockId, Stamp};

/// The number that digits write.
#[tactic(auto, using(crate::proofs::NumberLemmas::number_over, crate::proofs::NumberLemmas::number_read))]
fn read_digits(digits: &[u8]) -> Option<u64>
    ensures { result ≡ digits_number digits.now }
{
    let mut number = 0u64;
    for digit in digits {
        if !digit.is_ascii_digit() {
            return None;
        }
        number = number
            .checked_mul(10)?
            .checked_add(u64::from(*digit - b'0'))?;
    }
    Some(number)
}

/// The number that a word writes.
pub fn read_number(word: &[u8]) -> Option<u64>
    ensures { result ≡ number_of word.now }
{
    match word {
        [] | [b'0', _, ..] => None,
        _ => read_digits(word),
    }
}

/// The block id that a word writes.
pub fn read_block_id(word: &[u8]) -> Option<BlockId>
    ensures value { result ≡ id_of word.now }
    ensures range { IfSome result IsId }
{
    BlockId::new(read_number(word)?)
}

/// The generation stamp that a word writes.
pub fn read_stamp(word: &[u8]) -> Option<Stamp>
    ensures value { result ≡ id_of word.now }
    ensures range { IfSome result IsId }
{
    Stamp::new(read_number(word)?)
}
