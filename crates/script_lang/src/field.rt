//! What a word says that is a field of a line.
ghost use Rattle.std.specs.Prelude.{◌≡◌, ◌≤◌, ◌<◌, ◌+◌, ◌^◌, None, Some, IfSome, MatchOption};
ghost use Rattle.std.specs.Option.{option_and_then};
ghost use Rattle.script_lang.specs.Fields.{unless_empty, text_of, volume_number_of, subdir_of, percent_of, fill_count_of, truth_of};
ghost use Rattle.script_lang.specs.LineRanges.{IsVolumeNumber};
ghost use Rattle.script_lang.specs.Number.{number_of, within};

use crate::number::read_number;

/// The number that a word writes, where it is one of these.
fn read_within(word: &[u8], least: u64, most: u64) -> Option<u64>
    requires { most < 2 ^ 63 }
    ensures value { result ≡ option_and_then (within least (most + 1)) (number_of word.now) }
    ensures range { IfSome result (λ n. (least ≤ n) × (n ≤ most)) }
{
    let number = read_number(word)?;
    if least <= number && number <= most {
        Some(number)
    } else {
        None
    }
}

/// The number of a volume that a word writes.
pub fn read_volume_number(word: &[u8]) -> Option<u8>
    ensures value { result ≡ volume_number_of word.now }
    ensures range { IfSome result IsVolumeNumber }
{
    Some(read_within(word, 1, 64)? as u8)
}

/// The number of a directory in its parent that a word writes.
pub fn read_subdir(word: &[u8]) -> Option<u8>
    ensures value { result ≡ subdir_of word.now }
    ensures range { IfSome result (λ n. n ≤ 31) }
{
    Some(read_within(word, 0, 31)? as u8)
}

/// The percentage that a word writes.
pub fn read_percent(word: &[u8]) -> Option<u8>
    ensures value { result ≡ percent_of word.now }
    ensures range { IfSome result (λ n. n ≤ 100) }
{
    Some(read_within(word, 0, 100)? as u8)
}

/// The number of blocks to be written at once that a word writes.
pub fn read_fill_count(word: &[u8]) -> Option<u64>
    ensures value { result ≡ fill_count_of word.now }
    ensures range { IfSome result (λ n. n ≤ 1000000) }
{
    read_within(word, 0, 1_000_000)
}

/// A text, unless it is empty.
fn unless_empty(text: &str) -> Option<&str>
    ensures { MatchOption result (unless_empty text.now ≡ None) (λ some. unless_empty text.now ≡ Some some.now) }
{
    if text.is_empty() { None } else { Some(text) }
}

/// A word as a text, unless it is empty.
#[tactic(auto, using(crate::proofs::FieldLemmas::text_given, crate::proofs::FieldLemmas::text_refused))]
pub fn read_text(word: &[u8]) -> Option<&str>
    ensures { MatchOption result (text_of word.now ≡ None) (λ text. text_of word.now ≡ Some text.now) }
{
    match str::from_utf8(word) {
        Ok(text) => unless_empty(text),
        Err(_) => None,
    }
}

/// What 0 and 1 say.
pub fn read_truth(word: &[u8]) -> Option<bool>
    ensures { result ≡ truth_of word.now }
{
    match word {
        [b'0'] => Some(false),
        [b'1'] => Some(true),
        _ => None,
    }
}
