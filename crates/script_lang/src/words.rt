//! The words of a line, one after another.
ghost use Rattle.std.specs.Prelude.{◌≡◌, ℕ, ◌+◌, ◌≤◌, ◌⊎◌, Some, None, Ok, Err, length, drop, take, MatchOption, OnOk, OnSome, IfOk, IfErr};
ghost use Rattle.script_lang.specs.Fields.{bytes_of, text_of, volume_number_of, subdir_of, percent_of, fill_count_of, truth_of};
ghost use Rattle.script_lang.specs.LineRanges.{IsVolumeNumber};
ghost use Rattle.script_lang.specs.Number.{number_of, id_of, IsId};
ghost use Rattle.script_lang.specs.ServeVerbs.{serve_verb_of, job_verb_of};
ghost use Rattle.script_lang.specs.Verbs.{verb_of};
ghost use Rattle.script_lang.specs.declared.LineFault.TheVariants.{Bad, Memory};
ghost use Rattle.script_lang.specs.Words.{Cursor, first_word, word_at, behind_word, column_at, field, rest_at, rest_field, ends_with};

use crate::LineFault;
use crate::bytes::Bytes;
use crate::field::{
    read_fill_count, read_percent, read_subdir, read_text, read_truth, read_volume_number,
};
use crate::number::{read_block_id, read_number, read_stamp};
use crate::serve_verb::{JobVerb, ServeVerb, read_job_verb, read_serve_verb};
use crate::text::Text;
use crate::verb::{Verb, read_verb};
use hex::FromHexError;
use std::alloc::Global;
use std::marker::Model;
use volume_layout::{BlockId, Stamp};

/// The words of a line that are left.
#[derive(Drop)]
pub struct Words<'a> {
    line: &'a [u8],
    at: usize,
}

impl<'a> Model for Words<'a> {
    ghost Value = { Cursor };

    ghost view = { λ w. record { line = w.line.now; at = w.at } };

    ghost invariant = { λ w. w.at ≤ length w.line.now + 1 };
}

/// How long the first word is.
#[tactic(auto, using(crate::proofs::WordLemmas::first_word_more, crate::proofs::WordLemmas::first_word_found, crate::proofs::WordLemmas::first_word_all))]
fn first_word_len(text: &[u8]) -> usize
    ensures within { result ≤ length text.now }
    ensures word { take result text.now ≡ first_word text.now }
{
    for (at, b) in text.iter().enumerate() {
        if *b == b' ' {
            return at;
        }
    }
    text.len()
}

impl<'a> Words<'a> {
    pub fn new(line: &'a [u8]) -> Words<'a>
        ensures line { result.line ≡ line.now }
        ensures start { result.at ≡ 0 }
    {
        Words { line, at: 0 }
    }

    /// Where the next word stands, or is missing: a byte of the line from 1, or one past its end.
    pub fn column(&self) -> u64
        ensures { result ≡ column_at self.now }
    {
        self.at.min(self.line.len()) as u64 + 1
    }

    /// The next word.
    pub fn next(&mut self) -> Option<&'a [u8]>
        ensures word { MatchOption result (word_at self.old ≡ None) (λ word. word_at self.old ≡ Some word.now) }
        ensures behind { OnSome result (self.new ≡ behind_word self.old) }
        ensures none { result ≡ None → self.new ≡ self.old }
    {
        if self.at > self.line.len() {
            return None;
        }
        let rest = &self.line[self.at..];
        let len = first_word_len(rest);
        self.at += len + 1;
        Some(&rest[..len])
    }

    /// The next word, which is to be there.
    fn word(&mut self) -> Result<&'a [u8], LineFault>
        ensures ok { IfOk result (λ word. word_at self.old ≡ Some word.now) }
        ensures behind { OnOk result (self.new ≡ behind_word self.old) }
        ensures err { IfErr result (λ fault. (fault ≡ Bad (column_at self.old)) × (word_at self.old ≡ None)) }
    {
        let column = self.column();
        self.next().ok_or(LineFault::Bad { column })
    }

    /// The next word, which is to be a number.
    pub fn number(&mut self) -> Result<u64, LineFault>
        ensures value { result ≡ field number_of self.old }
        ensures behind { OnOk result (self.new ≡ behind_word self.old) }
    {
        let column = self.column();
        let word = self.word()?;
        read_number(word).ok_or(LineFault::Bad { column })
    }

    /// The next word, which is to be a block id.
    pub fn id(&mut self) -> Result<BlockId, LineFault>
        ensures value { result ≡ field id_of self.old }
        ensures range { IfOk result IsId }
        ensures behind { OnOk result (self.new ≡ behind_word self.old) }
    {
        let column = self.column();
        let word = self.word()?;
        read_block_id(word).ok_or(LineFault::Bad { column })
    }

    /// The next word, which is to be a generation stamp.
    pub fn stamp(&mut self) -> Result<Stamp, LineFault>
        ensures value { result ≡ field id_of self.old }
        ensures range { IfOk result IsId }
        ensures behind { OnOk result (self.new ≡ behind_word self.old) }
    {
        let column = self.column();
        let word = self.word()?;
        read_stamp(word).ok_or(LineFault::Bad { column })
    }

    /// The next word, which is to be hexadecimal digits.
    pub fn bytes(&mut self, alloc: Global) -> Result<Bytes, LineFault>
        ensures value { (result ≡ Err Memory) ⊎ (result ≡ field bytes_of self.old) }
        ensures behind { OnOk result (self.new ≡ behind_word self.old) }
    {
        let column = self.column();
        let word = self.word()?;
        match hex::decode(alloc, word) {
            Ok(bytes) => Ok(Bytes::new(bytes)),
            Err(FromHexError::OutOfMemory) => Err(LineFault::Memory),
            Err(_) => Err(LineFault::Bad { column }),
        }
    }

    /// The next word, which is to be the first word of a line.
    pub(crate) fn verb(&mut self) -> Result<Verb, LineFault>
        ensures value { result ≡ field verb_of self.old }
        ensures behind { OnOk result (self.new ≡ behind_word self.old) }
    {
        let column = self.column();
        let word = self.word()?;
        read_verb(word).ok_or(LineFault::Bad { column })
    }

    /// The next word, which is to be the first word of a line of jobs and clients.
    pub(crate) fn serve_verb(&mut self) -> Result<ServeVerb, LineFault>
        ensures value { result ≡ field serve_verb_of self.old }
        ensures behind { OnOk result (self.new ≡ behind_word self.old) }
    {
        let column = self.column();
        let word = self.word()?;
        read_serve_verb(word).ok_or(LineFault::Bad { column })
    }

    /// The next word, which is to be the second word of a job's line.
    pub(crate) fn job_verb(&mut self) -> Result<JobVerb, LineFault>
        ensures value { result ≡ field job_verb_of self.old }
        ensures behind { OnOk result (self.new ≡ behind_word self.old) }
    {
        let column = self.column();
        let word = self.word()?;
        read_job_verb(word).ok_or(LineFault::Bad { column })
    }

    /// The next word, which is to be a text that isn't empty.
    pub fn text(&mut self, alloc: Global) -> Result<Text, LineFault>
        ensures value { (result ≡ Err Memory) ⊎ (result ≡ field text_of self.old) }
        ensures behind { OnOk result (self.new ≡ behind_word self.old) }
    {
        let column = self.column();
        let word = self.word()?;
        let Some(text) = read_text(word) else {
            return Err(LineFault::Bad { column });
        };
        match Text::from_text(alloc, text) {
            Ok(text) => Ok(text),
            Err(_) => Err(LineFault::Memory),
        }
    }

    /// The next word, which is to be the number of a volume.
    pub fn volume(&mut self) -> Result<u8, LineFault>
        ensures value { result ≡ field volume_number_of self.old }
        ensures range { IfOk result IsVolumeNumber }
        ensures behind { OnOk result (self.new ≡ behind_word self.old) }
    {
        let column = self.column();
        let word = self.word()?;
        read_volume_number(word).ok_or(LineFault::Bad { column })
    }

    /// The next word, which is to be the number of a directory in its parent.
    pub fn subdir(&mut self) -> Result<u8, LineFault>
        ensures value { result ≡ field subdir_of self.old }
        ensures range { IfOk result (λ n. n ≤ 31) }
        ensures behind { OnOk result (self.new ≡ behind_word self.old) }
    {
        let column = self.column();
        let word = self.word()?;
        read_subdir(word).ok_or(LineFault::Bad { column })
    }

    /// The next word, which is to be a percentage.
    pub fn percent(&mut self) -> Result<u8, LineFault>
        ensures value { result ≡ field percent_of self.old }
        ensures range { IfOk result (λ n. n ≤ 100) }
        ensures behind { OnOk result (self.new ≡ behind_word self.old) }
    {
        let column = self.column();
        let word = self.word()?;
        read_percent(word).ok_or(LineFault::Bad { column })
    }

    /// The next word, which is to be how many blocks are written at once.
    pub fn fill_count(&mut self) -> Result<u64, LineFault>
        ensures value { result ≡ field fill_count_of self.old }
        ensures range { IfOk result (λ n. n ≤ 1000000) }
        ensures behind { OnOk result (self.new ≡ behind_word self.old) }
    {
        let column = self.column();
        let word = self.word()?;
        read_fill_count(word).ok_or(LineFault::Bad { column })
    }

    /// The next word, which is to be 0 for no or 1 for yes.
    pub fn truth(&mut self) -> Result<bool, LineFault>
        ensures value { result ≡ field truth_of self.old }
        ensures behind { OnOk result (self.new ≡ behind_word self.old) }
    {
        let column = self.column();
        let word = self.word()?;
        read_truth(word).ok_or(LineFault::Bad { column })
    }

    /// All that is left of the line, unless a word is missing before it.
    fn rest_of_line(&self) -> Option<&'a [u8]>
        ensures { MatchOption result (rest_at self.now ≡ None) (λ rest. rest_at self.now ≡ Some rest.now) }
    {
        if self.at > self.line.len() {
            return None;
        }
        Some(&self.line[self.at..])
    }

    /// The rest of the line, which is to be there, though it may be empty.
    pub fn rest(&self, alloc: Global) -> Result<Bytes, LineFault>
        ensures value { (result ≡ Err Memory) ⊎ (result ≡ rest_field self.now) }
    {
        let Some(rest) = self.rest_of_line() else {
            return Err(LineFault::Bad {
                column: self.column(),
            });
        };
        match Bytes::from_slice(alloc, rest) {
            Ok(bytes) => Ok(bytes),
            Err(_) => Err(LineFault::Memory),
        }
    }

    /// The value, where no word is left.
    pub fn end<T: Drop>(&self, value: T) -> Result<T, LineFault>
        ensures value { result ≡ ends_with self.now value }
        ensures same { IfOk result (λ v. v ≡ value) }
    {
        if self.at <= self.line.len() {
            return Err(LineFault::Bad {
                column: self.column(),
            });
        }
        Ok(value)
    }
}
