//! A source, line by line. A line ends at a line feed, byte 10, or at the end of the source; all its other bytes are text.
ghost use Rattle.std.specs.Prelude.{◌≡◌, ◌≢◌, ℕ, ◌+◌, ◌<◌, ◌≤◌, ◌⊎◌, ◌++◌, true, false, Ok, Err, [], length, take, drop, slice_index, IfSome, IfOk, IfNone, OnOk, OnErr, IsErr, IsErrOf};
ghost use Rattle.std.specs.Io.KnownBytes.{Consumes, IsAtEnd};
ghost use Rattle.std.specs.List.{slice_range};
ghost use Rattle.disk_model.specs.Causes.{Rose, HasCause};
ghost use Rattle.line_io.specs.Lines.{HasNoLineFeed, OfUnread, TakesLine, FirstPassesLimit};
ghost use Rattle.line_io.specs.Pending.{Pending};
ghost use Rattle.line_io.specs.declared.lines.ReadFault.TheVariants.{Source, Memory};

use crate::{INPUT_LIMIT, LINE_LIMIT};
use disk_model::{Failed, Source};
use memchr::memchr;
use std::alloc::AllocError;
use std::marker::Model;

/// Why no line was read.
#[derive(Clone, Copy, Debug, PartialEq, Eq)]
pub enum ReadFault {
    /// The source failed.
    Source,
    /// The line is longer than `LINE_LIMIT`, or the input up to its end longer than `INPUT_LIMIT`.
    Limit,
    /// There is no memory for the line.
    Memory,
}

impl From<Failed> for ReadFault {
    ghost from_gives = { λ _ fault. fault ≡ Source };

    fn from(_failed: Failed) -> ReadFault {
        ReadFault::Source
    }
}

impl From<AllocError> for ReadFault {
    ghost from_gives = { λ _ fault. fault ≡ Memory };

    fn from(_no_memory: AllocError) -> ReadFault {
        ReadFault::Memory
    }
}

/// Hands out the lines of a source, which it reads through a buffer. It counts the bytes that it handed out, line feeds
/// included.
#[derive(Drop)]
pub struct LineReader {
    buffer: Vec<u8>,
    start: usize,
    end: usize,
    count: u64,
}

impl Model for LineReader {
    ghost Value = { Pending };

    ghost view = { λ r. record { bytes = slice_range r.buffer.items r.start r.«end»; count = r.count } };

    ghost invariant = { λ r. (r.start ≤ r.«end») × (r.«end» ≤ length r.buffer.items) × (0 < length r.buffer.items) };
}

impl LineReader {
    /// A reader of what a source has left, in pieces of at most the buffer's length.
    pub fn new(buffer: Vec<u8>) -> LineReader
        requires { 0 < length buffer.items }
        ensures nothing { result.bytes ≡ [] }
        ensures count { result.count ≡ 0 }
    {
        LineReader {
            buffer,
            start: 0,
            end: 0,
            count: 0,
        }
    }

    // What was read and not handed out.
    fn pending(&self) -> &[u8]
        ensures { result.now ≡ self.now.bytes }
    {
        &self.buffer[self.start..self.end]
    }

    // Reads a piece where nothing is pending, and answers whether something is then. What is unread stays the same.
    #[tactic(auto, using(crate::proofs::Unread::unread_same, crate::proofs::Unread::unread_read, crate::proofs::Unread::unread_failed))]
    fn refill<S: Source>(&mut self, source: &mut S) -> Result<bool, Failed>
        ensures same { OfUnread (λ unread rest. unread ≡ rest) self.old.bytes (S.left source.old) self.new.bytes (S.left source.new) }
        ensures some { result ≡ Ok true → 0 < length self.new.bytes }
        ensures none { result ≡ Ok false → (self.new.bytes ≡ []) × IsAtEnd (S.left source.new) }
        ensures count { self.new.count ≡ self.old.count }
        ensures cause { HasCause (S.faults source.old) (S.faults source.new) (IsErr result) }
    {
        if self.start < self.end {
            return Ok(true);
        }
        let n = source.read(&mut self.buffer)?;
        self.start = 0;
        self.end = n;
        Ok(n != 0)
    }

    // Hands out the first pending bytes: `text` of them onto the line, and a line feed if `whole` is one more.
    #[tactic(auto, using(crate::proofs::Unread::range_rest))]
    fn hand_out(&mut self, line: &mut Vec<u8>, text: usize, whole: usize) -> Result<(), ReadFault>
        requires text { text ≤ whole }
        requires whole { whole ≤ length self.old.bytes }
        ensures line { OnOk result (line.new.items ≡ line.old.items ++ take text self.old.bytes) }
        ensures rest { OnOk result (self.new.bytes ≡ drop whole self.old.bytes) }
        ensures count { OnOk result (self.new.count ≡ self.old.count + whole) }
        ensures line_limit { OnOk result (length line.new.items ≤ LINE_LIMIT) }
        ensures input_limit { OnOk result (self.new.count ≤ INPUT_LIMIT) }
        ensures limit { IsErrOf result ReadFault.Limit → (LINE_LIMIT < length line.old.items + text) ⊎ (INPUT_LIMIT < self.old.count + whole) }
        ensures kept { OnErr result (self.new ≡ self.old) }
        ensures kept_line { OnErr result (line.new.items ≡ line.old.items) }
        ensures not_source { result ≢ Err ReadFault.Source }
    {
        let count = self.count.saturating_add(whole as u64);
        if line.len().saturating_add(text) > LINE_LIMIT || count > INPUT_LIMIT {
            return Err(ReadFault::Limit);
        }
        let from = self.start;
        line.extend_from_slice(&self.buffer[from..from + text])?;
        self.start = from + whole;
        self.count = count;
        Ok(())
    }

    /// The next line, without its line feed, in place of what the vector holds. It answers false where the source
    /// has ended and no line is left. After an `Err` the vector holds what was read of the line, and what follows it is
    /// unread.
    #[tactic(auto, using(crate::proofs::Unread::unread_kept))]
    pub fn next_line<S: Source>(
        &mut self,
        source: &mut S,
        line: &mut Vec<u8>,
    ) -> Result<bool, ReadFault>
        ensures line { result ≡ Ok true → OfUnread (λ unread rest. TakesLine self.old.count unread line.new.items self.new.count rest) self.old.bytes (S.left source.old) self.new.bytes (S.left source.new) }
        ensures ended { result ≡ Ok false → OfUnread (λ unread rest. (unread ≡ []) × (rest ≡ [])) self.old.bytes (S.left source.old) self.new.bytes (S.left source.new) }
        ensures at_end { result ≡ Ok false → IsAtEnd (S.left source.new) }
        ensures counted { result ≡ Ok true → self.old.count < self.new.count }
        ensures in_limit { result ≡ Ok true → self.new.count ≤ INPUT_LIMIT }
        ensures empty { result ≡ Ok false → line.new.items ≡ [] }
        ensures unmoved { result ≡ Ok false → self.new.count ≡ self.old.count }
        ensures rest { OnErr result (OfUnread (λ unread rest. unread ≡ line.new.items ++ rest) self.old.bytes (S.left source.old) self.new.bytes (S.left source.new)) }
        ensures rest_counted { OnErr result (self.new.count ≡ self.old.count + length line.new.items) }
        ensures limit { IsErrOf result ReadFault.Limit → IfSome (S.left source.old) (λ left. FirstPassesLimit self.old.count (self.old.bytes ++ left)) }
        ensures source { IsErrOf result ReadFault.Source → Rose (S.faults source.old) (S.faults source.new) }
        ensures later { S.faults source.old ≤ S.faults source.new }
    {
        line.clear();
        'pieces: loop {
            if !self.refill(source)? {
                return Ok(!line.is_empty());
            }
            let pending = self.pending();
            let len = pending.len();
            match line_feed_at(pending) {
                Some(at) => {
                    self.hand_out(line, at, at + 1)?;
                    return Ok(true);
                }
                None => self.hand_out(line, len, len)?,
            }
        }
    }
}

// Where the first line feed stands.
fn line_feed_at(bytes: &[u8]) -> Option<usize>
    ensures within { IfSome result (λ at. at < length bytes.now) }
    ensures found { IfSome result (λ at. slice_index bytes.now at ≡ 10) }
    ensures before { IfSome result (λ at. HasNoLineFeed (take at bytes.now)) }
    ensures none { IfNone result (HasNoLineFeed bytes.now) }
{
    memchr(b'\n', bytes)
}
