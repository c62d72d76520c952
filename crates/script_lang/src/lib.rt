//! The language of the scripts: the lines that come in, the replies that go out, and the words of a command line.
#![tactic(auto)]

mod balancer_lines;
pub mod bytes;
mod client_lines;
mod field;
mod line;
pub mod listed;
mod move_lines;
pub mod names;
mod node_lines;
pub mod node_words;
pub mod number;
pub mod reply;
mod scan_lines;
pub mod serve;
mod serve_verb;
pub mod text;
mod verb;
mod volume_word;
pub mod words;
mod words_fault;

ghost use Rattle.std.specs.Prelude.{◌≡◌, ◌⊎◌, Err, IfOk};
ghost use Rattle.script_lang.specs.LineRanges.{IsLineInRange};
ghost use Rattle.script_lang.specs.Script.{is_blank, line_after, line_of};
ghost use Rattle.script_lang.specs.declared.LineFault.TheVariants.{Memory};

use crate::balancer_lines::read_balancer_line;
use crate::client_lines::read_client_line;
pub use crate::line::{BalancerLine, ClientLine, Line, MoveLine, NodeLine, ScanLine};
use crate::move_lines::read_move_line;
use crate::node_lines::read_node_line;
pub use crate::reply::{Reply, write_reply};
use crate::scan_lines::read_scan_line;
pub use crate::serve::{ServeLine, read_serve_line};
use crate::verb::Verb;
use crate::words::Words;
use std::alloc::Global;

/// Why a line was not read.
#[derive(Clone, Copy, Debug, PartialEq, Eq)]
pub enum LineFault {
    /// The first word that doesn't fit stands at this byte, from 1; where a word is missing, it is one past the
    /// line's end.
    Bad { column: u64 },
    /// There is no memory for the line.
    Memory,
}

/// Whether a line is passed over.
fn is_blank(line: &[u8]) -> bool
    ensures { result ≡ is_blank line.now }
{
    matches!(line, [] | [b'#', ..])
}

/// The rest of a line that begins with this word.
fn read_line_after(alloc: Global, verb: Verb, words: &mut Words) -> Result<Line, LineFault>
    ensures line { (result ≡ Err Memory) ⊎ (result ≡ line_after verb words.old) }
    ensures in_range { IfOk result IsLineInRange }
{
    match verb {
        Verb::Node(verb) => read_node_line(alloc, verb, words),
        Verb::Client(verb) => read_client_line(alloc, verb, words),
        Verb::Move(verb) => read_move_line(verb, words),
        Verb::Balancer(verb) => read_balancer_line(alloc, verb, words),
        Verb::Scan(verb) => read_scan_line(verb, words),
    }
}

/// Reads a line of a script, given without its line feed. A carriage return at its end is a part of its last word.
#[tactic(auto, unfolding(crate::specs::Script::line_of))]
pub fn read_line(alloc: Global, line: &[u8]) -> Result<Line, LineFault>
    ensures line { (result ≡ Err Memory) ⊎ (result ≡ line_of line.now) }
    ensures in_range { IfOk result IsLineInRange }
{
    if is_blank(line) {
        return Ok(Line::Blank);
    }
    let mut words = Words::new(line);
    let verb = words.verb()?;
    read_line_after(alloc, verb, &mut words)
}

#[cfg(test)]
mod tests;
