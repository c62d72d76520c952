//! Lines about the whole node.
ghost use Rattle.std.specs.Prelude.{◌≡◌, IfOk, ◌⊎◌, Err};
ghost use Rattle.script_lang.specs.NodeLines.{at_line, use_line, reopen_line, report_line, fill_line};
ghost use Rattle.script_lang.specs.ServeRanges.{IsClientLine};
ghost use Rattle.script_lang.specs.Script.{node_line};
ghost use Rattle.script_lang.specs.LineRanges.{IsLineInRange};
ghost use Rattle.script_lang.specs.declared.LineFault.TheVariants.{Memory};

use crate::verb::NodeVerb;
use crate::words::Words;
use crate::{Line, LineFault, NodeLine};
use std::alloc::Global;

/// The rest of a line that begins with this word.
pub fn read_node_line(alloc: Global, verb: NodeVerb, words: &mut Words) -> Result<Line, LineFault>
    ensures line { (result ≡ Err Memory) ⊎ (result ≡ node_line verb words.old) }
    ensures in_range { IfOk result IsLineInRange }
{
    match verb {
        NodeVerb::At => read_at(words),
        NodeVerb::Use => read_use(alloc, words),
        NodeVerb::Reopen => words.end(Line::Node(NodeLine::Reopen)),
        NodeVerb::Report => words.end(Line::Node(NodeLine::Report)),
        NodeVerb::Fill => read_fill(words),
    }
}

/// `at MS`.
pub fn read_at(words: &mut Words) -> Result<Line, LineFault>
    ensures line { result ≡ at_line words.old }
    ensures in_range { IfOk result IsLineInRange }
{
    let ms = words.number()?;
    words.end(Line::Node(NodeLine::At { ms }))
}

/// `use POOL`.
pub fn read_use(alloc: Global, words: &mut Words) -> Result<Line, LineFault>
    ensures line { (result ≡ Err Memory) ⊎ (result ≡ use_line words.old) }
    ensures in_range { IfOk result IsLineInRange }
    ensures client { IfOk result IsClientLine }
{
    let pool = words.text(alloc)?;
    words.end(Line::Node(NodeLine::Use { pool }))
}

/// `fill COUNT SEED`.
pub fn read_fill(words: &mut Words) -> Result<Line, LineFault>
    ensures line { result ≡ fill_line words.old }
    ensures in_range { IfOk result IsLineInRange }
{
    let count = words.fill_count()?;
    let seed = words.number()?;
    words.end(Line::Node(NodeLine::Fill { count, seed }))
}
