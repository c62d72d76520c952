//! A client's lines about a block.
ghost use Rattle.std.specs.Prelude.{◌≡◌, IfOk, ◌⊎◌, Err};
ghost use Rattle.script_lang.specs.ClientLines.{open_line, grow_line, push_line, finish_line, drop_line, write_line, append_line, read_line, delete_line};
ghost use Rattle.script_lang.specs.ServeRanges.{IsClientLine};
ghost use Rattle.script_lang.specs.Script.{client_line};
ghost use Rattle.script_lang.specs.LineRanges.{IsLineInRange};
ghost use Rattle.script_lang.specs.declared.LineFault.TheVariants.{Memory};

use crate::verb::ClientVerb;
use crate::words::Words;
use crate::{ClientLine, Line, LineFault};
use std::alloc::Global;

/// The rest of a line that begins with this word.
pub fn read_client_line(
    alloc: Global,
    verb: ClientVerb,
    words: &mut Words,
) -> Result<Line, LineFault>
    ensures line { (result ≡ Err Memory) ⊎ (result ≡ client_line verb words.old) }
    ensures in_range { IfOk result IsLineInRange }
{
    match verb {
        ClientVerb::Open => read_open(words),
        ClientVerb::Grow => read_grow(words),
        ClientVerb::Push => read_push(alloc, words),
        ClientVerb::Finish => read_finish(words),
        ClientVerb::Drop => read_drop(words),
        ClientVerb::Write => read_write(alloc, words),
        ClientVerb::Append => read_append(alloc, words),
        ClientVerb::Read => read_read(words),
        ClientVerb::Delete => read_delete(words),
    }
}

/// `open ID STAMP NEED`.
pub fn read_open(words: &mut Words) -> Result<Line, LineFault>
    ensures line { result ≡ open_line words.old }
    ensures in_range { IfOk result IsLineInRange }
{
    let id = words.id()?;
    let stamp = words.stamp()?;
    let need = words.number()?;
    words.end(Line::Client(ClientLine::Open { id, stamp, need }))
}

/// `grow ID STAMP MORE`.
pub fn read_grow(words: &mut Words) -> Result<Line, LineFault>
    ensures line { result ≡ grow_line words.old }
    ensures in_range { IfOk result IsLineInRange }
{
    let id = words.id()?;
    let stamp = words.stamp()?;
    let more = words.number()?;
    words.end(Line::Client(ClientLine::Grow { id, stamp, more }))
}

/// `push ID HEX`.
pub fn read_push(alloc: Global, words: &mut Words) -> Result<Line, LineFault>
    ensures line { (result ≡ Err Memory) ⊎ (result ≡ push_line words.old) }
    ensures in_range { IfOk result IsLineInRange }
{
    let id = words.id()?;
    let hex = words.bytes(alloc)?;
    words.end(Line::Client(ClientLine::Push { id, hex }))
}

/// `finish ID`.
pub fn read_finish(words: &mut Words) -> Result<Line, LineFault>
    ensures line { result ≡ finish_line words.old }
    ensures in_range { IfOk result IsLineInRange }
{
    let id = words.id()?;
    words.end(Line::Client(ClientLine::Finish { id }))
}

/// `drop ID`.
pub fn read_drop(words: &mut Words) -> Result<Line, LineFault>
    ensures line { result ≡ drop_line words.old }
    ensures in_range { IfOk result IsLineInRange }
{
    let id = words.id()?;
    words.end(Line::Client(ClientLine::Drop { id }))
}

/// `write ID STAMP HEX`.
pub fn read_write(alloc: Global, words: &mut Words) -> Result<Line, LineFault>
    ensures line { (result ≡ Err Memory) ⊎ (result ≡ write_line words.old) }
    ensures in_range { IfOk result IsLineInRange }
    ensures client { IfOk result IsClientLine }
{
    let id = words.id()?;
    let stamp = words.stamp()?;
    let hex = words.bytes(alloc)?;
    words.end(Line::Client(ClientLine::Write { id, stamp, hex }))
}

/// `append ID STAMP HEX`.
pub fn read_append(alloc: Global, words: &mut Words) -> Result<Line, LineFault>
    ensures line { (result ≡ Err Memory) ⊎ (result ≡ append_line words.old) }
    ensures in_range { IfOk result IsLineInRange }
    ensures client { IfOk result IsClientLine }
{
    let id = words.id()?;
    let stamp = words.stamp()?;
    let hex = words.bytes(alloc)?;
    words.end(Line::Client(ClientLine::Append { id, stamp, hex }))
}

/// `read ID`.
pub fn read_read(words: &mut Words) -> Result<Line, LineFault>
    ensures line { result ≡ read_line words.old }
    ensures in_range { IfOk result IsLineInRange }
    ensures client { IfOk result IsClientLine }
{
    let id = words.id()?;
    words.end(Line::Client(ClientLine::Read { id }))
}

/// `delete ID`.
pub fn read_delete(words: &mut Words) -> Result<Line, LineFault>
    ensures line { result ≡ delete_line words.old }
    ensures in_range { IfOk result IsLineInRange }
    ensures client { IfOk result IsClientLine }
{
    let id = words.id()?;
    words.end(Line::Client(ClientLine::Delete { id }))
}
