//! The rows of a source, up to its end.
ghost use Rattle.std.specs.Prelude.{◌≡◌, ◌≤◌, IfOk, IfErr, IfSome, OnOk, IsOk, IsErrOf};
ghost use Rattle.std.specs.Io.KnownBytes.{IsAtEnd};
ghost use Rattle.disk_model.specs.Causes.{Rose};
ghost use Rattle.script_lang.specs.Script.{is_blank};
ghost use Rattle.plan_tool.specs.Rows.{AreRows, AtEnd, input_of};
ghost use Rattle.plan_tool.specs.Session.{AddsLine, LineStops, StopsWith, IsOfRows};

use crate::reading::read_row;
use crate::row::Row;
use disk_model::Source;
use line_io::LineReader;
use run_end::Ending;
use script_lang::LineFault;
use std::alloc::Global;

/// How many bytes are asked of the source at a time.
const PIECE: usize = 65_536;

/// Whether a line is passed over.
fn is_blank(text: &[u8]) -> bool
    ensures { result ≡ is_blank text.now }
{
    matches!(text, [] | [b'#', ..])
}

/// Adds the row of a line, unless the line is passed over.
fn add_line(alloc: Global, rows: &mut Vec<Row>, number: u64, text: &[u8]) -> Result<(), Ending>
    requires { AreRows rows.old.items }
    ensures ok { OnOk result (AddsLine rows.old.items text.now rows.new.items) }
    ensures rows { OnOk result (AreRows rows.new.items) }
    ensures err { IfErr result (LineStops rows.old.items number text.now) }
{
    if is_blank(text) {
        return Ok(());
    }
    match read_row(alloc, rows, text) {
        Ok(row) => match rows.push(row) {
            Ok(()) => Ok(()),
            Err(_) => Err(Ending::NoMemory),
        },
        Err(LineFault::Bad { column }) => Err(Ending::Outside {
            line: number,
            column,
        }),
        Err(_) => Err(Ending::NoMemory),
    }
}

/// The rows of a source that is read to its end.
pub fn read_rows<S: Source>(alloc: Global, source: &mut S) -> Result<Vec<Row>, Ending>
    ensures ok { IfOk result (λ rows. IfSome (S.left source.old) (λ bytes. input_of bytes ≡ record { rows = rows.items; stop = AtEnd })) }
    ensures rows { IfOk result (λ rows. AreRows rows.items) }
    ensures err { IfErr result (λ ending. IfSome (S.left source.old) (λ bytes. StopsWith (input_of bytes).stop ending)) }
    ensures of_rows { IfErr result IsOfRows }
    ensures at_end { IsOk result → IsAtEnd (S.left source.new) }
    ensures source { IsErrOf result Ending.SourceFault → Rose (S.faults source.old) (S.faults source.new) }
    ensures later { S.faults source.old ≤ S.faults source.new }
{
    let Ok(buffer) = vec![in alloc; 0u8; PIECE] else {
        return Err(Ending::NoMemory);
    };
    let mut reader = LineReader::new(buffer);
    let mut text = Vec::new(alloc);
    let mut rows = Vec::new(alloc);
    let mut number = 0u64;
    'lines: loop {
        let line = number + 1;
        let found = match reader.next_line(source, &mut text) {
            Ok(found) => found,
            Err(fault) => return Err(Ending::of_read(fault, line)),
        };
        if !found {
            return Ok(rows);
        }
        match add_line(alloc, &mut rows, line, &text) {
            Ok(()) => {}
            Err(ending) => return Err(ending),
        }
        number = line;
    }
}
