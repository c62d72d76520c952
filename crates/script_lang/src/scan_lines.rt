//! Lines about the directory scanner and the volume scanner.
ghost use Rattle.std.specs.Prelude.{◌≡◌, IfOk};
ghost use Rattle.script_lang.specs.ScanLines.{dirlist_line, dirdiff_line, dirfix_line, volload_line, volnext_line, volcheck_line, volreport_line, cursor_line};
ghost use Rattle.script_lang.specs.Script.{scan_line};
ghost use Rattle.script_lang.specs.LineRanges.{IsLineInRange};

use crate::verb::ScanVerb;
use crate::words::Words;
use crate::{Line, LineFault, ScanLine};

/// The rest of a line that begins with this word.
pub fn read_scan_line(verb: ScanVerb, words: &mut Words) -> Result<Line, LineFault>
    ensures line { result ≡ scan_line verb words.old }
    ensures in_range { IfOk result IsLineInRange }
{
    match verb {
        ScanVerb::DirList => read_dirlist(words),
        ScanVerb::DirDiff => words.end(Line::Scan(ScanLine::DirDiff)),
        ScanVerb::DirFix => words.end(Line::Scan(ScanLine::DirFix)),
        ScanVerb::VolLoad => read_volload(words),
        ScanVerb::VolNext => read_volnext(words),
        ScanVerb::VolCheck => read_volcheck(words),
        ScanVerb::VolReport => read_volreport(words),
        ScanVerb::Cursor => read_cursor(words),
    }
}

/// `dirlist VOL D1 D2`.
pub fn read_dirlist(words: &mut Words) -> Result<Line, LineFault>
    ensures line { result ≡ dirlist_line words.old }
    ensures in_range { IfOk result IsLineInRange }
{
    let vol = words.volume()?;
    let d1 = words.subdir()?;
    let d2 = words.subdir()?;
    words.end(Line::Scan(ScanLine::DirList { vol, d1, d2 }))
}

/// `volload VOL`.
pub fn read_volload(words: &mut Words) -> Result<Line, LineFault>
    ensures line { result ≡ volload_line words.old }
    ensures in_range { IfOk result IsLineInRange }
{
    let vol = words.volume()?;
    words.end(Line::Scan(ScanLine::VolLoad { vol }))
}

/// `volnext VOL`.
pub fn read_volnext(words: &mut Words) -> Result<Line, LineFault>
    ensures line { result ≡ volnext_line words.old }
    ensures in_range { IfOk result IsLineInRange }
{
    let vol = words.volume()?;
    words.end(Line::Scan(ScanLine::VolNext { vol }))
}

/// `volcheck VOL`.
pub fn read_volcheck(words: &mut Words) -> Result<Line, LineFault>
    ensures line { result ≡ volcheck_line words.old }
    ensures in_range { IfOk result IsLineInRange }
{
    let vol = words.volume()?;
    words.end(Line::Scan(ScanLine::VolCheck { vol }))
}

/// `volreport VOL`.
pub fn read_volreport(words: &mut Words) -> Result<Line, LineFault>
    ensures line { result ≡ volreport_line words.old }
    ensures in_range { IfOk result IsLineInRange }
{
    let vol = words.volume()?;
    words.end(Line::Scan(ScanLine::VolReport { vol }))
}

/// `cursor VOL`.
pub fn read_cursor(words: &mut Words) -> Result<Line, LineFault>
    ensures line { result ≡ cursor_line words.old }
    ensures in_range { IfOk result IsLineInRange }
{
    let vol = words.volume()?;
    words.end(Line::Scan(ScanLine::Cursor { vol }))
}
