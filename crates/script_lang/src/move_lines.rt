//! Lines about the move of a replica from one volume to another.
ghost use Rattle.std.specs.Prelude.{◌≡◌, IfOk};
ghost use Rattle.script_lang.specs.MoveLines.{mbegin_line, mcopy_line, mseal_line, mpublish_line, mdrop_line, sweep_line};
ghost use Rattle.script_lang.specs.Script.{move_line};
ghost use Rattle.script_lang.specs.LineRanges.{IsLineInRange};

use crate::verb::MoveVerb;
use crate::words::Words;
use crate::{Line, LineFault, MoveLine};

/// The rest of a line that begins with this word.
pub fn read_move_line(verb: MoveVerb, words: &mut Words) -> Result<Line, LineFault>
    ensures line { result ≡ move_line verb words.old }
    ensures in_range { IfOk result IsLineInRange }
{
    match verb {
        MoveVerb::Begin => read_mbegin(words),
        MoveVerb::Copy => read_mcopy(words),
        MoveVerb::Seal => read_mseal(words),
        MoveVerb::Publish => read_mpublish(words),
        MoveVerb::Drop => read_mdrop(words),
        MoveVerb::Sweep => words.end(Line::Move(MoveLine::Sweep)),
    }
}

/// `mbegin ID VOL`.
pub fn read_mbegin(words: &mut Words) -> Result<Line, LineFault>
    ensures line { result ≡ mbegin_line words.old }
    ensures in_range { IfOk result IsLineInRange }
{
    let id = words.id()?;
    let vol = words.volume()?;
    words.end(Line::Move(MoveLine::Begin { id, vol }))
}

/// `mcopy ID N`.
pub fn read_mcopy(words: &mut Words) -> Result<Line, LineFault>
    ensures line { result ≡ mcopy_line words.old }
    ensures in_range { IfOk result IsLineInRange }
{
    let id = words.id()?;
    let n = words.number()?;
    words.end(Line::Move(MoveLine::Copy { id, n }))
}

/// `mseal ID`.
pub fn read_mseal(words: &mut Words) -> Result<Line, LineFault>
    ensures line { result ≡ mseal_line words.old }
    ensures in_range { IfOk result IsLineInRange }
{
    let id = words.id()?;
    words.end(Line::Move(MoveLine::Seal { id }))
}

/// `mpublish ID`.
pub fn read_mpublish(words: &mut Words) -> Result<Line, LineFault>
    ensures line { result ≡ mpublish_line words.old }
    ensures in_range { IfOk result IsLineInRange }
{
    let id = words.id()?;
    words.end(Line::Move(MoveLine::Publish { id }))
}

/// `mdrop ID`.
pub fn read_mdrop(words: &mut Words) -> Result<Line, LineFault>
    ensures line { result ≡ mdrop_line words.old }
    ensures in_range { IfOk result IsLineInRange }
{
    let id = words.id()?;
    words.end(Line::Move(MoveLine::Drop { id }))
}
