//! Lines about the disk balancer's plan.
ghost use Rattle.std.specs.Prelude.{◌≡◌, IfOk, ◌⊎◌, Err};
ghost use Rattle.script_lang.specs.BalancerLines.{balance_line, execute_line, query_line, cancel_line, mover_line};
ghost use Rattle.script_lang.specs.ServeRanges.{IsClientLine};
ghost use Rattle.script_lang.specs.Script.{balancer_line};
ghost use Rattle.script_lang.specs.LineRanges.{IsLineInRange};
ghost use Rattle.script_lang.specs.declared.LineFault.TheVariants.{Memory};

use crate::verb::BalancerVerb;
use crate::words::Words;
use crate::{BalancerLine, Line, LineFault};
use std::alloc::Global;

/// The rest of a line that begins with this word.
pub fn read_balancer_line(
    alloc: Global,
    verb: BalancerVerb,
    words: &mut Words,
) -> Result<Line, LineFault>
    ensures line { (result ≡ Err Memory) ⊎ (result ≡ balancer_line verb words.old) }
    ensures in_range { IfOk result IsLineInRange }
{
    match verb {
        BalancerVerb::Balance => read_balance(words),
        BalancerVerb::Execute => read_execute(alloc, words),
        BalancerVerb::Query => words.end(Line::Balancer(BalancerLine::Query)),
        BalancerVerb::Cancel => read_cancel(alloc, words),
        BalancerVerb::Mover => words.end(Line::Balancer(BalancerLine::Mover)),
    }
}

/// `balance T`.
pub fn read_balance(words: &mut Words) -> Result<Line, LineFault>
    ensures line { result ≡ balance_line words.old }
    ensures in_range { IfOk result IsLineInRange }
{
    let t = words.percent()?;
    words.end(Line::Balancer(BalancerLine::Balance { t }))
}

/// `execute ID VERSION FORCE JSON`.
pub fn read_execute(alloc: Global, words: &mut Words) -> Result<Line, LineFault>
    ensures line { (result ≡ Err Memory) ⊎ (result ≡ execute_line words.old) }
    ensures in_range { IfOk result IsLineInRange }
{
    let id = words.text(alloc)?;
    let version = words.number()?;
    let force = words.truth()?;
    let json = words.rest(alloc)?;
    Ok(Line::Balancer(BalancerLine::Execute {
        id,
        version,
        force,
        json,
    }))
}

/// `cancel ID`.
pub fn read_cancel(alloc: Global, words: &mut Words) -> Result<Line, LineFault>
    ensures line { (result ≡ Err Memory) ⊎ (result ≡ cancel_line words.old) }
    ensures in_range { IfOk result IsLineInRange }
    ensures client { IfOk result IsClientLine }
{
    let id = words.text(alloc)?;
    words.end(Line::Balancer(BalancerLine::Cancel { id }))
}
