//! The lines of a script whose jobs and client run beside each other.
ghost use Rattle.std.specs.Prelude.{◌≡◌, ◌⊎◌, Err, IfOk};
ghost use Rattle.script_lang.specs.LineRanges.{IsLineInRange};
ghost use Rattle.script_lang.specs.ServeRanges.{IsClientLine, IsServeLineInRange};
ghost use Rattle.script_lang.specs.ServeScript.{fill_blocks, balance_job, execute_job, volscan_job, job_after, job_line, client_of, serve_line_after, serve_line_of};
ghost use Rattle.script_lang.specs.declared.LineFault.TheVariants.{Memory};

use crate::balancer_lines::read_cancel;
use crate::bytes::Bytes;
use crate::client_lines::{read_append, read_delete, read_read, read_write};
use crate::node_lines::read_use;
use crate::serve_verb::{JobVerb, ServeVerb};
use crate::text::Text;
use crate::words::Words;
use crate::{BalancerLine, Line, LineFault, is_blank};
use std::alloc::Global;

/// A line of a script of jobs and clients. Its words are as those of `Line`.
#[derive(Drop)]
pub enum ServeLine {
    /// Passed over: it is empty, or begins with `#`.
    Blank,
    /// `end` ends a phase.
    End,
    /// `report`, between phases, gives the use of the volumes.
    Report,
    /// `fill COUNT SEED`, between phases, writes COUNT blocks.
    Fill {
        count: u64,
        seed: u64,
    },
    /// `job balance T` plans with threshold T, and carries the plan out.
    Balance {
        t: u8,
    },
    /// `job execute ID VERSION FORCE JSON` carries a plan out.
    Execute {
        id: Text,
        version: u64,
        force: bool,
        json: Bytes,
    },
    /// `job dirscan` compares all directories with the books.
    DirScan,
    /// `job volscan VOL` checks the blocks of a volume.
    VolScan {
        vol: u8,
    },
    /// A line of the client: `use`, `write`, `append`, `read`, `delete`, `query` or `cancel`.
    Client(Line),
}

/// The rest of a `fill` line.
fn read_fill_blocks(words: &mut Words) -> Result<ServeLine, LineFault>
    ensures line { result ≡ fill_blocks words.old }
    ensures in_range { IfOk result IsServeLineInRange }
{
    let count = words.fill_count()?;
    let seed = words.number()?;
    words.end(ServeLine::Fill { count, seed })
}

/// The rest of a `job balance` line.
fn read_balance_job(words: &mut Words) -> Result<ServeLine, LineFault>
    ensures line { result ≡ balance_job words.old }
    ensures in_range { IfOk result IsServeLineInRange }
{
    let t = words.percent()?;
    words.end(ServeLine::Balance { t })
}

/// The rest of a `job execute` line.
fn read_execute_job(alloc: Global, words: &mut Words) -> Result<ServeLine, LineFault>
    ensures line { (result ≡ Err Memory) ⊎ (result ≡ execute_job words.old) }
    ensures in_range { IfOk result IsServeLineInRange }
{
    let id = words.text(alloc)?;
    let version = words.number()?;
    let force = words.truth()?;
    let json = words.rest(alloc)?;
    Ok(ServeLine::Execute {
        id,
        version,
        force,
        json,
    })
}

/// The rest of a `job volscan` line.
fn read_volscan_job(words: &mut Words) -> Result<ServeLine, LineFault>
    ensures line { result ≡ volscan_job words.old }
    ensures in_range { IfOk result IsServeLineInRange }
{
    let vol = words.volume()?;
    words.end(ServeLine::VolScan { vol })
}

/// The rest of a job's line behind this word.
fn read_job_after(alloc: Global, verb: JobVerb, words: &mut Words) -> Result<ServeLine, LineFault>
    ensures line { (result ≡ Err Memory) ⊎ (result ≡ job_after verb words.old) }
    ensures in_range { IfOk result IsServeLineInRange }
{
    match verb {
        JobVerb::Balance => read_balance_job(words),
        JobVerb::Execute => read_execute_job(alloc, words),
        JobVerb::DirScan => words.end(ServeLine::DirScan),
        JobVerb::VolScan => read_volscan_job(words),
    }
}

/// The rest of a `job` line.
fn read_job(alloc: Global, words: &mut Words) -> Result<ServeLine, LineFault>
    ensures line { (result ≡ Err Memory) ⊎ (result ≡ job_line words.old) }
    ensures in_range { IfOk result IsServeLineInRange }
{
    let verb = words.job_verb()?;
    read_job_after(alloc, verb, words)
}

/// A line of a script as one of the client.
fn client_of(line: Result<Line, LineFault>) -> Result<ServeLine, LineFault>
    requires in_range { IfOk line IsLineInRange }
    requires client { IfOk line IsClientLine }
    ensures line { result ≡ client_of line }
    ensures in_range { IfOk result IsServeLineInRange }
{
    Ok(ServeLine::Client(line?))
}

/// The rest of a line that begins with this word.
fn read_serve_line_after(
    alloc: Global,
    verb: ServeVerb,
    words: &mut Words,
) -> Result<ServeLine, LineFault>
    ensures line { (result ≡ Err Memory) ⊎ (result ≡ serve_line_after verb words.old) }
    ensures in_range { IfOk result IsServeLineInRange }
{
    match verb {
        ServeVerb::End => words.end(ServeLine::End),
        ServeVerb::Report => words.end(ServeLine::Report),
        ServeVerb::Fill => read_fill_blocks(words),
        ServeVerb::Job => read_job(alloc, words),
        ServeVerb::Use => client_of(read_use(alloc, words)),
        ServeVerb::Write => client_of(read_write(alloc, words)),
        ServeVerb::Append => client_of(read_append(alloc, words)),
        ServeVerb::Read => client_of(read_read(words)),
        ServeVerb::Delete => client_of(read_delete(words)),
        ServeVerb::Query => client_of(words.end(Line::Balancer(BalancerLine::Query))),
        ServeVerb::Cancel => client_of(read_cancel(alloc, words)),
    }
}

/// Reads a line of a script of jobs and clients, given without its line feed, by the rules of `read_line`.
#[tactic(auto, unfolding(crate::specs::ServeScript::serve_line_of))]
pub fn read_serve_line(alloc: Global, line: &[u8]) -> Result<ServeLine, LineFault>
    ensures line { (result ≡ Err Memory) ⊎ (result ≡ serve_line_of line.now) }
    ensures in_range { IfOk result IsServeLineInRange }
{
    if is_blank(line) {
        return Ok(ServeLine::Blank);
    }
    let mut words = Words::new(line);
    let verb = words.serve_verb()?;
    read_serve_line_after(alloc, verb, &mut words)
}
