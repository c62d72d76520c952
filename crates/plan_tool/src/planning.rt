//! The planner: rows in, the plan and its id out.
ghost use Rattle.std.specs.Prelude.{◌≡◌, ◌≤◌, ◌⊎◌, map, string_bytes, Ok, Err, IfSome};
ghost use Rattle.std.specs.Io.KnownBytes.{IsAtEnd};
ghost use Rattle.disk_model.specs.Causes.{Rose};
ghost use Rattle.script_lang.specs.declared.words_fault.WordsFault.TheVariants.{Usage as Refused};
ghost use Rattle.plan_tool.specs.declared.options.Options.{Options};
ghost use Rattle.plan_tool.specs.Options.{AreInRange, options_of};
ghost use Rattle.plan_tool.specs.Rows.{input_of};
ghost use Rattle.run_end.specs.Closing.{Declines};
ghost use Rattle.plan_tool.specs.Session.{status_at, Planned, Runs};

use crate::command::read_options;
use crate::input::read_rows;
use crate::making::plan_lines;
use crate::options::Options;
use disk_model::{Sink, Source};
use line_io::write_all;
use run_end::{Ending, close};
use script_lang::node_words::WordsFault;
use std::alloc::Global;

/// Reads the rows and writes the plan over them and its id.
fn run_plan<S: Source, K: Sink>(
    alloc: Global,
    options: &Options,
    source: &mut S,
    sink: &mut K,
) -> Ending
    requires { AreInRange options.now }
    ensures planned { Planned options.now (S.left source.old) (K.taken sink.old) (K.taken sink.new) result }
    ensures at_end { result ≡ Ending.Complete → IsAtEnd (S.left source.new) }
    ensures source { result ≡ Ending.SourceFault → Rose (S.faults source.old) (S.faults source.new) }
    ensures sink { result ≡ Ending.SinkFault → Rose (K.faults sink.old) (K.faults sink.new) }
    ensures later { K.faults sink.old ≤ K.faults sink.new }
{
    let rows = match read_rows(alloc, source) {
        Ok(rows) => rows,
        Err(ending) => return ending,
    };
    let Ok(lines) = plan_lines(alloc, options, &rows) else {
        return Ending::NoMemory;
    };
    match write_all(sink, &lines) {
        Ok(()) => Ending::Complete,
        Err(_) => Ending::SinkFault,
    }
}

/// Reads rows `UUID CAPACITY USED` and writes the greedy plan over them as one line, and its id as a second.
pub fn plan_main<S: Source, K: Sink>(
    alloc: Global,
    words: &[String],
    source: &mut S,
    sink: &mut K,
) -> u8
    ensures refused { options_of (map string_bytes words.now) ≡ Err Refused →
        Declines Ending.Usage (K.taken sink.old) (K.taken sink.new) result × (source.new ≡ source.old) }
    ensures usage { result ≡ 1 → options_of (map string_bytes words.now) ≡ Err Refused }
    ensures run { (options : Options) → options_of (map string_bytes words.now) ≡ Ok options →
        Runs options (S.left source.old) (K.taken sink.old) (K.taken sink.new) result }
    ensures at_end { result ≡ 0 → IsAtEnd (S.left source.new) }
    ensures source_fault { result ≡ 2 → Rose (S.faults source.old) (S.faults source.new) }
    ensures sink_fault { result ≡ 3 → Rose (K.faults sink.old) (K.faults sink.new) }
    ensures complete { (options : Options) → options_of (map string_bytes words.now) ≡ Ok options → IfSome (S.left source.old) (λ input.
        (result ≡ status_at (input_of input).stop) ⊎ (result ≡ 4)
        ⊎ Rose (S.faults source.old) (S.faults source.new) ⊎ Rose (K.faults sink.old) (K.faults sink.new)) }
{
    let options = match read_options(alloc, words) {
        Ok(options) => options,
        Err(WordsFault::Usage) => return close(alloc, Ending::Usage, sink),
        Err(WordsFault::Memory) => return close(alloc, Ending::NoMemory, sink),
    };
    let ending = run_plan(alloc, &options, source, sink);
    close(alloc, ending, sink)
}
