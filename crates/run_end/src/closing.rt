//! The last line of the output, and the status.
ghost use Rattle.std.specs.Prelude.{◌≡◌, ◌≢◌, ◌≤◌, ◌⊎◌, ℕ, List, Option};
ghost use Rattle.disk_model.specs.Causes.{Rose};
ghost use Rattle.run_end.specs.Ending.{status_of};
ghost use Rattle.run_end.specs.Closing.{Writes, Closed, Declines};

use crate::ending::Ending;
use disk_model::Sink;
use line_io::write_all;
use std::alloc::Global;

/// The status of a run whose sink failed.
const SINK_FAILED: u8 = 3;

/// Writes a last line, and gives the status that it goes with.
fn end_with<K: Sink>(sink: &mut K, line: &[u8], status: u8) -> u8
    requires { status ≢ 3 }
    ensures status { (result ≡ status) ⊎ (result ≡ 3) }
    ensures written { Writes result (K.taken sink.old) (K.taken sink.new) line.now }
    ensures sink { result ≡ 3 → Rose (K.faults sink.old) (K.faults sink.new) }
    ensures later { K.faults sink.old ≤ K.faults sink.new }
{
    match write_all(sink, line) {
        Ok(()) => status,
        Err(_) => SINK_FAILED,
    }
}

/// Writes the last line of an ending, if it has one, and gives the status.
pub fn close<K: Sink>(alloc: Global, ending: Ending, sink: &mut K) -> u8
    // Behind the text that the run wrote before stands its last line.
    ensures closed { (taken : Option (List ℕ)) (text : List ℕ) → Writes (status_of ending) taken (K.taken sink.old) text →
        Closed ending taken (K.taken sink.new) text result }
    ensures declines { Declines ending (K.taken sink.old) (K.taken sink.new) result }
    ensures status { (result ≡ status_of ending) ⊎ (result ≡ 3) ⊎ (result ≡ 4) }
    ensures complete { ending ≡ Ending.Complete → result ≡ 0 }
    // These statuses name their endings.
    ensures completed { result ≡ 0 → ending ≡ Ending.Complete }
    ensures usage { result ≡ 1 → ending ≡ Ending.Usage }
    ensures source { result ≡ 2 → ending ≡ Ending.SourceFault }
    ensures sink { result ≡ 3 → (ending ≡ Ending.SinkFault) ⊎ Rose (K.faults sink.old) (K.faults sink.new) }
    ensures open { result ≡ 6 → ending ≡ Ending.OpenFault }
    ensures later { K.faults sink.old ≤ K.faults sink.new }
{
    if let Ending::SinkFault | Ending::Complete = ending {
        return ending.status();
    }
    match ending.last_line(alloc) {
        Ok(line) => end_with(sink, line.as_bytes(), ending.status()),
        Err(_) => end_with(sink, b"end memory\n", Ending::NoMemory.status()),
    }
}
