//! A script from its first line to its end.
ghost use Rattle.std.specs.Prelude.{◌≡◌, ◌≤◌};
ghost use Rattle.std.specs.Io.KnownBytes.{IsAtEnd};
ghost use Rattle.disk_model.specs.Causes.{Rose};
ghost use Rattle.disk_model.specs.Files.{Files};
ghost use Rattle.disk_model.specs.Told.{CanLeave};
ghost use Rattle.disk_model.specs.Marks.{GoesOn};
ghost use Rattle.pool_state.specs.Foreign.{LeavesForeign};
ghost use Rattle.run_model.specs.State.{RunState};
ghost use Rattle.run_session.specs.Standing.{SessionStands, SessionStandsForSome};
ghost use Rattle.dn_play.specs.Answer.{SessionPlays, IsOfLines};

use crate::answer::answer;
use disk_model::{PoolDisks, Sink, Source};
use line_io::LineReader;
use run_end::Ending;
use run_session::Session;
use std::alloc::Global;

/// How many bytes are asked of the source at a time.
const PIECE: usize = 65_536;

/// Carries out the lines of the source, up to the last line of the output.
pub fn play_lines<D: PoolDisks, S: Source, K: Sink>(
    alloc: Global,
    session: &mut Session<D>,
    source: &mut S,
    sink: &mut K,
) -> Ending
    requires stands { SessionStandsForSome session.old }
    ensures played { (state : RunState) → SessionStands session.old state →
        SessionPlays state (S.left source.old) (K.taken sink.old) (K.taken sink.new) result session.old session.new }
    ensures goes_on { GoesOn D.PoolDisks session.old.pool.disks session.new.pool.disks }
    ensures foreign { LeavesForeign D.PoolDisks session.old.pool.disks session.new.pool.disks }
    ensures of_lines { IsOfLines result }
    ensures at_end { result ≡ Ending.Complete → IsAtEnd (S.left source.new) }
    ensures source { result ≡ Ending.SourceFault → Rose (S.faults source.old) (S.faults source.new) }
    ensures sink { result ≡ Ending.SinkFault → Rose (K.faults sink.old) (K.faults sink.new) }
    ensures later_source { S.faults source.old ≤ S.faults source.new }
    ensures later_sink { K.faults sink.old ≤ K.faults sink.new }
{
    let Ok(buffer) = vec![in alloc; 0u8; PIECE] else {
        return Ending::NoMemory;
    };
    let mut reader = LineReader::new(buffer);
    let mut text = Vec::new(alloc);
    let mut number = 0u64;
    'lines: loop {
        let line = number + 1;
        let found = match reader.next_line(source, &mut text) {
            Ok(found) => found,
            Err(fault) => return Ending::of_read(fault, line),
        };
        if !found {
            return Ending::Complete;
        }
        match answer(alloc, session, sink, line, &text) {
            Ok(()) => {}
            Err(ending) => return ending,
        }
        number = line;
    }
}
