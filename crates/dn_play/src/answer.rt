//! The answer to one line.
ghost use Rattle.std.specs.Prelude.{true, ◌≡◌, ◌≤◌, Err, OnOk, OnErr, IfOk, IfErr, IsErr, IsErrOf};
ghost use Rattle.disk_model.specs.Causes.{Rose};
ghost use Rattle.disk_model.specs.Files.{Files};
ghost use Rattle.disk_model.specs.Told.{CanLeave};
ghost use Rattle.disk_model.specs.Marks.{GoesOn};
ghost use Rattle.pool_state.specs.Foreign.{LeavesForeign};
ghost use Rattle.pool_open.specs.declared.opening.ReopenFault.{ReopenFault};
ghost use Rattle.script_lang.specs.declared.line.Line.TheVariants.{Node};
ghost use Rattle.script_lang.specs.declared.line.NodeLine.TheVariants.{Reopen};
ghost use Rattle.run_model.specs.Asking.{is_carried};
ghost use Rattle.run_model.specs.State.{RunState};
ghost use Rattle.run_model.specs.Images.{StaysCrashSafe};
ghost use Rattle.run_session.specs.Standing.{SessionStands, SoundFor, SessionStandsForSome, SessionCarriesLine};
ghost use Rattle.dn_play.specs.Answer.{SessionAnswers, SessionStops, IsOfLines, reopen_ending};

use disk_model::{PoolDisks, Sink};
use line_io::write_all;
use pool_open::ReopenFault;
use run_end::Ending;
use run_session::Session;
use script_lang::reply::{Reply, write_reply};
use script_lang::{ClientLine, Line, LineFault, NodeLine, read_line};
use std::alloc::Global;

/// Whether a line asks for something that is carried out.
fn is_carried_out(line: &Line) -> bool
    ensures { result ≡ is_carried line.now }
{
    match line {
        Line::Client(ClientLine::Grow { .. } | ClientLine::Append { .. }) => false,
        Line::Client(_) | Line::Node(NodeLine::Reopen | NodeLine::Report) => true,
        _ => false,
    }
}

/// Why a command was not carried out.
#[derive(Clone, Copy, Debug, PartialEq, Eq)]
enum CarryFault {
    /// The pool was not opened again.
    Reopen(ReopenFault),
    /// There was no memory for a report.
    Memory,
}

/// How a session ends whose pool was not opened again.
fn reopen_ending_of(fault: ReopenFault) -> Ending
    ensures { result ≡ reopen_ending fault }
{
    match fault {
        ReopenFault::Failed => Ending::OpenFault,
        ReopenFault::Memory => Ending::NoMemory,
    }
}

/// Carries out the command of a line. Where an opening again isn't done, the session carries nothing out any more; a report
/// for which there is no memory changes nothing.
fn carry_out<D: PoolDisks>(
    alloc: Global,
    session: &mut Session<D>,
    line: Line,
) -> Result<Reply, CarryFault>
    requires command { is_carried line ≡ true }
    requires stands { SessionStandsForSome session.old }
    ensures ok { (state : RunState) → SessionStands session.old state →
        IfOk result (λ reply. SessionCarriesLine state line reply session.old session.new) }
    ensures err { (state : RunState) → SessionStands session.old state →
        OnErr result (StaysCrashSafe state.cells (SoundFor session.old)
        (D.left_since session.old.pool.disks) (D.left_since session.new.pool.disks)) }
    ensures reopens { (fault : ReopenFault) → result ≡ Err (CarryFault.Reopen fault) → line ≡ Node Reopen }
    ensures failed { result ≡ Err (CarryFault.Reopen ReopenFault.Failed) → Rose (D.faults session.old.pool.disks) (D.faults session.new.pool.disks) }
    ensures unchanged { IsErrOf result CarryFault.Memory → session.new ≡ session.old }
    ensures goes_on { GoesOn D.PoolDisks session.old.pool.disks session.new.pool.disks }
    ensures foreign { LeavesForeign D.PoolDisks session.old.pool.disks session.new.pool.disks }
{
    match line {
        Line::Node(NodeLine::Reopen) => match session.reopen(alloc) {
            Ok(()) => Ok(Reply::Done),
            Err(fault) => Err(CarryFault::Reopen(fault)),
        },
        Line::Node(NodeLine::Report) => match session.report(alloc) {
            Ok(reply) => Ok(reply),
            Err(_) => Err(CarryFault::Memory),
        },
        Line::Client(line) => Ok(session.carry_out(alloc, line)),
        _ => unreachable!(),
    }
}

/// Carries out the command of a line, and writes its reply.
pub fn answer<D: PoolDisks, K: Sink>(
    alloc: Global,
    session: &mut Session<D>,
    sink: &mut K,
    number: u64,
    text: &[u8],
) -> Result<(), Ending>
    requires stands { SessionStandsForSome session.old }
    ensures ok { (state : RunState) → SessionStands session.old state →
        OnOk result (SessionAnswers state text.now (K.taken sink.old) (K.taken sink.new) session.old session.new) }
    ensures err { (state : RunState) → SessionStands session.old state → IfErr result (λ ending.
        SessionStops state number text.now (K.taken sink.old) (K.taken sink.new) ending session.old session.new) }
    ensures of_lines { IfErr result IsOfLines }
    ensures goes_on { GoesOn D.PoolDisks session.old.pool.disks session.new.pool.disks }
    ensures foreign { LeavesForeign D.PoolDisks session.old.pool.disks session.new.pool.disks }
    ensures sink { IsErrOf result Ending.SinkFault → Rose (K.faults sink.old) (K.faults sink.new) }
    ensures later { K.faults sink.old ≤ K.faults sink.new }
{
    let line = match read_line(alloc, text) {
        Ok(line) => line,
        Err(LineFault::Bad { column }) => return Err(Ending::Outside {
            line: number,
            column,
        }),
        Err(LineFault::Memory) => return Err(Ending::NoMemory),
    };
    let command = match line {
        Line::Blank => return Ok(()),
        command => command,
    };
    if !is_carried_out(&command) {
        return Err(Ending::Later { line: number });
    }
    let reply = match carry_out(alloc, session, command) {
        Ok(reply) => reply,
        Err(CarryFault::Reopen(fault)) => return Err(reopen_ending_of(fault)),
        Err(CarryFault::Memory) => return Err(Ending::NoMemory),
    };
    let Ok(shown) = write_reply(alloc, &reply) else {
        return Err(Ending::NoMemory);
    };
    match write_all(sink, &shown) {
        Ok(()) => Ok(()),
        Err(_) => Err(Ending::SinkFault),
    }
}
