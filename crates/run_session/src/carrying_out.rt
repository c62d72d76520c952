//! Carrying out a client's line.
ghost use Rattle.std.specs.Prelude.{◌<◌, IsSome};
ghost use Rattle.disk_model.specs.Marks.{GoesOn};
ghost use Rattle.pool_state.specs.Foreign.{LeavesForeign};
ghost use Rattle.script_lang.specs.declared.line.Line.TheVariants.{Client};
ghost use Rattle.run_model.specs.Asking.{command_of};
ghost use Rattle.run_model.specs.State.{RunState};
ghost use Rattle.run_session.specs.Standing.{SessionStands, SessionStandsForSome, SessionCarriesLine};

use crate::session::Session;
use disk_model::PoolDisks;
use script_lang::ClientLine;
use script_lang::reply::Reply;
use std::alloc::Global;

impl<D: PoolDisks> Session<D> {
    /// Carries out what a client's line asks of its block.
    pub fn carry_out(&mut self, alloc: Global, line: ClientLine) -> Reply
        requires command { IsSome (command_of line) }
        requires stands { SessionStandsForSome self.old }
        ensures step { (state : RunState) → SessionStands self.old state →
            SessionCarriesLine state (Client line) result self.old self.new }
        ensures goes_on { GoesOn D.PoolDisks self.old.pool.disks self.new.pool.disks }
        ensures foreign { LeavesForeign D.PoolDisks self.old.pool.disks self.new.pool.disks }
    {
        match line {
            ClientLine::Open { id, stamp, need } => self.open(alloc, id, stamp, need),
            ClientLine::Push { id, hex } => self.push(id, hex.as_slice()),
            ClientLine::Finish { id } => self.finish(id),
            ClientLine::Drop { id } => self.drop_writer(id),
            ClientLine::Write { id, stamp, hex } => self.write(alloc, id, stamp, hex.as_slice()),
            ClientLine::Read { id } => self.read(alloc, id),
            ClientLine::Delete { id } => self.delete(id),
            ClientLine::Grow { .. } | ClientLine::Append { .. } => unreachable!(),
        }
    }
}
