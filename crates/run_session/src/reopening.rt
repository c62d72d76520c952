//! Opening the pool of a session again.
ghost use Rattle.std.specs.Prelude.{◌≡◌, OnOk, OnErr, IsErrOf};
ghost use Rattle.disk_model.specs.Causes.{Rose};
ghost use Rattle.disk_model.specs.Files.{Files};
ghost use Rattle.disk_model.specs.Told.{CanLeave};
ghost use Rattle.disk_model.specs.Marks.{GoesOn};
ghost use Rattle.pool_state.specs.Foreign.{LeavesForeign};
ghost use Rattle.script_lang.specs.declared.line.Line.TheVariants.{Node};
ghost use Rattle.script_lang.specs.declared.line.NodeLine.TheVariants.{Reopen};
ghost use Rattle.script_lang.specs.declared.reply.Reply.TheVariants.{Done};
ghost use Rattle.run_model.specs.State.{RunState};
ghost use Rattle.run_model.specs.Images.{StaysCrashSafe};
ghost use Rattle.run_session.specs.Standing.{SessionStands, SoundFor, SessionStandsForSome, SessionCarriesLine};

use crate::open_writers::OpenWriters;
use crate::session::Session;
use disk_model::PoolDisks;
use pool_open::{ReopenFault, reopen_pool};
use std::alloc::Global;

impl<D: PoolDisks> Session<D> {
    /// Drops all writers, closes the pool and opens it again. After an `Err` the session carries nothing out any more; only
    /// its disks are of use.
    pub fn reopen(&mut self, alloc: Global) -> Result<(), ReopenFault>
        requires stands { SessionStandsForSome self.old }
        ensures ok { (state : RunState) → SessionStands self.old state →
            OnOk result (SessionCarriesLine state (Node Reopen) Done self.old self.new) }
        ensures err { (state : RunState) → SessionStands self.old state →
            OnErr result (StaysCrashSafe state.cells (SoundFor self.old)
            (D.left_since self.old.pool.disks) (D.left_since self.new.pool.disks)) }
        ensures failed { IsErrOf result ReopenFault.Failed → Rose (D.faults self.old.pool.disks) (D.faults self.new.pool.disks) }
        ensures goes_on { GoesOn D.PoolDisks self.old.pool.disks self.new.pool.disks }
        ensures foreign { LeavesForeign D.PoolDisks self.old.pool.disks self.new.pool.disks }
    {
        self.writers = OpenWriters::new(alloc);
        reopen_pool(alloc, &mut self.pool)
    }
}
