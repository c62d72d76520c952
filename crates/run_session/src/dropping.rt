//! Giving up a write.
ghost use Rattle.std.specs.Prelude.{◌<◌, Some};
ghost use Rattle.pool_state.specs.Foreign.{LeavesForeign};
ghost use Rattle.map_model.specs.Steps.{drop_write};
ghost use Rattle.disk_model.specs.Marks.{GoesOn};
ghost use Rattle.run_model.specs.State.{RunState};
ghost use Rattle.run_session.specs.Standing.{SessionStands, SessionStandsForSome, SessionCarriesOut};

use crate::session::Session;
use disk_model::{Failed, PoolDisks};
use script_lang::reply::Reply;
use volume_layout::BlockId;

impl<D: PoolDisks> Session<D> {
    /// Gives up a write: its files are removed.
    pub fn drop_writer(&mut self, id: BlockId) -> Reply
        requires stands { SessionStandsForSome self.old }
        ensures step { (state : RunState) → SessionStands self.old state →
            SessionCarriesOut state id drop_write result self.old self.new }
        ensures goes_on { GoesOn D.PoolDisks self.old.pool.disks self.new.pool.disks }
        ensures foreign { LeavesForeign D.PoolDisks self.old.pool.disks self.new.pool.disks }
    {
        let Some(writer) = self.writers.remove(id) else {
            return Reply::NoWriter;
        };
        match self.pool.drop_write(writer) {
            Ok(()) => Reply::Done,
            Err(Failed) => Reply::Failed,
        }
    }
}
