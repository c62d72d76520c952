//! Deleting a block.
ghost use Rattle.std.specs.Prelude.{◌<◌, Some};
ghost use Rattle.pool_state.specs.Foreign.{LeavesForeign};
ghost use Rattle.map_model.specs.Steps.{delete};
ghost use Rattle.disk_model.specs.Marks.{GoesOn};
ghost use Rattle.run_model.specs.State.{RunState};
ghost use Rattle.run_session.specs.Standing.{SessionStands, SessionStandsForSome, SessionCarriesOut};

use crate::refusals::delete_refusal_of;
use crate::session::Session;
use disk_model::PoolDisks;
use script_lang::reply::Reply;
use volume_layout::BlockId;

impl<D: PoolDisks> Session<D> {
    /// Deletes a block.
    pub fn delete(&mut self, id: BlockId) -> Reply
        requires stands { SessionStandsForSome self.old }
        ensures step { (state : RunState) → SessionStands self.old state →
            SessionCarriesOut state id delete result self.old self.new }
        ensures goes_on { GoesOn D.PoolDisks self.old.pool.disks self.new.pool.disks }
        ensures foreign { LeavesForeign D.PoolDisks self.old.pool.disks self.new.pool.disks }
    {
        if let Some(fault) = self.pool.delete_refusal(id) {
            return delete_refusal_of(fault);
        }
        match self.pool.delete(id) {
            Ok(()) => Reply::Done,
            Err(fault) => delete_refusal_of(fault),
        }
    }
}
