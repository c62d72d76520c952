//! Starting a write.
ghost use Rattle.std.specs.Prelude.{◌<◌, Some};
ghost use Rattle.pool_state.specs.Foreign.{LeavesForeign};
ghost use Rattle.map_model.specs.Steps.{start_write};
ghost use Rattle.disk_model.specs.Marks.{GoesOn};
ghost use Rattle.run_model.specs.State.{RunState};
ghost use Rattle.run_session.specs.Standing.{SessionStands, SessionStandsForSome, SessionCarriesOut};

use crate::refusals::refusal_of;
use crate::session::Session;
use disk_model::PoolDisks;
use script_lang::reply::Reply;
use std::alloc::Global;
use volume_layout::{BlockId, Stamp};

impl<D: PoolDisks> Session<D> {
    /// Starts a write.
    pub fn open(&mut self, alloc: Global, id: BlockId, stamp: Stamp, need: u64) -> Reply
        requires stands { SessionStandsForSome self.old }
        ensures step { (state : RunState) → SessionStands self.old state →
            SessionCarriesOut state id (start_write stamp need) result self.old self.new }
        ensures goes_on { GoesOn D.PoolDisks self.old.pool.disks self.new.pool.disks }
        ensures foreign { LeavesForeign D.PoolDisks self.old.pool.disks self.new.pool.disks }
    {
        if let Some(fault) = self.pool.write_refusal(id, need) {
            return refusal_of(fault);
        }
        match self.writers.make_room() {
            Ok(()) => {}
            Err(_) => return Reply::Memory,
        }
        let writer = match self.pool.start_write(alloc, id, stamp, need) {
            Ok(writer) => writer,
            Err(fault) => return refusal_of(fault),
        };
        self.writers.put(writer);
        Reply::Done
    }
}
