//! Ending a write.
ghost use Rattle.std.specs.Prelude.{◌<◌};
ghost use Rattle.pool_state.specs.Foreign.{LeavesForeign};
ghost use Rattle.map_model.specs.Steps.{finish};
ghost use Rattle.disk_model.specs.Marks.{GoesOn};
ghost use Rattle.run_model.specs.State.{RunState};
ghost use Rattle.run_session.specs.Standing.{SessionStands, SessionStandsForSome, SessionCarriesOut};

use crate::session::Session;
use disk_model::PoolDisks;
use pool_state::SealFault;
use script_lang::reply::Reply;
use volume_layout::BlockId;

impl<D: PoolDisks> Session<D> {
    /// Ends a write: makes sure of what was pushed, and publishes it.
    pub fn finish(&mut self, id: BlockId) -> Reply
        requires stands { SessionStandsForSome self.old }
        ensures step { (state : RunState) → SessionStands self.old state →
            SessionCarriesOut state id finish result self.old self.new }
        ensures goes_on { GoesOn D.PoolDisks self.old.pool.disks self.new.pool.disks }
        ensures foreign { LeavesForeign D.PoolDisks self.old.pool.disks self.new.pool.disks }
    {
        let writer = match self.writers.take(id) {
            Ok(writer) => writer,
            Err(reply) => return reply,
        };
        match writer.seal() {
            Ok(pair) => match self.pool.finish(pair) {
                Ok(()) => Reply::Done,
                Err(_) => Reply::Failed,
            },
            Err((SealFault::Memory, writer)) => {
                self.writers.put(writer);
                Reply::Memory
            }
            Err((SealFault::Failed, writer)) => {
                self.pool.fail_write(writer);
                Reply::Failed
            }
        }
    }
}
