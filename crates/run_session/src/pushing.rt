//! Adding to what a writer writes.
ghost use Rattle.std.specs.Prelude.{◌<◌, Some};
ghost use Rattle.pool_state.specs.Foreign.{LeavesForeign};
ghost use Rattle.map_model.specs.Steps.{push};
ghost use Rattle.disk_model.specs.Marks.{GoesOn};
ghost use Rattle.run_model.specs.State.{RunState};
ghost use Rattle.run_session.specs.Standing.{SessionStands, SessionStandsForSome, SessionCarriesOut};

use crate::session::Session;
use disk_model::PoolDisks;
use pool_state::PushFault;
use script_lang::reply::Reply;
use volume_layout::BlockId;

impl<D: PoolDisks> Session<D> {
    /// Adds a piece to what a writer writes. Where its draft fails the writer is given up.
    pub fn push(&mut self, id: BlockId, piece: &[u8]) -> Reply
        requires stands { SessionStandsForSome self.old }
        ensures step { (state : RunState) → SessionStands self.old state →
            SessionCarriesOut state id (push piece.now) result self.old self.new }
        ensures goes_on { GoesOn D.PoolDisks self.old.pool.disks self.new.pool.disks }
        ensures foreign { LeavesForeign D.PoolDisks self.old.pool.disks self.new.pool.disks }
    {
        let Some(left) = self.writers.room_left(id) else {
            return Reply::NoWriter;
        };
        if piece.len() as u64 > left {
            return Reply::Over { left };
        }
        let mut writer = match self.writers.take(id) {
            Ok(writer) => writer,
            Err(reply) => return reply,
        };
        match writer.push(piece) {
            Ok(()) => {
                self.writers.put(writer);
                Reply::Done
            }
            Err(PushFault::Failed) => {
                self.pool.fail_write(writer);
                Reply::Failed
            }
            Err(PushFault::Over { left }) => {
                self.writers.put(writer);
                Reply::Over { left }
            }
            Err(PushFault::Memory) => {
                self.writers.put(writer);
                Reply::Memory
            }
        }
    }
}
