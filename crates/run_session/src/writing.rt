//! Writing a whole block in one line.
ghost use Rattle.std.specs.Prelude.{◌<◌};
ghost use Rattle.pool_state.specs.Foreign.{LeavesForeign};
ghost use Rattle.map_model.specs.Steps.{write};
ghost use Rattle.disk_model.specs.Marks.{GoesOn};
ghost use Rattle.run_model.specs.State.{RunState};
ghost use Rattle.run_session.specs.Standing.{SessionStands, SessionStandsForSome, SessionCarriesOut};

use crate::refusals::{end_reply_of, refusal_of};
use crate::session::Session;
use client_ops::{op_end, op_fill, write_start};
use disk_model::PoolDisks;
use script_lang::reply::Reply;
use std::alloc::Global;
use volume_layout::{BlockId, Stamp};

impl<D: PoolDisks> Session<D> {
    /// Writes a whole block: starts a write of its length, fills it, and ends it.
    pub fn write(&mut self, alloc: Global, id: BlockId, stamp: Stamp, piece: &[u8]) -> Reply
        requires stands { SessionStandsForSome self.old }
        ensures step { (state : RunState) → SessionStands self.old state →
            SessionCarriesOut state id (write stamp piece.now) result self.old self.new }
        ensures goes_on { GoesOn D.PoolDisks self.old.pool.disks self.new.pool.disks }
        ensures foreign { LeavesForeign D.PoolDisks self.old.pool.disks self.new.pool.disks }
    {
        if let Some(fault) = self.pool.write_refusal(id, piece.len() as u64) {
            return refusal_of(fault);
        }
        let op = match write_start(alloc, &mut self.pool, id, stamp, piece.len() as u64) {
            Ok(op) => op,
            Err(fault) => return refusal_of(fault),
        };
        let filled = op_fill(op, piece);
        end_reply_of(op_end(&mut self.pool, filled))
    }
}
