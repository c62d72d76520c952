//! Reading a replica.
ghost use Rattle.std.specs.Prelude.{◌<◌};
ghost use Rattle.pool_state.specs.Foreign.{LeavesForeign};
ghost use Rattle.map_model.specs.Steps.{read};
ghost use Rattle.disk_model.specs.Marks.{GoesOn};
ghost use Rattle.run_model.specs.State.{RunState};
ghost use Rattle.run_session.specs.Standing.{SessionStands, SessionStandsForSome, SessionCarriesOut};

use crate::refusals::refusal_of;
use crate::session::Session;
use client_ops::{ReadEnd, read_all};
use disk_model::PoolDisks;
use script_lang::bytes::Bytes;
use script_lang::reply::Reply;
use std::alloc::Global;
use volume_layout::BlockId;

/// How many bytes of a file are read at a time while it is verified.
const BUFFER: usize = 65_536;

impl<D: PoolDisks> Session<D> {
    /// Reads a replica, after it was verified by its meta file.
    pub fn read(&mut self, alloc: Global, id: BlockId) -> Reply
        requires stands { SessionStandsForSome self.old }
        ensures step { (state : RunState) → SessionStands self.old state →
            SessionCarriesOut state id read result self.old self.new }
        ensures goes_on { GoesOn D.PoolDisks self.old.pool.disks self.new.pool.disks }
        ensures foreign { LeavesForeign D.PoolDisks self.old.pool.disks self.new.pool.disks }
    {
        let pair = match self.pool.start_read(alloc, id) {
            Ok(pair) => pair,
            Err(fault) => return refusal_of(fault),
        };
        let stamp = pair.stamp.get();
        let Ok(mut buf) = vec![in alloc; 0u8; BUFFER] else {
            return Reply::Memory;
        };
        match read_all(alloc, pair, &mut buf) {
            Ok(bytes) => Reply::Data {
                stamp,
                bytes: Bytes::new(bytes),
            },
            Err(ReadEnd::Failed) => Reply::Failed,
            Err(ReadEnd::Bad(verdict)) => Reply::Bad(verdict),
            Err(ReadEnd::Memory) => Reply::Memory,
        }
    }
}
