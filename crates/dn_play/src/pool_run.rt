//! A script over the disks of one pool, up to the last line of the output.
ghost use Rattle.std.specs.Prelude.{◌≡◌, ◌≤◌, length};
ghost use Rattle.std.specs.Io.KnownBytes.{IsAtEnd};
ghost use Rattle.disk_model.specs.Causes.{Rose};
ghost use Rattle.disk_model.specs.Told.{InEachWorld};
ghost use Rattle.map_model.specs.World.{DraftsAside};
ghost use Rattle.pool_state.specs.Foreign.{LeavesForeign};
ghost use Rattle.dn_play.specs.Play.{RunsPoolOver};

use crate::lines::play_lines;
use disk_model::{PoolDisks, Sink, Source};
use pool_open::{OpenFault, open_pool};
use pool_state::close_pool;
use run_end::Ending;
use run_session::{OpenWriters, Session};
use std::alloc::Global;

/// How a script ended, and the disks that were given back.
#[derive(Drop)]
pub struct PoolRun<D: Drop> {
    pub ending: Ending,
    pub disks: D,
}

/// Opens the pool of these disks, with these shares of its volumes, and carries out the lines of the source.
pub fn play_pool<D: PoolDisks, S: Source, K: Sink>(
    alloc: Global,
    disks: D,
    shares: Vec<u64>,
    source: &mut S,
    sink: &mut K,
) -> PoolRun<D>
    requires aside { InEachWorld (D.worlds disks) DraftsAside }
    requires some_volume { 1 ≤ D.volume_count disks }
    requires shares { length shares.items ≡ D.volume_count disks }
    ensures runs { RunsPoolOver D.PoolDisks D.Draft.Draft D.Reader.Reader
        shares.items (S.left source.old) (K.taken sink.old) (K.taken sink.new) result.ending disks result.disks }
    ensures foreign { LeavesForeign D.PoolDisks disks result.disks }
    ensures at_end { result.ending ≡ Ending.Complete → IsAtEnd (S.left source.new) }
    ensures source { result.ending ≡ Ending.SourceFault → Rose (S.faults source.old) (S.faults source.new) }
    ensures sink { result.ending ≡ Ending.SinkFault → Rose (K.faults sink.old) (K.faults sink.new) }
    ensures later_sink { K.faults sink.old ≤ K.faults sink.new }
    ensures volumes { D.volume_count result.disks ≡ D.volume_count disks }
{
    let pool = match open_pool(alloc, disks, shares, 1) {
        Ok(pool) => pool,
        Err(OpenFault::Failed(disks)) => return PoolRun {
            ending: Ending::OpenFault,
            disks,
        },
        Err(OpenFault::Memory(disks)) => return PoolRun {
            ending: Ending::NoMemory,
            disks,
        },
    };
    let mut session = Session {
        pool,
        writers: OpenWriters::new(alloc),
    };
    let ending = play_lines(alloc, &mut session, source, sink);
    PoolRun {
        ending,
        disks: close_pool(session.pool),
    }
}
