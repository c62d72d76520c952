//! The report of a session's pool.
ghost use Rattle.std.specs.Prelude.{◌≡◌, ◌≤◌, ◌++◌, [], ◌∷◌, IfOk, OnOk, length};
ghost use Rattle.pool_state.specs.Books.{block_books};
ghost use Rattle.pool_state.specs.Rooms.{choosing_of};
ghost use Rattle.script_lang.specs.declared.line.Line.TheVariants.{Node};
ghost use Rattle.script_lang.specs.declared.line.NodeLine.TheVariants.{Report};
ghost use Rattle.run_model.specs.Reports.{ShowRows};
ghost use Rattle.run_model.specs.State.{RunState};
ghost use Rattle.run_session.specs.Standing.{SessionStands, SessionStandsForSome, SessionCarriesLine};

use crate::session::Session;
use disk_model::PoolDisks;
use pool_state::Pool;
use script_lang::listed::Listed;
use script_lang::reply::Reply;
use script_lang::reply::node_reply::NodeReply;
use script_lang::reply::report::VolumeRow;
use std::alloc::{AllocError, Global};

/// A row for each volume of a pool.
fn rows_of<D: PoolDisks>(alloc: Global, pool: &Pool<D>) -> Result<Vec<VolumeRow>, AllocError>
    ensures counted { IfOk result (λ rows. length rows.items ≡ D.volume_count pool.now.disks) }
    ensures shows { IfOk result (λ rows. ShowRows pool.now.shares.items (block_books pool.now.map) 1 rows.items) }
{
    let volumes = pool.disks.volumes();
    let mut rows = Vec::with_capacity(alloc, volumes as usize)?;
    for i in 0..volumes {
        let volume = pool.volume_use(i + 1);
        rows.push(VolumeRow {
            i: u64::from(i) + 1,
            capacity: volume.capacity,
            used: volume.used,
            replicas: volume.replicas,
        })?;
    }
    Ok(rows)
}

impl<D: PoolDisks> Session<D> {
    /// The report of the pool: of each volume its share, what is used of it and how many replicas it has, and how many
    /// leftovers aren't held. It makes no device call.
    pub fn report(&self, alloc: Global) -> Result<Reply, AllocError>
        requires stands { SessionStandsForSome self.now }
        ensures { (state : RunState) → SessionStands self.now state →
            IfOk result (λ reply. SessionCarriesLine state (Node Report) reply self.now self.now) }
    {
        let rows = rows_of(alloc, &self.pool)?;
        Ok(Reply::Node(NodeReply::Report {
            volumes: u64::from(self.pool.disks.volumes()),
            leftovers: self.pool.leftovers(),
            rows: Listed::new(rows),
        }))
    }
}
