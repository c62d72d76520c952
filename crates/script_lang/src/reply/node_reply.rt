//! What is answered to lines about the whole node, and where a line names what the node hasn't.
ghost use Rattle.std.specs.Prelude.{◌≡◌, [], ◌∷◌, ◌++◌, IfOk};
ghost use Rattle.script_lang.specs.NodeReply.{node_reply_text};

use crate::listed::Listed;
use crate::reply::report::{VolumeRow, write_report};
use std::alloc::{AllocError, Global};

/// What is answered to lines about the whole node, and where a line names what the node hasn't.
#[derive(Drop)]
pub enum NodeReply {
    /// `nopool`: there is no pool of this name.
    NoPool,
    /// `novolume`: there is no volume of this number.
    NoVolume,
    /// `filled OK`: so many blocks were written.
    Filled {
        ok: u64,
    },
    /// `report VOLUMES LEFTOVERS`, and a line for each volume.
    Report {
        volumes: u64,
        leftovers: u64,
        rows: Listed<VolumeRow>,
    },
}

/// The lines that it prints, with their line feeds.
pub fn write_node_reply(alloc: Global, reply: &NodeReply) -> Result<Vec<u8>, AllocError>
    ensures { IfOk result (λ line. line.items ≡ node_reply_text reply.now ++ 10 ∷ []) }
{
    let line = match reply {
        NodeReply::NoPool => format!(in alloc; "nopool\n")?,
        NodeReply::NoVolume => format!(in alloc; "novolume\n")?,
        NodeReply::Filled { ok } => format!(in alloc; "filled {ok}\n")?,
        NodeReply::Report {
            volumes,
            leftovers,
            rows,
        } => return write_report(alloc, *volumes, *leftovers, rows.as_slice()),
    };
    Ok(line.into_bytes())
}
