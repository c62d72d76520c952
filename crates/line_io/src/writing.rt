//! Whole pieces to a sink.
ghost use Rattle.std.specs.Prelude.{◌≡◌, OnOk, OnErr, IsErr};
ghost use Rattle.std.specs.Io.KnownBytes.{Appends};
ghost use Rattle.disk_model.specs.Causes.{HasCause};
ghost use Rattle.line_io.specs.Written.{AppendsFront};

use disk_model::{Failed, Sink};

/// Writes a whole piece, in as many calls as the sink takes for it.
///
/// Where the sink fails, or takes nothing of what is left, the answer is `Failed` and the sink took a front of the piece.
#[tactic(auto, using(crate::proofs::Appending::appends_none, crate::proofs::Appending::appends_more, crate::proofs::Appending::appends_kept, crate::proofs::Appending::appends_all))]
pub fn write_all<K: Sink>(sink: &mut K, piece: &[u8]) -> Result<(), Failed>
    ensures ok { OnOk result (Appends (K.taken sink.old) (K.taken sink.new) piece.now) }
    ensures err { OnErr result (AppendsFront (K.taken sink.old) (K.taken sink.new) piece.now) }
    ensures cause { HasCause (K.faults sink.old) (K.faults sink.new) (IsErr result) }
{
    let mut done = 0;
    'pieces: while done < piece.len() {
        let taken = sink.write(&piece[done..])?;
        if taken == 0 {
            return Err(Failed);
        }
        done += taken;
    }
    Ok(())
}
