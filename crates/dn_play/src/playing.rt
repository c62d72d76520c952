//! The program: a script in, the replies out.
ghost use Rattle.std.specs.Prelude.{◌≡◌, ◌⊎◌, true, false, All, map, string_bytes, IfSome};
ghost use Rattle.std.specs.Io.KnownBytes.{IsAtEnd};
ghost use Rattle.disk_model.specs.Causes.{Rose};
ghost use Rattle.disk_model.specs.Told.{InEachWorld};
ghost use Rattle.map_model.specs.World.{DraftsAside};
ghost use Rattle.run_end.specs.Closing.{Declines};
ghost use Rattle.run_model.specs.Script.{script_of};
ghost use Rattle.dn_play.specs.Endings.{status_at};
ghost use Rattle.dn_play.specs.Outside.{words_fit, words_are_later, shares_in};
ghost use Rattle.dn_play.specs.Foreign.{KeepsForeign};
ghost use Rattle.dn_play.specs.Play.{RunsOver, OfOne};

use crate::pool_run::play_pool;
use crate::words::judge_words;
use disk_model::{PoolDisks, Sink, Source};
use run_end::{Ending, close};
use std::alloc::Global;

/// How a run ended, and the disks that it gives back.
#[derive(Drop)]
pub struct Played<D: Drop> {
    /// 0 where the whole input was carried out; 1 for words that aren't of their form, 2 where the source failed, 3 where
    /// the sink did, 4 for want of memory, 5 for a line outside the language, 6 where a disk failed at the opening, 7 for
    /// a line that passes a limit, and 8 for what isn't carried out yet.
    pub status: u8,
    pub disks: Vec<D>,
}

/// Plays the script of the source over the disks, one for each pool that the words name, and writes the replies to the
/// sink: one line for each command, and at each status but 0 and 3 a last line that says it.
///
/// The words are those of a command line, `POOLS NODE VOLUME...`.
pub fn play<D: PoolDisks, S: Source, K: Sink>(
    alloc: Global,
    words: &[String],
    mut disks: Vec<D>,
    source: &mut S,
    sink: &mut K,
) -> Played<D>
    requires aside { All (λ d. InEachWorld (D.worlds d) DraftsAside) disks.items }
    // Words that aren't of the form, or don't fit the disks, are refused, and nothing is read.
    ensures refused { words_fit D.volume_count (map string_bytes words.now) disks.items ≡ false →
        Declines Ending.Usage (K.taken sink.old) (K.taken sink.new) result.status × (source.new ≡ source.old) × (result.disks.items ≡ disks.items) }
    ensures usage { result.status ≡ 1 → words_fit D.volume_count (map string_bytes words.now) disks.items ≡ false }
    // So are words that name several pools, as long as these aren't carried out.
    ensures later { words_fit D.volume_count (map string_bytes words.now) disks.items ≡ true → words_are_later (map string_bytes words.now) ≡ true →
        Declines Ending.NotCarriedOut (K.taken sink.old) (K.taken sink.new) result.status × (source.new ≡ source.old) × (result.disks.items ≡ disks.items) }
    // Otherwise the pool is opened, with the shares that the words say, and the lines of the script are carried out.
    ensures run { words_fit D.volume_count (map string_bytes words.now) disks.items ≡ true → words_are_later (map string_bytes words.now) ≡ false →
        OfOne disks.items result.disks.items (λ before after. RunsOver D.PoolDisks D.Draft.Draft D.Reader.Reader
        (shares_in (map string_bytes words.now)) (S.left source.old) (K.taken sink.old) (K.taken sink.new) result.status before after) }
    // What isn't a block's stays, in every image that a crash could leave.
    ensures foreign { words_fit D.volume_count (map string_bytes words.now) disks.items ≡ true → words_are_later (map string_bytes words.now) ≡ false →
        OfOne disks.items result.disks.items (λ before after. KeepsForeign D.PoolDisks before after) }
    ensures at_end { result.status ≡ 0 → IsAtEnd (S.left source.new) }
    ensures source_fault { result.status ≡ 2 → Rose (S.faults source.old) (S.faults source.new) }
    ensures sink_fault { result.status ≡ 3 → Rose (K.faults sink.old) (K.faults sink.new) }
    ensures open_fault { result.status ≡ 6 → OfOne disks.items result.disks.items (λ before after. Rose (D.faults before) (D.faults after)) }
    // Where no count rises, the status is that of the place where the script stops, unless memory is wanting.
    ensures complete { words_fit D.volume_count (map string_bytes words.now) disks.items ≡ true → words_are_later (map string_bytes words.now) ≡ false → IfSome (S.left source.old) (λ input.
        (result.status ≡ status_at (script_of input).stop) ⊎ (result.status ≡ 4)
        ⊎ Rose (S.faults source.old) (S.faults source.new) ⊎ Rose (K.faults sink.old) (K.faults sink.new)
        ⊎ OfOne disks.items result.disks.items (λ before after. Rose (D.faults before) (D.faults after))) }
    // As many disks come back, with their volumes.
    ensures volumes { map D.volume_count result.disks.items ≡ map D.volume_count disks.items }
{
    let shares = match judge_words(alloc, words, disks.as_slice()) {
        Ok(shares) => shares,
        Err(ending) => return Played {
            status: close(alloc, ending, sink),
            disks,
        },
    };
    let Some(disk) = disks.pop() else {
        unreachable!()
    };
    let run = play_pool(alloc, disk, shares, source, sink);
    let status = close(alloc, run.ending, sink);
    let Ok(()) = disks.push(run.disks) else {
        unreachable!()
    };
    Played { status, disks }
}
