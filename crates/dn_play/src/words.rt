//! Whether the words of the command line are carried out, and what they say of the volumes.
ghost use Rattle.std.specs.Prelude.{◌≡◌, ◌==◌, map, string_bytes, IfOk};
ghost use Rattle.std.specs.List.{list_all};
ghost use Rattle.dn_play.specs.Outside.{fit_disks, names_several, words_fit, words_are_later, shares_said, shares_in, err_of, IsJudged};

use disk_model::PoolDisks;
use run_end::Ending;
use script_lang::node_words::{NodeWords, WordsFault, read_words};
use std::alloc::{AllocError, Global};

/// Whether each of these disks has so many volumes.
fn all_have<D: PoolDisks>(disks: &[D], volumes: usize) -> bool
    ensures { result ≡ list_all (λ d. D.volume_count d == volumes) disks.now }
{
    disks.iter().all(|d| d.volumes() as usize == volumes)
}

/// Whether the words name as many pools as there are disks, and as many volumes as each of them has.
fn fit<D: PoolDisks>(disks: &[D], words: &NodeWords) -> bool
    ensures { result ≡ fit_disks D.volume_count disks.now words.now }
{
    words.pools.len() == disks.len() && all_have(disks, words.volumes.len())
}

/// Whether the words name several pools.
fn name_several(words: &NodeWords) -> bool
    ensures { result ≡ names_several words.now }
{
    1 < words.pools.len()
}

/// The shares of the volumes that the words name.
fn shares_of(alloc: Global, words: &NodeWords) -> Result<Vec<u64>, AllocError>
    ensures { IfOk result (λ shares. shares.items ≡ shares_said words.now) }
{
    let mut shares = Vec::with_capacity(alloc, words.volumes.len())?;
    for volume in words.volumes.as_slice() {
        shares.push(volume.share)?;
    }
    Ok(shares)
}

/// The shares of the volumes, where the words are carried out; else how the run ends.
pub fn judge_words<D: PoolDisks>(
    alloc: Global,
    words: &[String],
    disks: &[D],
) -> Result<Vec<u64>, Ending>
    ensures judged { IsJudged (words_fit D.volume_count (map string_bytes words.now) disks.now) (words_are_later (map string_bytes words.now)) (err_of result) }
    ensures shares { IfOk result (λ shares. shares.items ≡ shares_in (map string_bytes words.now)) }
{
    let said = match read_words(alloc, words) {
        Ok(said) => said,
        Err(WordsFault::Usage) => return Err(Ending::Usage),
        Err(WordsFault::Memory) => return Err(Ending::NoMemory),
    };
    if !fit(disks, &said) {
        return Err(Ending::Usage);
    }
    if name_several(&said) {
        return Err(Ending::NotCarriedOut);
    }
    let Ok(shares) = shares_of(alloc, &said) else {
        return Err(Ending::NoMemory);
    };
    Ok(shares)
}
