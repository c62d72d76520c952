//! The words that name the volumes of a node.
ghost use Rattle.std.specs.Prelude.{◌≡◌, ◌&&◌, [], Some, None, IfOk, MatchOption, map, string_bytes, length, nat_le, Err};
ghost use Rattle.script_lang.specs.Names.{is_node};
ghost use Rattle.script_lang.specs.Volumes.{before_colon, after_colon, share_of, volume_of, each_volume_of, volumes_of, is_count, are_apart};
ghost use Rattle.script_lang.specs.declared.words_fault.WordsFault.TheVariants.{Usage};

use crate::listed::Listed;
use crate::names::{are_distinct, is_node};
use crate::number::read_number;
use crate::text::Text;
use crate::words_fault::WordsFault;
use std::alloc::{AllocError, Global};

/// A volume as the command line names it.
#[derive(Drop)]
pub struct VolumeWord {
    /// 1 to 64 ASCII letters, digits and `-`.
    pub uuid: Text,
    /// How many bytes each pool may use on the volume: 1 to 2^50.
    pub share: u64,
    /// The directory of the volume, which isn't empty.
    pub dir: Text,
}

/// A text before and behind its first colon.
fn split_at_colon(text: &str) -> Option<(&str, &str)>
    ensures { MatchOption result (after_colon text.now ≡ []) (λ x. (x.0.now ≡ before_colon text.now) × (x.1.now ≡ after_colon text.now)) }
{
    text.split_once(':')
}

/// The share that a word writes.
fn read_share(word: &str) -> Option<u64>
    ensures { result ≡ share_of word.now }
{
    let share = read_number(word.as_bytes())?;
    if share == 0 || share > 1 << 50 {
        return None;
    }
    Some(share)
}

/// Whether a volume may have this UUID and this directory.
fn is_volume_form(uuid: &str, dir: &str) -> bool
    ensures { result ≡ (nat_le 1 (length dir.now) && is_node uuid.now) }
{
    !dir.is_empty() && is_node(uuid)
}

/// The volume that a word `UUID:SHARE:DIR` describes. DIR is all that stands behind the second colon.
#[tactic(auto, unfolding(crate::specs::Volumes::volume_of, crate::specs::Volumes::volume_behind))]
fn read_volume(alloc: Global, word: &str) -> Result<VolumeWord, WordsFault>
    ensures ok { IfOk result (λ volume. volume_of word.now ≡ Some volume) }
    ensures usage { result ≡ Err Usage → volume_of word.now ≡ None }
{
    let (uuid, rest) = split_at_colon(word).ok_or(WordsFault::Usage)?;
    let (share, dir) = split_at_colon(rest).ok_or(WordsFault::Usage)?;
    if !is_volume_form(uuid, dir) {
        return Err(WordsFault::Usage);
    }
    let share = read_share(share).ok_or(WordsFault::Usage)?;
    let uuid = Text::from_text(alloc, uuid)?;
    let dir = Text::from_text(alloc, dir)?;
    Ok(VolumeWord { uuid, share, dir })
}

/// The volumes that the words describe, one by one.
fn read_each_volume(alloc: Global, words: &[String]) -> Result<Vec<VolumeWord>, WordsFault>
    ensures ok { IfOk result (λ volumes. each_volume_of (map string_bytes words.now) ≡ Some volumes.items) }
    ensures usage { result ≡ Err Usage → each_volume_of (map string_bytes words.now) ≡ None }
{
    let mut volumes = Vec::new(alloc);
    for word in words {
        volumes.push(read_volume(alloc, word.as_str())?)?;
    }
    Ok(volumes)
}

/// Whether a node may have so many volumes.
fn is_count(volumes: usize) -> bool
    ensures { result ≡ is_count volumes }
{
    1 <= volumes && volumes <= 64
}

/// The UUIDs of volumes.
fn uuids(alloc: Global, volumes: &[VolumeWord]) -> Result<Vec<&str>, AllocError>
    ensures { IfOk result (λ texts. map (λ text. text.now) texts.items ≡ map (λ v. v.uuid) volumes.now) }
{
    volumes.iter().map(|v| v.uuid.as_str()).collect(alloc)
}

/// The directories of volumes.
fn dirs(alloc: Global, volumes: &[VolumeWord]) -> Result<Vec<&str>, AllocError>
    ensures { IfOk result (λ texts. map (λ text. text.now) texts.items ≡ map (λ v. v.dir) volumes.now) }
{
    volumes.iter().map(|v| v.dir.as_str()).collect(alloc)
}

/// Whether no two volumes have one UUID, and no two have one directory.
fn are_apart(alloc: Global, volumes: &[VolumeWord]) -> Result<bool, AllocError>
    ensures { IfOk result (λ apart. apart ≡ are_apart volumes.now) }
{
    let uuids = uuids(alloc, volumes)?;
    let dirs = dirs(alloc, volumes)?;
    Ok(are_distinct(uuids.as_slice()) && are_distinct(dirs.as_slice()))
}

/// The volumes of a node that the words describe: 1 to 64, whose UUIDs are distinct, and so are their directories.
#[tactic(auto, unfolding(crate::specs::Volumes::volumes_of))]
pub fn read_volumes(alloc: Global, words: &[String]) -> Result<Listed<VolumeWord>, WordsFault>
    ensures ok { IfOk result (λ volumes. volumes_of (map string_bytes words.now) ≡ Some volumes) }
    ensures usage { result ≡ Err Usage → volumes_of (map string_bytes words.now) ≡ None }
{
    let volumes = read_each_volume(alloc, words)?;
    if !is_count(volumes.len()) || !are_apart(alloc, volumes.as_slice())? {
        return Err(WordsFault::Usage);
    }
    Ok(Listed::new(volumes))
}
