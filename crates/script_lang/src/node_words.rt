//! The words of the command line of a node.
ghost use Rattle.std.specs.Prelude.{◌≡◌, ◌&&◌, ◌==◌, Some, None, Err, IfOk, map, string_bytes, length, nat_le};
ghost use Rattle.std.specs.List.{list_all, slice_split};
ghost use Rattle.script_lang.specs.Names.{is_pool, are_distinct};
ghost use Rattle.script_lang.specs.NodeWords.{pools_of, node_name_of, node_of};
ghost use Rattle.script_lang.specs.declared.words_fault.WordsFault.TheVariants.{Usage};

use crate::listed::Listed;
use crate::names::{are_distinct, is_node, is_pool};
use crate::text::Text;
pub use crate::volume_word::VolumeWord;
use crate::volume_word::read_volumes;
pub use crate::words_fault::WordsFault;
use std::alloc::{AllocError, Global};

/// What the words of a node say.
#[derive(Drop)]
pub struct NodeWords {
    /// 1 to 16 distinct names.
    pub pools: Listed<Text>,
    /// 1 to 64 ASCII letters, digits and `-`.
    pub node: Text,
    /// 1 to 64 volumes, whose UUIDs are distinct, and so are their directories.
    pub volumes: Listed<VolumeWord>,
}

/// The parts of a word that commas part.
fn split_at_commas(alloc: Global, word: &str) -> Result<Vec<&str>, AllocError>
    ensures { IfOk result (λ parts. map (λ part. part.now) parts.items ≡ slice_split (λ b. b == 44) word.now) }
{
    word.split(',').collect(alloc)
}

fn all_pools(names: &[&str]) -> bool
    ensures { result ≡ list_all (λ name. is_pool name.now) names.now }
{
    names.iter().all(|name| is_pool(name))
}

/// Whether a node may have pools of these names.
fn are_node_pools(names: &[&str]) -> bool
    ensures { result ≡ (nat_le (length names.now) 16 && list_all (λ name. is_pool name.now) names.now && are_distinct (map (λ name. name.now) names.now)) }
{
    names.len() <= 16 && all_pools(names) && are_distinct(names)
}

/// Copies of texts.
fn copies(alloc: Global, texts: &[&str]) -> Result<Vec<Text>, AllocError>
    ensures { IfOk result (λ copies. copies.items ≡ map (λ text. text.now) texts.now) }
{
    let mut copies = Vec::new(alloc);
    for text in texts {
        copies.push(Text::from_text(alloc, text)?)?;
    }
    Ok(copies)
}

/// The names of the pools.
#[tactic(auto, using(crate::proofs::Pools::pools_refused, crate::proofs::Pools::pools_given))]
fn read_pools(alloc: Global, word: &str) -> Result<Listed<Text>, WordsFault>
    ensures ok { IfOk result (λ pools. pools_of word.now ≡ Some pools) }
    ensures usage { result ≡ Err Usage → pools_of word.now ≡ None }
{
    let names = split_at_commas(alloc, word)?;
    if !are_node_pools(names.as_slice()) {
        return Err(WordsFault::Usage);
    }
    Ok(Listed::new(copies(alloc, names.as_slice())?))
}

/// The name of the node.
fn read_node(alloc: Global, word: &str) -> Result<Text, WordsFault>
    ensures ok { IfOk result (λ node. node_name_of word.now ≡ Some node) }
    ensures usage { result ≡ Err Usage → node_name_of word.now ≡ None }
{
    if !is_node(word) {
        return Err(WordsFault::Usage);
    }
    Ok(Text::from_text(alloc, word)?)
}

/// Reads the words `POOLS NODE VOLUME...` of a command line.
#[tactic(auto, unfolding(crate::specs::NodeWords::node_of))]
pub fn read_words(alloc: Global, words: &[String]) -> Result<NodeWords, WordsFault>
    ensures ok { IfOk result (λ said. node_of (map string_bytes words.now) ≡ Some said) }
    ensures usage { result ≡ Err Usage → node_of (map string_bytes words.now) ≡ None }
{
    let [pools, node, volumes @ ..] = words else {
        return Err(WordsFault::Usage);
    };
    let pools = read_pools(alloc, pools.as_str())?;
    let node = read_node(alloc, node.as_str())?;
    let volumes = read_volumes(alloc, volumes)?;
    Ok(NodeWords {
        pools,
        node,
        volumes,
    })
}
