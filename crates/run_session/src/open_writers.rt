//! The writers that a script has open.
use disk_model::PoolDisks;
use indexmap::IndexMap;
use pool_state::Writing;

/// The writers that a script has open, by block.
#[derive(Drop)]
pub struct OpenWriters<D: PoolDisks> {
    pub by_block: IndexMap<u64, Writing<D>>,
}
