//! A session: a pool, and the writers that the script has open.
use crate::open_writers::OpenWriters;
use disk_model::PoolDisks;
use pool_state::Pool;

/// A pool, and the writers that the script has open.
#[derive(Drop)]
pub struct Session<D: PoolDisks> {
    pub pool: Pool<D>,
    pub writers: OpenWriters<D>,
}
