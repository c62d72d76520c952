//! A replica that is being read.
use disk_model::PoolDisks;
use volume_layout::Stamp;

/// A replica that is being read: readers of its block file and of the meta file of its stamp, or none where one is
/// absent.
#[derive(Drop)]
pub struct ReadPair<D: PoolDisks> {
    pub block: Option<D::Reader>,
    pub meta: Option<D::Reader>,
    pub stamp: Stamp,
    /// The replica's length in bytes.
    pub len: u64,
}
