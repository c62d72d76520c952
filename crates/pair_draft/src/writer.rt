//! A replica that is being written, and its sealed pair.
use disk_model::PoolDisks;
use meta_file::Summer;
use volume_layout::{BlockId, Stamp};

/// A replica that is being written: two drafts under `current/rbw`.
#[derive(Drop)]
pub struct Writing<D: PoolDisks> {
    pub id: BlockId,
    pub stamp: Stamp,
    /// The volume of the drafts, from 1.
    pub vol: u8,
    /// How many bytes were pushed.
    pub len: u64,
    /// How many bytes it may have in all.
    pub reserved: u64,
    /// Has the checksum of the chunk that isn't full yet. Its tables take 8 KiB, which aren't moved with the writer.
    pub summer: Box<Summer>,
    /// The header of the meta file, and the checksums of the chunks that are full.
    pub sums: Vec<u8>,
    pub block: D::Draft,
    /// The draft of the meta file, unless a push or a seal failed.
    pub meta: Option<D::Draft>,
}

/// Memory for the meta file of a block.
#[derive(Drop)]
pub struct Sums {
    pub summer: Box<Summer>,
    /// The header of the meta file, with room for all checksums.
    pub bytes: Vec<u8>,
}

/// A writer whose bytes were made sure of.
#[derive(Drop)]
pub struct SealedPair<D: PoolDisks> {
    pub id: BlockId,
    pub stamp: Stamp,
    /// The volume of the drafts, from 1.
    pub vol: u8,
    /// The length of the block's bytes.
    pub len: u64,
    pub block: D::Sealed,
    pub meta: D::Sealed,
}
