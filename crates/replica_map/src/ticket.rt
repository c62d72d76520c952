//! A move under way.
use crate::keyed::Keyed;
use volume_layout::{BlockId, Stamp};

/// A move under way: what it wants, where it goes, and the numbers of its two drafts.
#[derive(Clone, Copy, Debug, PartialEq, Eq)]
pub struct Ticket {
    /// The block.
    pub id: BlockId,
    /// The stamp of the replica.
    pub stamp: Stamp,
    /// The revision that the entry has when the move begins, and has to have still when it ends.
    pub want: u64,
    /// The revision that the entry gets by the move.
    pub rev: u64,
    /// The volume that it goes from, from 1.
    pub from: u8,
    /// The volume that it goes to, from 1.
    pub dest: u8,
    /// Bytes of the replica.
    pub len: u64,
    /// The number of its draft of the block file.
    pub block_no: u64,
    /// The number of its draft of the meta file.
    pub meta_no: u64,
}

impl Keyed for Ticket {
    ghost key = { λ ticket. ticket.id };

    fn key(&self) -> u128 {
        u128::from(self.id.get())
    }
}
