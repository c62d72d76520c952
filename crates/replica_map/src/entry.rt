//! What the books say of one block.
ghost use Rattle.std.specs.Prelude.{◌≡◌};
ghost use Rattle.replica_map.specs.Counting.{is_final, is_writing};

use volume_layout::{BlockId, Stamp};

/// What an entry stands for.
#[derive(Clone, Copy, Debug, PartialEq, Eq)]
pub enum State {
    /// A whole replica.
    Finalised,
    /// A replica that a writer writes.
    Writing,
    /// A replica in doubt, since its finish or a deletion of it failed.
    Unsure,
    /// No replica, but files that wait to be deleted.
    Waiting,
}

impl State {
    /// Whether it is that of a whole replica.
    pub fn is_final(self) -> bool
        ensures { result ≡ is_final self }
    {
        match self {
            State::Finalised => true,
            State::Writing | State::Unsure | State::Waiting => false,
        }
    }

    /// Whether it is that of an open writer.
    pub fn is_writing(self) -> bool
        ensures { result ≡ is_writing self }
    {
        match self {
            State::Writing => true,
            State::Finalised | State::Unsure | State::Waiting => false,
        }
    }
}

/// What the books say of one block.
#[derive(Clone, Copy, Debug, PartialEq, Eq)]
pub struct Entry {
    /// The block.
    pub id: BlockId,
    /// The generation stamp of the replica, or of its writer.
    pub stamp: Stamp,
    /// Bytes: of a replica its length, of a writer the length that it reserved. A block in doubt, or one that waits, keeps
    /// the length that it had or was to have.
    pub len: u64,
    /// The volume, from 1.
    pub vol: u8,
    /// The revision: a number that is drawn anew whenever the replica may become another one, below 2^63.
    pub rev: u64,
    /// What it stands for.
    pub state: State,
}

/// The replica under an append: its generation stamp, and its length in bytes.
#[derive(Clone, Copy, Debug, PartialEq, Eq)]
pub struct Base {
    pub stamp: Stamp,
    pub len: u64,
}

/// What is kept beside the entry of a writer, and of a block in doubt whose base may stand.
#[derive(Clone, Copy, Debug, PartialEq, Eq)]
pub struct Grown {
    /// The replica that it appends to.
    pub base: Option<Base>,
    /// Bytes that the writer reserved.
    pub reserved: u64,
    /// The number of its draft of the block file.
    pub block_no: u64,
    /// The number of its draft of the meta file.
    pub meta_no: u64,
}
