//! Files of a block that no entry, writer or move ticket names.
ghost use Rattle.std.specs.Prelude.{◌≡◌, ◌<◌, ◌^◌};
ghost use Rattle.replica_map.specs.Counting.{leftover_len};
ghost use Rattle.replica_map.specs.Leftovers.{is_leftover_of, is_on};

use volume_layout::{BlockFile, BlockId, Stamp};

/// A file that the node made, or may have made, and that no entry, writer or move names.
#[derive(Clone, Copy, Debug, PartialEq, Eq)]
pub struct Leftover {
    /// The block.
    pub id: BlockId,
    /// The stamp of its writer's entry, of its move, or of the old pair.
    pub stamp: Stamp,
    /// The volume that it stands on, from 1.
    pub vol: u8,
    /// Which of the block's files it is, which says its path.
    pub file: BlockFile,
    /// The bytes that it counts on its volume, if it is a block file. A meta file counts nothing.
    pub len: u64,
    /// Whether it is kept for a block that waits to be deleted, so that no sweep takes it.
    pub held: bool,
}

impl Leftover {
    /// The bytes that it counts on its volume.
    pub(crate) fn counted_len(&self) -> u128
        ensures len { result ≡ leftover_len self.now }
        ensures fits { result < 2 ^ 64 }
    {
        match self.file {
            BlockFile::Block | BlockFile::WritingBlock | BlockFile::TemporaryBlock => {
                u128::from(self.len)
            }
            BlockFile::Meta(_) | BlockFile::WritingMeta(_) | BlockFile::TemporaryMeta(_) => 0,
        }
    }

    /// Whether it is the block's, on the volume if one is given.
    pub(crate) fn is_leftover_of(&self, id: BlockId, vol: Option<u8>) -> bool
        ensures { result ≡ is_leftover_of id vol self.now }
    {
        self.id == id && is_on(vol, self.vol)
    }
}

/// Whether the volume is this one, where one is given.
fn is_on(given: Option<u8>, vol: u8) -> bool
    ensures { result ≡ is_on given vol }
{
    match given {
        None => true,
        Some(given) => vol == given,
    }
}
