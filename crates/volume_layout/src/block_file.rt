// The files of one block on a volume.
ghost use Rattle.std.specs.Prelude.{◌≡◌, IsTrue};
ghost use Rattle.volume_layout.specs.Names.{path_text};
ghost use Rattle.volume_layout.specs.BlockFiles.{path_of, is_file};

use crate::ids::{BlockId, Stamp};
use crate::paths::{PathText, block_path, meta_path, rbw_block, rbw_meta, tmp_block, tmp_meta};

/// A file of a block, by its place on a volume: of the finalised pair, of the pair that is being written under
/// `current/rbw`, or of the pair that a move makes under `tmp`.
#[derive(Clone, Copy, Debug, PartialEq, Eq)]
pub enum BlockFile {
    /// The finalised block file.
    Block,
    /// The finalised meta file of this stamp.
    Meta(Stamp),
    /// The block file under `current/rbw`.
    WritingBlock,
    /// The meta file of this stamp under `current/rbw`.
    WritingMeta(Stamp),
    /// The block file under `tmp`.
    TemporaryBlock,
    /// The meta file of this stamp under `tmp`.
    TemporaryMeta(Stamp),
}

impl BlockFile {
    /// Its path, relative to the pool's directory on the volume.
    pub fn path(self, id: BlockId) -> PathText
        ensures text { path_text result ≡ path_of id self }
        ensures valid { IsTrue (is_file self) }
    {
        match self {
            BlockFile::Block => block_path(id),
            BlockFile::Meta(stamp) => meta_path(id, stamp),
            BlockFile::WritingBlock => rbw_block(id),
            BlockFile::WritingMeta(stamp) => rbw_meta(id, stamp),
            BlockFile::TemporaryBlock => tmp_block(id),
            BlockFile::TemporaryMeta(stamp) => tmp_meta(id, stamp),
        }
    }
}
