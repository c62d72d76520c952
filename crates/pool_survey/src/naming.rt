//! The files of blocks that names in a directory name.
ghost use Rattle.std.specs.Prelude.{◌≡◌, ◌≢◌, ℕ, IfSome, IfNone, IsTrue};
ghost use Rattle.volume_layout.specs.Paths.{IsBlockId};
ghost use Rattle.volume_layout.specs.declared.block_file.BlockFile.{BlockFile};
ghost use Rattle.volume_layout.specs.BlockFiles.{is_file, name_of};
ghost use Rattle.pool_survey.specs.Directories as directories;

use volume_layout::{BlockFile, BlockId, Named, Stamp, place_of, read_name};

/// A directory in which files of blocks are looked for.
#[derive(Clone, Copy)]
pub enum Directory {
    /// `current/rbw`.
    Writing,
    /// The directory of finalised files with these two numbers.
    Finalised(u8, u8),
}

impl Directory {
    /// Whether it is the directory of such files of the block.
    fn is_of(self, id: BlockId) -> bool
        ensures { result ≡ directories.is_in self id (directories.block_in self) }
    {
        match self {
            Directory::Writing => true,
            Directory::Finalised(d1, d2) => {
                let place = place_of(id);
                place.d1 == d1 && place.d2 == d2
            }
        }
    }

    /// A block file in such a directory.
    fn block_file(self) -> BlockFile
        ensures { result ≡ directories.block_in self }
    {
        match self {
            Directory::Writing => BlockFile::WritingBlock,
            Directory::Finalised(_, _) => BlockFile::Block,
        }
    }

    /// A meta file in such a directory.
    fn meta_file(self, stamp: Stamp) -> BlockFile
        ensures { result ≡ directories.meta_in self stamp }
    {
        match self {
            Directory::Writing => BlockFile::WritingMeta(stamp),
            Directory::Finalised(_, _) => BlockFile::Meta(stamp),
        }
    }
}

/// The file of a block that a name in the directory names, where the block's file belongs there.
pub fn file_named(dir: Directory, name: &str) -> Option<(BlockId, BlockFile)>
    ensures some { IfSome result (λ found. IsTrue (directories.is_in dir found.0 found.1)
        × (name.now ≡ name_of found.0 found.1)) }
    ensures valid { IfSome result (λ found. IsBlockId found.0 × IsTrue (is_file found.1)) }
    ensures none { IfNone result ((id : ℕ) → IsBlockId id → (file : BlockFile) → IsTrue (is_file file)
        → IsTrue (directories.is_in dir id file) → name.now ≢ name_of id file) }
{
    match read_name(name) {
        Named::Block(id) => {
            if dir.is_of(id) {
                Some((id, dir.block_file()))
            } else {
                None
            }
        }
        Named::Meta(id, stamp) => {
            if dir.is_of(id) {
                Some((id, dir.meta_file(stamp)))
            } else {
                None
            }
        }
        Named::Other => None,
    }
}
