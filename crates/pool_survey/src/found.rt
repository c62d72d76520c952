//! What was found of a block.
ghost use Rattle.std.specs.Prelude.{◌≡◌, ◌||◌, ◌&&◌, ◌==◌, ℕ, Some, OnOk, IsTrue, IsFalse};
ghost use Rattle.volume_layout.specs.declared.block_file.BlockFile.{BlockFile};
ghost use Rattle.volume_layout.specs.BlockFiles.{same_file};
ghost use Rattle.pool_survey.specs.Found.{AreBlocks, found_of};
ghost use Rattle.pool_survey.specs.Directories.{is_looked_for};
ghost use Rattle.pool_survey.specs.Regions.{AreFiles, is_found};

use std::alloc::{AllocError, Global};
use std::collections::BTreeMap;
use volume_layout::{BlockFile, BlockId, Stamp};

/// Which files of one block stand on a volume. A finalised file counts only in the block's own directory.
#[derive(Drop)]
pub struct FoundFiles {
    /// The finalised block file.
    pub block: bool,
    /// The stamps of the finalised meta files, each once, in no order that means anything.
    pub metas: Vec<Stamp>,
    /// The block file under `current/rbw`.
    pub writing: bool,
    /// The stamps of the meta files under `current/rbw`, each once, in no order that means anything.
    pub writing_metas: Vec<Stamp>,
}

impl FoundFiles {
    /// No file at all. It takes no memory.
    pub fn none(alloc: Global) -> FoundFiles
        ensures none { (file : BlockFile) → IsFalse (is_found (Some result) file) }
        ensures files { AreFiles (Some result) }
    {
        FoundFiles {
            block: false,
            metas: Vec::new(alloc),
            writing: false,
            writing_metas: Vec::new(alloc),
        }
    }

    /// Adds a file that wasn't found yet.
    pub fn add(&mut self, file: BlockFile) -> Result<(), AllocError>
        requires files { AreFiles (Some self.old) }
        requires looked_for { IsTrue (is_looked_for file) }
        requires fresh { IsFalse (is_found (Some self.old) file) }
        ensures added { OnOk result ((other : BlockFile) → is_found (Some self.new) other ≡ (is_found (Some self.old) other || same_file other file)) }
        ensures files { OnOk result (AreFiles (Some self.new)) }
    {
        match file {
            BlockFile::Block => self.block = true,
            BlockFile::Meta(stamp) => self.metas.push(stamp)?,
            BlockFile::WritingBlock => self.writing = true,
            BlockFile::WritingMeta(stamp) => self.writing_metas.push(stamp)?,
            BlockFile::TemporaryBlock | BlockFile::TemporaryMeta(_) => {}
        }
        Ok(())
    }
}

/// Adds a file of a block that wasn't found yet.
pub fn add_file(
    alloc: Global,
    blocks: &mut BTreeMap<u64, FoundFiles>,
    id: BlockId,
    file: BlockFile,
) -> Result<(), AllocError>
    requires blocks { AreBlocks blocks.old }
    requires looked_for { IsTrue (is_looked_for file) }
    requires fresh { IsFalse (is_found (found_of blocks.old id) file) }
    ensures added { OnOk result ((other : ℕ) (name : BlockFile) →
        is_found (found_of blocks.new other) name ≡ (is_found (found_of blocks.old other) name || ((other == id) && same_file name file))) }
    ensures blocks { OnOk result (AreBlocks blocks.new) }
{
    if let Some(files) = blocks.get_mut(&id.get()) {
        return files.add(file);
    }
    let mut files = FoundFiles::none(alloc);
    files.add(file)?;
    blocks.insert(id.get(), files)?;
    Ok(())
}
