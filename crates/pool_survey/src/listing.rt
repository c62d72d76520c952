//! The files of blocks in one directory.
ghost use Rattle.std.specs.Prelude.{◌≡◌, ℕ, IsTrue, OnOk, bytes_eq};
ghost use Rattle.std.specs.List.{list_any};
ghost use Rattle.volume_layout.specs.Paths.{IsBlockId};
ghost use Rattle.disk_model.specs.Names.{IsInOrder};
ghost use Rattle.volume_layout.specs.declared.block_file.BlockFile.{BlockFile};
ghost use Rattle.volume_layout.specs.BlockFiles.{is_file, name_of};
ghost use Rattle.pool_survey.specs.Found.{AreBlocks, found_of};
ghost use Rattle.pool_survey.specs.Directories.{is_in};
ghost use Rattle.pool_survey.specs.Regions.{NoneFound, AreSameOutside, is_found};

use crate::found::{FoundFiles, add_file};
use crate::naming::{Directory, file_named};
use disk_model::Names;
use std::alloc::{AllocError, Global};
use std::collections::BTreeMap;

/// Adds the files of blocks that the names of a directory name. None of that directory was found before.
pub fn add_names(
    alloc: Global,
    blocks: &mut BTreeMap<u64, FoundFiles>,
    dir: Directory,
    names: &Names,
) -> Result<(), AllocError>
    requires order { IsInOrder names.now }
    requires blocks { AreBlocks blocks.old }
    requires fresh { NoneFound (is_in dir) blocks.old }
    ensures blocks { OnOk result (AreBlocks blocks.new) }
    ensures listed { OnOk result ((id : ℕ) → IsBlockId id → (file : BlockFile) → IsTrue (is_file file) → IsTrue (is_in dir id file)
        → is_found (found_of blocks.new id) file ≡ list_any (bytes_eq (name_of id file)) names.now) }
    ensures others { OnOk result (AreSameOutside (is_in dir) blocks.old blocks.new) }
{
    for i in 0..names.len() {
        if let Some((id, file)) = file_named(dir, names.get(i)) {
            add_file(alloc, blocks, id, file)?;
        }
    }
    Ok(())
}
