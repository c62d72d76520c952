//! On which volumes something of a block was found.
ghost use Rattle.std.specs.Prelude.{◌≡◌, ◌==◌, if◌then◌else◌, ℕ, Some, None, OnOk};
ghost use Rattle.volume_layout.specs.Paths.{IsBlockId};
ghost use Rattle.pool_survey.specs.Found.{AreBlocks, found_of};
ghost use Rattle.pool_survey.specs.Places.{HaveBlockIds, places_of, with_found};

use crate::found::FoundFiles;
use std::alloc::{AllocError, Global};
use std::collections::BTreeMap;

/// What was found of a block on one volume.
#[derive(Drop)]
pub struct FoundOn {
    /// The volume, from 1.
    pub vol: u8,
    /// The files of the block that stand there.
    pub files: FoundFiles,
}

/// Puts what was found of one block on a volume behind what was found of it before.
pub fn add_found(
    alloc: Global,
    blocks: &mut BTreeMap<u64, Vec<FoundOn>>,
    id: u64,
    vol: u8,
    files: FoundFiles,
) -> Result<(), AllocError>
    requires id { IsBlockId id }
    requires ids { HaveBlockIds blocks.old }
    ensures ids { OnOk result (HaveBlockIds blocks.new) }
    ensures added { OnOk result ((other : ℕ) →
        places_of blocks.new other ≡ with_found vol (places_of blocks.old other) (if other == id then Some files else None)) }
{
    let found = FoundOn { vol, files };
    if let Some(places) = blocks.get_mut(&id) {
        places.push(found)?;
        return Ok(());
    }
    let mut places = Vec::with_capacity(alloc, 1)?;
    places.push(found)?;
    blocks.insert(id, places)?;
    Ok(())
}

/// Puts what was found on a volume, block by block, behind what was found before.
pub fn merge(
    alloc: Global,
    blocks: &mut BTreeMap<u64, Vec<FoundOn>>,
    vol: u8,
    mut found: BTreeMap<u64, FoundFiles>,
) -> Result<(), AllocError>
    requires found { AreBlocks found }
    requires ids { HaveBlockIds blocks.old }
    ensures ids { OnOk result (HaveBlockIds blocks.new) }
    ensures merged { OnOk result ((id : ℕ) →
        places_of blocks.new id ≡ with_found vol (places_of blocks.old id) (found_of found id)) }
{
    while let Some((id, files)) = found.pop_first() {
        add_found(alloc, blocks, id, vol, files)?;
    }
    Ok(())
}
