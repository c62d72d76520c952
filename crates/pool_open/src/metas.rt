//! The metas that don't count beside a block file.
ghost use Rattle.std.specs.Prelude.{◌≡◌, ◌++◌, ℕ, Some, OnOk, IfOk, All};
ghost use Rattle.std.specs.List.{flat_map};
ghost use Rattle.std.specs.Ordering.{nat_cmp};
ghost use Rattle.std.specs.BTreeMap.{get};
ghost use Rattle.pool_survey.specs.declared.places.FoundOn.{FoundOn};
ghost use Rattle.pool_survey.specs.Places.{HaveBlockIds, places_of};
ghost use Rattle.pool_survey.specs.Regions.{AreFiles};
ghost use Rattle.pool_open.specs.Plan.{places_at};
ghost use Rattle.pool_open.specs.Surplus as surplus;
ghost use Rattle.pool_open.specs.Surplus.{HasFiles, IsBroughtDown, AreBroughtDown, IsTableBroughtDown};

use crate::clearing::VolumePath;
use crate::paths::{block_id, push_path};
use dup_resolve::pick_meta;
use pool_survey::{FoundFiles, FoundOn};
use std::alloc::{AllocError, Global};
use std::collections::BTreeMap;
use volume_layout::{BlockId, Stamp, meta_path};

/// The stamp that counts of a block's metas beside its block file on a volume, where there is one.
#[tactic(auto, using(crate::proofs::Counted::picked))]
fn counted(files: &FoundFiles) -> Option<Stamp>
    requires { AreFiles (Some files.now) }
    ensures { result ≡ surplus.counted files.now }
{
    if files.block {
        pick_meta(&files.metas, files.writing)
    } else {
        None
    }
}

/// Adds the metas of a block on a volume with smaller stamps than this one.
fn push_below(
    alloc: Global,
    places: &mut Vec<VolumePath>,
    id: BlockId,
    on: &FoundOn,
    kept: Stamp,
) -> Result<(), AllocError>
    ensures { OnOk result (places_at places.new.items ≡ places_at places.old.items ++ surplus.metas_at on.now.vol id (surplus.below kept on.now.files.metas.items)) }
{
    for stamp in &on.files.metas {
        if stamp.get() < kept.get() {
            push_path(alloc, places, on.vol, meta_path(id, *stamp).as_str())?;
        }
    }
    Ok(())
}

/// Adds those with greater stamps.
fn push_above(
    alloc: Global,
    places: &mut Vec<VolumePath>,
    id: BlockId,
    on: &FoundOn,
    kept: Stamp,
) -> Result<(), AllocError>
    ensures { OnOk result (places_at places.new.items ≡ places_at places.old.items ++ surplus.metas_at on.now.vol id (surplus.above kept on.now.files.metas.items)) }
{
    for stamp in &on.files.metas {
        if kept.get() < stamp.get() {
            push_path(alloc, places, on.vol, meta_path(id, *stamp).as_str())?;
        }
    }
    Ok(())
}

/// Adds the metas of a block on a volume that don't count: those with smaller stamps than the one that does, then those with
/// greater ones.
fn push_surplus(
    alloc: Global,
    places: &mut Vec<VolumePath>,
    id: BlockId,
    on: &FoundOn,
) -> Result<(), AllocError>
    requires { AreFiles (Some on.now.files) }
    ensures { OnOk result (places_at places.new.items ≡ places_at places.old.items ++ surplus.surplus_on id on.now) }
{
    if let Some(kept) = counted(&on.files) {
        push_below(alloc, places, id, on, kept)?;
        push_above(alloc, places, id, on, kept)?;
    }
    Ok(())
}

/// Adds those on all volumes.
fn push_all_surplus(
    alloc: Global,
    places: &mut Vec<VolumePath>,
    id: BlockId,
    found: &[FoundOn],
) -> Result<(), AllocError>
    requires { All HasFiles found.now }
    ensures { OnOk result (places_at places.new.items ≡ places_at places.old.items ++ flat_map (surplus.surplus_on id) found.now) }
{
    for on in found {
        push_surplus(alloc, places, id, on)?;
    }
    Ok(())
}

/// The places of the metas that don't count, in the order in which they are removed.
pub fn list_surplus(
    alloc: Global,
    blocks: &BTreeMap<u64, Vec<FoundOn>>,
) -> Result<Vec<VolumePath>, AllocError>
    requires ids { HaveBlockIds blocks.now }
    requires files { (id : ℕ) → All HasFiles (places_of blocks.now id) }
    ensures surplus { IfOk result (λ places. places_at places.items ≡ surplus.surplus_places blocks.now.entries) }
    ensures listed { IfOk result (λ places. All (λ entry. get nat_cmp blocks.now entry.0 ≡ Some entry.1) blocks.now.entries) }
{
    let mut places = Vec::new(alloc);
    for (id, found) in blocks {
        push_all_surplus(alloc, &mut places, block_id(*id), found)?;
    }
    Ok(places)
}

/// Forgets the metas that don't count of a block on a volume.
fn bring_down_on(on: &mut FoundOn) -> Result<(), AllocError>
    requires { HasFiles on.old }
    ensures { OnOk result (IsBroughtDown on.old on.new) }
{
    if let Some(kept) = counted(&on.files) {
        on.files.metas.clear();
        on.files.metas.push(kept)?;
    }
    Ok(())
}

/// Forgets them on all volumes.
fn bring_down_all(places: &mut [FoundOn]) -> Result<(), AllocError>
    requires { All HasFiles places.old }
    ensures { OnOk result (AreBroughtDown places.old places.new) }
{
    for on in places.iter_mut() {
        bring_down_on(on)?;
    }
    Ok(())
}

/// The table without the metas that don't count.
pub fn bring_down(
    alloc: Global,
    mut blocks: BTreeMap<u64, Vec<FoundOn>>,
) -> Result<BTreeMap<u64, Vec<FoundOn>>, AllocError>
    requires ids { HaveBlockIds blocks }
    requires files { (id : ℕ) → All HasFiles (places_of blocks id) }
    ensures ids { IfOk result HaveBlockIds }
    ensures brought_down { IfOk result (IsTableBroughtDown blocks) }
{
    let mut left = BTreeMap::new(alloc);
    while let Some((id, mut places)) = blocks.pop_first() {
        bring_down_all(&mut places)?;
        left.insert(id, places)?;
    }
    Ok(left)
}
