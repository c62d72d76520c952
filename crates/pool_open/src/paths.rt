//! The places that an opening clears.
ghost use Rattle.std.specs.Prelude.{◌≡◌, ◌<◌, ◌++◌, [], ◌∷◌, length, codes, OnOk, IfOk, All};
ghost use Rattle.std.specs.List.{flat_map};
ghost use Rattle.volume_layout.specs.Paths as names;
ghost use Rattle.disk_model.specs.Files.{path_in};
ghost use Rattle.pool_open.specs.Plan as plan;
ghost use Rattle.pool_open.specs.Plan.{places_at, pieces_of, cleared_places, kept_in};

use crate::clearing::VolumePath;
use disk_model::Names;
use pool_state::{ReplicaMap, State};
use pool_survey::{FoundOn, PoolSurvey};
use std::alloc::{AllocError, Global};
use std::collections::BTreeMap;
use volume_layout::{BlockId, TMP_DIR, block_path, meta_path, rbw_block, rbw_meta};

/// The id that this number is.
pub fn block_id(id: u64) -> BlockId
    requires { names.IsBlockId id }
    ensures { result ≡ id }
{
    match BlockId::new(id) {
        Some(id) => id,
        None => unreachable!(),
    }
}

/// The volume on which the replica of a block is kept, if there is one.
fn kept_volume(map: &ReplicaMap, id: BlockId) -> Option<u8>
    ensures { result ≡ kept_in map.now id }
{
    match map.find(id) {
        Some(entry) if entry.state == State::Finalised => Some(entry.vol),
        _ => None,
    }
}

/// Adds a path on a volume.
pub fn push_path(
    alloc: Global,
    places: &mut Vec<VolumePath>,
    vol: u8,
    path: &str,
) -> Result<(), AllocError>
    ensures { OnOk result (places_at places.new.items ≡ places_at places.old.items ++ (vol, path.now) ∷ []) }
{
    places.push(VolumePath {
        vol,
        path: String::from_str(alloc, path)?,
    })?;
    Ok(())
}

/// Adds the path of a name in `tmp` of a volume.
fn push_temporary(
    alloc: Global,
    places: &mut Vec<VolumePath>,
    vol: u8,
    name: &str,
) -> Result<(), AllocError>
    ensures { OnOk result (places_at places.new.items ≡ places_at places.old.items ++ (vol, path_in (codes "tmp") name.now) ∷ []) }
{
    let mut path = String::from_str(alloc, TMP_DIR)?;
    path.push_str("/")?;
    path.push_str(name)?;
    places.push(VolumePath { vol, path })?;
    Ok(())
}

/// Adds the finalised block file of a block on a volume, where it stands.
fn push_block(
    alloc: Global,
    places: &mut Vec<VolumePath>,
    id: BlockId,
    on: &FoundOn,
) -> Result<(), AllocError>
    ensures { OnOk result (places_at places.new.items ≡ places_at places.old.items ++ plan.block_on id on.now) }
{
    if on.files.block {
        push_path(alloc, places, on.vol, block_path(id).as_str())
    } else {
        Ok(())
    }
}

/// Adds its finalised metas there.
fn push_metas(
    alloc: Global,
    places: &mut Vec<VolumePath>,
    id: BlockId,
    on: &FoundOn,
) -> Result<(), AllocError>
    ensures { OnOk result (places_at places.new.items ≡ places_at places.old.items ++ plan.metas_on id on.now) }
{
    for stamp in &on.files.metas {
        push_path(alloc, places, on.vol, meta_path(id, *stamp).as_str())?;
    }
    Ok(())
}

/// Adds its block file under `current/rbw` there, where it stands.
fn push_writing(
    alloc: Global,
    places: &mut Vec<VolumePath>,
    id: BlockId,
    on: &FoundOn,
) -> Result<(), AllocError>
    ensures { OnOk result (places_at places.new.items ≡ places_at places.old.items ++ plan.writing_on id on.now) }
{
    if on.files.writing {
        push_path(alloc, places, on.vol, rbw_block(id).as_str())
    } else {
        Ok(())
    }
}

/// Adds its metas under `current/rbw` there.
fn push_writing_metas(
    alloc: Global,
    places: &mut Vec<VolumePath>,
    id: BlockId,
    on: &FoundOn,
) -> Result<(), AllocError>
    ensures { OnOk result (places_at places.new.items ≡ places_at places.old.items ++ plan.writing_metas_on id on.now) }
{
    for stamp in &on.files.writing_metas {
        push_path(alloc, places, on.vol, rbw_meta(id, *stamp).as_str())?;
    }
    Ok(())
}

/// Adds the copy of a block on a volume, where another one is kept.
fn push_lesser(
    alloc: Global,
    places: &mut Vec<VolumePath>,
    kept: Option<u8>,
    id: BlockId,
    on: &FoundOn,
) -> Result<(), AllocError>
    ensures { OnOk result (places_at places.new.items ≡ places_at places.old.items ++ plan.lesser_on kept id on.now) }
{
    match kept {
        Some(vol) if on.vol != vol && on.files.block && !on.files.metas.is_empty() => {
            push_block(alloc, places, id, on)?;
            push_metas(alloc, places, id, on)
        }
        _ => Ok(()),
    }
}

/// Adds what the kept copy of a block supersedes on a volume.
fn push_superseded(
    alloc: Global,
    places: &mut Vec<VolumePath>,
    kept: Option<u8>,
    id: BlockId,
    on: &FoundOn,
) -> Result<(), AllocError>
    ensures { OnOk result (places_at places.new.items ≡ places_at places.old.items ++ plan.superseded_on kept id on.now) }
{
    if kept.is_none() {
        return Ok(());
    }
    push_writing(alloc, places, id, on)?;
    push_writing_metas(alloc, places, id, on)?;
    if on.files.metas.is_empty() {
        push_block(alloc, places, id, on)
    } else {
        Ok(())
    }
}

/// Adds the metas of a block that stand without a block file on a volume.
fn push_orphans(
    alloc: Global,
    places: &mut Vec<VolumePath>,
    kept: Option<u8>,
    id: BlockId,
    on: &FoundOn,
) -> Result<(), AllocError>
    ensures { OnOk result (places_at places.new.items ≡ places_at places.old.items ++ plan.orphans_on kept id on.now) }
{
    if !on.files.block {
        push_metas(alloc, places, id, on)?;
    }
    if kept.is_none() && !on.files.writing {
        push_writing_metas(alloc, places, id, on)
    } else {
        Ok(())
    }
}

/// Which of a block's files are listed.
#[derive(Clone, Copy)]
enum Piece {
    /// The copies that aren't kept.
    Lesser,
    /// What a kept copy supersedes.
    Superseded,
    /// The metas without a block file.
    Orphans,
}

/// Adds a piece of a block on one volume.
fn push_piece(
    alloc: Global,
    places: &mut Vec<VolumePath>,
    piece: Piece,
    kept: Option<u8>,
    id: BlockId,
    on: &FoundOn,
) -> Result<(), AllocError>
    ensures { OnOk result (places_at places.new.items ≡ places_at places.old.items ++ plan.piece_on piece kept id on.now) }
{
    match piece {
        Piece::Lesser => push_lesser(alloc, places, kept, id, on),
        Piece::Superseded => push_superseded(alloc, places, kept, id, on),
        Piece::Orphans => push_orphans(alloc, places, kept, id, on),
    }
}

/// Adds a piece of a block on all volumes.
fn push_pieces(
    alloc: Global,
    places: &mut Vec<VolumePath>,
    piece: Piece,
    kept: Option<u8>,
    id: BlockId,
    found: &[FoundOn],
) -> Result<(), AllocError>
    ensures { OnOk result (places_at places.new.items ≡ places_at places.old.items ++ flat_map (plan.piece_on piece kept id) found.now) }
{
    for on in found {
        push_piece(alloc, places, piece, kept, id, on)?;
    }
    Ok(())
}

/// Adds a piece of all blocks.
fn list_pieces(
    alloc: Global,
    places: &mut Vec<VolumePath>,
    piece: Piece,
    map: &ReplicaMap,
    blocks: &BTreeMap<u64, Vec<FoundOn>>,
) -> Result<(), AllocError>
    requires ids { All (λ entry. names.IsBlockId entry.0) blocks.now.entries }
    ensures { OnOk result (places_at places.new.items ≡ places_at places.old.items ++ flat_map (pieces_of piece (kept_in map.now)) blocks.now.entries) }
{
    for (id, found) in blocks {
        let id = block_id(*id);
        push_pieces(alloc, places, piece, kept_volume(map, id), id, found)?;
    }
    Ok(())
}

/// Adds the names in `tmp` of a volume.
fn push_names(
    alloc: Global,
    places: &mut Vec<VolumePath>,
    vol: u8,
    names: &Names,
) -> Result<(), AllocError>
    ensures { OnOk result (places_at places.new.items ≡ places_at places.old.items ++ plan.names_on vol names.now) }
{
    for i in 0..names.len() {
        push_temporary(alloc, places, vol, names.get(i))?;
    }
    Ok(())
}

/// Adds the names in `tmp` of all volumes.
fn list_temporary(
    alloc: Global,
    places: &mut Vec<VolumePath>,
    temporary: &[Names],
) -> Result<(), AllocError>
    requires limit { length temporary.now < 256 }
    ensures { OnOk result (places_at places.new.items ≡ places_at places.old.items ++ plan.temporary_from 1 temporary.now) }
{
    let mut vol = 0;
    for names in temporary {
        vol += 1;
        push_names(alloc, places, vol, names)?;
    }
    Ok(())
}

/// The places that an opening clears, in the order in which it does.
pub fn list_places(
    alloc: Global,
    survey: &PoolSurvey,
    map: &ReplicaMap,
) -> Result<Vec<VolumePath>, AllocError>
    requires ids { All (λ entry. names.IsBlockId entry.0) survey.now.blocks.entries }
    requires limit { length survey.now.temporary.items < 256 }
    ensures { IfOk result (λ places. places_at places.items ≡ cleared_places (kept_in map.now) survey.now.blocks.entries survey.now.temporary.items) }
{
    let mut places = Vec::new(alloc);
    list_temporary(alloc, &mut places, &survey.temporary)?;
    list_pieces(alloc, &mut places, Piece::Lesser, map, &survey.blocks)?;
    list_pieces(alloc, &mut places, Piece::Superseded, map, &survey.blocks)?;
    list_pieces(alloc, &mut places, Piece::Orphans, map, &survey.blocks)?;
    Ok(places)
}
