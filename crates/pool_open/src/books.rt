//! The books that an opening makes.
ghost use Rattle.std.specs.Prelude.{ℕ, ◌≡◌, ◌+◌, ◌≤◌, ◌++◌, [], ◌∷◌, if◌then◌else◌, IsTrue, IsErrOf, OnOk, IfOk, Some, All, map, length};
ghost use Rattle.std.specs.Ordering.{nat_cmp};
ghost use Rattle.std.specs.BTreeMap.{get};
ghost use Rattle.disk_model.specs.Causes.{Rose};
ghost use Rattle.volume_layout.specs.declared.block_file.BlockFile.TheVariants.{Block, WritingBlock, WritingMeta};
ghost use Rattle.replica_map.specs.declared.entry.State.TheVariants.{Finalised};
ghost use Rattle.replica_map.specs.Books.{writers};
ghost use Rattle.pool_state.specs.Books.{block_books};
ghost use Rattle.pool_survey.specs.Places.{ArePlaces, ArePoolBlocks, places_of};
ghost use Rattle.pool_open.specs.Found.{IsSizeOf, IsGreatestStamp, IsGreatestOf, IsOutcome, AreCopies, AddsHeldOn, AddsHeld, IsHeldFirst, SaysFound, IsWaitingEntry, SaysNothing, first_path, gathered, alone, row_of, writing_stamps, AddsRow, MayAddRow, AddsLeftovers, KeepsOthers};
ghost use Rattle.pool_open.specs.Looking.{OnlyLooks};
ghost use Rattle.pool_open.specs.Numbering.{IsNumbered};
ghost use Rattle.pool_open.specs.Plan.{held_file, leaves_block, leaves_some};

use crate::outcome::Outcome;
use crate::paths::block_id;
use disk_model::{DiskError, Failed, PoolDisks};
use dup_resolve::{CopyRow, pick_copy};
use pool_state::{Entry, Leftover, ReplicaMap, Row, State};
use pool_survey::FoundOn;
use std::alloc::{AllocError, Global};
use std::collections::BTreeMap;
use volume_layout::{BlockFile, BlockId, Stamp, block_path, rbw_block};

/// The size of a file in bytes. One that went away since it was listed has none.
fn size_of<D: PoolDisks>(disks: &mut D, vol: u8, path: &str) -> Result<u64, DiskError>
    requires low { 1 ≤ vol }
    requires high { vol ≤ D.volume_count disks.old }
    ensures size { IfOk result (IsSizeOf (D.worlds disks.new) vol path.now) }
    ensures looks { OnlyLooks D.PoolDisks disks.old disks.new }
    ensures failed { IsErrOf result DiskError.Failed → Rose (D.faults disks.old) (D.faults disks.new) }
{
    match disks.size(vol, path) {
        Ok(Some(size)) => Ok(size),
        Ok(None) => Ok(0),
        Err(Failed) => Err(DiskError::Failed),
    }
}

/// The size of a file that may stand.
fn size_where<D: PoolDisks>(
    disks: &mut D,
    vol: u8,
    stands: bool,
    path: &str,
) -> Result<u64, DiskError>
    requires low { 1 ≤ vol }
    requires high { vol ≤ D.volume_count disks.old }
    ensures size { IsTrue stands → IfOk result (IsSizeOf (D.worlds disks.new) vol path.now) }
    ensures looks { OnlyLooks D.PoolDisks disks.old disks.new }
    ensures failed { IsErrOf result DiskError.Failed → Rose (D.faults disks.old) (D.faults disks.new) }
{
    if stands {
        size_of(disks, vol, path)
    } else {
        Ok(0)
    }
}

/// The stamp of the copy that the files of a block on a volume are, if they are one.
fn copy_stamp(on: &FoundOn) -> Option<Stamp>
    ensures { result ≡ Rattle.pool_open.specs.Plan.copy_stamp on.now.files }
{
    if on.files.block {
        on.files.metas.first().copied()
    } else {
        None
    }
}

/// Gathers the copies of a block, with the sizes of their block files.
fn find_copies<D: PoolDisks>(
    disks: &mut D,
    copies: &mut Vec<CopyRow>,
    id: BlockId,
    places: &[FoundOn],
) -> Result<(), DiskError>
    requires places { ArePlaces (D.volume_count disks.old) places.now }
    requires none { copies.old.items ≡ [] }
    ensures copies { OnOk result (AreCopies (D.worlds disks.new) id places.now copies.new.items) }
    ensures looks { OnlyLooks D.PoolDisks disks.old disks.new }
    ensures failed { IsErrOf result DiskError.Failed → Rose (D.faults disks.old) (D.faults disks.new) }
{
    for on in places {
        if let Some(stamp) = copy_stamp(on) {
            let len = size_of(disks, on.vol, block_path(id).as_str())?;
            copies.push(CopyRow {
                vol: on.vol,
                stamp,
                len,
            })?;
        }
    }
    Ok(())
}

/// Whether a block file stands on a volume, finalised or being written.
fn leaves(on: &FoundOn) -> bool
    ensures { result ≡ leaves_block on.now }
{
    on.files.block || on.files.writing
}

/// Whether one stands on one of these volumes.
fn leaves_some(places: &[FoundOn]) -> bool
    ensures { result ≡ leaves_some places.now }
{
    places.iter().any(leaves)
}

/// What an opening makes of a block of which files were found at these places. The table of copies is made anew.
fn decide<D: PoolDisks>(
    disks: &mut D,
    copies: &mut Vec<CopyRow>,
    id: BlockId,
    places: &[FoundOn],
) -> Result<Outcome, DiskError>
    requires places { ArePlaces (D.volume_count disks.old) places.now }
    ensures outcome { IfOk result (IsOutcome (D.worlds disks.new) id places.now) }
    ensures looks { OnlyLooks D.PoolDisks disks.old disks.new }
    ensures failed { IsErrOf result DiskError.Failed → Rose (D.faults disks.old) (D.faults disks.new) }
{
    copies.clear();
    find_copies(disks, copies, id, places)?;
    match pick_copy(copies, None) {
        Some(kept) => Ok(Outcome::Final(copies[kept])),
        None => {
            if leaves_some(places) {
                Ok(Outcome::Waiting)
            } else {
                Ok(Outcome::Absent)
            }
        }
    }
}

/// The greatest of a stamp and these stamps.
fn greatest_of(least: Stamp, stamps: &[Stamp]) -> Stamp
    ensures { IsGreatestOf least stamps.now result }
{
    let mut greatest = least;
    for stamp in stamps {
        if stamp.get() > greatest.get() {
            greatest = *stamp;
        }
    }
    greatest
}

/// The greatest stamp of a meta of the block that was being written on one of these volumes, or 1.
fn greatest_stamp(places: &[FoundOn]) -> Stamp
    ensures { IsGreatestStamp (writing_stamps places.now) result }
{
    let mut greatest = match Stamp::new(1) {
        Some(stamp) => stamp,
        None => unreachable!(),
    };
    for on in places {
        greatest = greatest_of(greatest, &on.files.writing_metas);
    }
    greatest
}

/// Adds a file of a block that waits.
fn push_file(
    leftovers: &mut Vec<Leftover>,
    id: BlockId,
    vol: u8,
    stamp: Stamp,
    len: u64,
    file: BlockFile,
) -> Result<(), AllocError>
    ensures { OnOk result (AddsLeftovers id (held_file vol stamp len file ∷ []) leftovers.old.items leftovers.new.items) }
{
    leftovers.push(Leftover {
        id,
        stamp,
        vol,
        file,
        len,
        held: true,
    })?;
    Ok(())
}

/// Adds the metas of a block that waits, under `current/rbw`.
fn push_metas(
    leftovers: &mut Vec<Leftover>,
    id: BlockId,
    vol: u8,
    stamp: Stamp,
    metas: &[Stamp],
) -> Result<(), AllocError>
    ensures { OnOk result (AddsLeftovers id (map (λ meta. held_file vol stamp 0 (WritingMeta meta)) metas.now) leftovers.old.items leftovers.new.items) }
{
    for meta in metas {
        push_file(leftovers, id, vol, stamp, 0, BlockFile::WritingMeta(*meta))?;
    }
    Ok(())
}

/// Adds the block file of a block that waits, where it stands on a volume.
fn push_block(
    leftovers: &mut Vec<Leftover>,
    id: BlockId,
    stamp: Stamp,
    len: u64,
    on: &FoundOn,
) -> Result<(), AllocError>
    ensures { OnOk result (AddsLeftovers id (if on.now.files.block then held_file on.now.vol stamp len Block ∷ [] else []) leftovers.old.items leftovers.new.items) }
{
    if on.files.block {
        push_file(leftovers, id, on.vol, stamp, len, BlockFile::Block)
    } else {
        Ok(())
    }
}

/// Adds what was being written of a block that waits on a volume, where its block file stands.
fn push_writing(
    leftovers: &mut Vec<Leftover>,
    id: BlockId,
    stamp: Stamp,
    len: u64,
    on: &FoundOn,
) -> Result<(), AllocError>
    ensures { OnOk result (AddsLeftovers id
        (if on.now.files.writing then held_file on.now.vol stamp len WritingBlock ∷ map (λ meta. held_file on.now.vol stamp 0 (WritingMeta meta)) on.now.files.writing_metas.items else [])
        leftovers.old.items leftovers.new.items) }
{
    if !on.files.writing {
        return Ok(());
    }
    push_file(leftovers, id, on.vol, stamp, len, BlockFile::WritingBlock)?;
    push_metas(leftovers, id, on.vol, stamp, &on.files.writing_metas)
}

/// Adds the files of a block that waits on one volume. It gives the size of the block file there that was being written, else
/// of the finalised one, or 0.
fn hold_on<D: PoolDisks>(
    disks: &mut D,
    leftovers: &mut Vec<Leftover>,
    id: BlockId,
    stamp: Stamp,
    on: &FoundOn,
) -> Result<u64, DiskError>
    requires low { 1 ≤ on.now.vol }
    requires high { on.now.vol ≤ D.volume_count disks.old }
    ensures held { OnOk result (AddsHeldOn (D.worlds disks.new) id stamp on.now leftovers.old.items leftovers.new.items) }
    ensures size { IsTrue (leaves_block on.now) → IfOk result (IsSizeOf (D.worlds disks.new) on.now.vol (first_path id on.now.files)) }
    ensures looks { OnlyLooks D.PoolDisks disks.old disks.new }
    ensures failed { IsErrOf result DiskError.Failed → Rose (D.faults disks.old) (D.faults disks.new) }
{
    let block_len = size_where(disks, on.vol, on.files.block, block_path(id).as_str())?;
    let writing_len = size_where(disks, on.vol, on.files.writing, rbw_block(id).as_str())?;
    push_block(leftovers, id, stamp, block_len, on)?;
    push_writing(leftovers, id, stamp, writing_len, on)?;
    if on.files.writing {
        Ok(writing_len)
    } else {
        Ok(block_len)
    }
}

/// Adds the files of a block that waits on all volumes. It gives the lowest volume on which a block file stands, and the
/// length that its entry has.
fn hold_all<D: PoolDisks>(
    disks: &mut D,
    leftovers: &mut Vec<Leftover>,
    id: BlockId,
    stamp: Stamp,
    places: &[FoundOn],
) -> Result<Option<(u8, u64)>, DiskError>
    requires places { ArePlaces (D.volume_count disks.old) places.now }
    ensures held { OnOk result (AddsHeld (D.worlds disks.new) id stamp places.now leftovers.old.items leftovers.new.items) }
    ensures first { IfOk result (IsHeldFirst (D.worlds disks.new) id places.now) }
    ensures looks { OnlyLooks D.PoolDisks disks.old disks.new }
    ensures failed { IsErrOf result DiskError.Failed → Rose (D.faults disks.old) (D.faults disks.new) }
{
    let mut first = None;
    for on in places {
        let len = hold_on(disks, leftovers, id, stamp, on)?;
        if first.is_none() && leaves(on) {
            first = Some((on.vol, len));
        }
    }
    Ok(first)
}

/// Adds the row of an entry, beside which nothing is kept.
fn push_row(rows: &mut Vec<Row>, entry: Entry) -> Result<(), AllocError>
    ensures { OnOk result (rows.new.items ≡ rows.old.items ++ alone entry ∷ []) }
{
    rows.push(Row { entry, grown: None })?;
    Ok(())
}

/// Adds a block that waits, and its files.
fn add_waiting<D: PoolDisks>(
    disks: &mut D,
    rows: &mut Vec<Row>,
    leftovers: &mut Vec<Leftover>,
    id: BlockId,
    rev: u64,
    places: &[FoundOn],
) -> Result<(), DiskError>
    requires places { ArePlaces (D.volume_count disks.old) places.now }
    requires leaves { IsTrue (leaves_some places.now) }
    requires nothing { SaysNothing (block_books (gathered rows.old.items leftovers.old.items) id) }
    ensures says { OnOk result (IsWaitingEntry (D.worlds disks.new) id places.now (block_books (gathered rows.new.items leftovers.new.items) id)) }
    ensures others { OnOk result (KeepsOthers id (gathered rows.old.items leftovers.old.items) (gathered rows.new.items leftovers.new.items)) }
    ensures row { OnOk result (AddsRow id rev rows.old.items rows.new.items) }
    ensures looks { OnlyLooks D.PoolDisks disks.old disks.new }
    ensures failed { IsErrOf result DiskError.Failed → Rose (D.faults disks.old) (D.faults disks.new) }
{
    let stamp = greatest_stamp(places);
    let Some((vol, len)) = hold_all(disks, leftovers, id, stamp, places)? else {
        unreachable!()
    };
    push_row(
        rows,
        Entry {
            id,
            stamp,
            len,
            vol,
            rev,
            state: State::Waiting,
        },
    )?;
    Ok(())
}

/// Adds the replica that a copy is.
fn add_final(rows: &mut Vec<Row>, id: BlockId, rev: u64, copy: CopyRow) -> Result<(), AllocError>
    ensures { OnOk result (rows.new.items ≡ rows.old.items ++ row_of id copy.vol rev copy.stamp copy.len Finalised ∷ []) }
{
    push_row(
        rows,
        Entry {
            id,
            stamp: copy.stamp,
            len: copy.len,
            vol: copy.vol,
            rev,
            state: State::Finalised,
        },
    )
}

/// Adds what the opening makes of a block.
fn add_block<D: PoolDisks>(
    disks: &mut D,
    copies: &mut Vec<CopyRow>,
    rows: &mut Vec<Row>,
    leftovers: &mut Vec<Leftover>,
    id: BlockId,
    rev: u64,
    places: &[FoundOn],
) -> Result<(), DiskError>
    requires places { ArePlaces (D.volume_count disks.old) places.now }
    requires nothing { SaysNothing (block_books (gathered rows.old.items leftovers.old.items) id) }
    ensures says { OnOk result (SaysFound (D.worlds disks.new) id places.now (block_books (gathered rows.new.items leftovers.new.items) id)) }
    ensures others { OnOk result (KeepsOthers id (gathered rows.old.items leftovers.old.items) (gathered rows.new.items leftovers.new.items)) }
    ensures row { OnOk result (MayAddRow id rev rows.old.items rows.new.items) }
    ensures looks { OnlyLooks D.PoolDisks disks.old disks.new }
    ensures failed { IsErrOf result DiskError.Failed → Rose (D.faults disks.old) (D.faults disks.new) }
{
    match decide(disks, copies, id, places)? {
        Outcome::Final(copy) => Ok(add_final(rows, id, rev, copy)?),
        Outcome::Waiting => add_waiting(disks, rows, leftovers, id, rev, places),
        Outcome::Absent => Ok(()),
    }
}

/// The books of these blocks: their entries in ascending id, with revisions from this one on, and the files of those that
/// wait. No entry has a writer.
pub fn make_books<D: PoolDisks>(
    alloc: Global,
    disks: &mut D,
    blocks: &BTreeMap<u64, Vec<FoundOn>>,
    first_rev: u64,
) -> Result<ReplicaMap, DiskError>
    requires blocks { ArePoolBlocks (D.volume_count disks.old) blocks.now }
    ensures says { IfOk result (λ books. (id : ℕ) → SaysFound (D.worlds disks.new) id (places_of blocks.now id) (block_books books id)) }
    ensures numbered { IfOk result (λ books. IsNumbered first_rev (block_books books) (first_rev + length books.rows)) }
    ensures listed { IfOk result (λ books. All (λ entry. get nat_cmp blocks.now entry.0 ≡ Some entry.1) blocks.now.entries) }
    ensures idle { IfOk result (λ books. writers books ≡ 0) }
    ensures no_moves { IfOk result (λ books. books.tickets ≡ []) }
    ensures looks { OnlyLooks D.PoolDisks disks.old disks.new }
    ensures failed { IsErrOf result DiskError.Failed → Rose (D.faults disks.old) (D.faults disks.new) }
{
    let mut copies = Vec::new(alloc);
    let mut rows = Vec::with_capacity(alloc, blocks.len())?;
    let mut leftovers = Vec::new(alloc);
    for (id, places) in blocks {
        let Some(rev) = first_rev.checked_add(rows.len() as u64) else {
            return Err(DiskError::Memory);
        };
        add_block(
            disks,
            &mut copies,
            &mut rows,
            &mut leftovers,
            block_id(*id),
            rev,
            places,
        )?;
    }
    Ok(ReplicaMap::from_rows(alloc, rows, leftovers)?)
}
