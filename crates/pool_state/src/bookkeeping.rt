//! What the calls of a pool do to its books.
ghost use Rattle.std.specs.Prelude.{◌≡◌, ◌+◌, ◌*◌, ◌<◌, ◌≤◌, None, Some, OnOk, IsSome};
ghost use Rattle.replica_map.specs.declared.entry.Entry.{Entry};
ghost use Rattle.replica_map.specs.declared.entry.State.TheVariants.{Writing, Waiting};
ghost use Rattle.replica_map.specs.Books.{entry_at, writers, Keeps};
ghost use Rattle.replica_map.specs.Counting.{writes};
ghost use Rattle.pool_state.specs.Books.{block_books, books_with, left_at, BooksBecome, BooksStay, held_block, held_meta, with_leftover, waits, HasRoom, HasRoomForOne};

use replica_map::{Entry, Grown, Leftover, ReplicaMap, State};
use std::alloc::AllocError;
use volume_layout::BlockFile;

/// Makes room for a writer: for its entry, and for the files that it and the open ones may leave. After an `AllocError`
/// nothing has changed but the room.
pub(crate) fn make_room(map: &mut ReplicaMap) -> Result<(), AllocError>
    requires room { HasRoom map.old }
    ensures books { BooksStay map.old map.new }
    ensures entries { Keeps entry_at map.old map.new }
    ensures room { HasRoom map.new }
    ensures ok { OnOk result (HasRoomForOne map.new) }
    ensures tickets { map.new.tickets ≡ map.old.tickets }
{
    let writers = map.writing_count();
    map.reserve(1, 2 * writers + 2)
}

/// Adds an entry of a block that has none, in a spare place.
fn add(map: &mut ReplicaMap, entry: Entry)
    requires absent { entry_at map.old entry.id ≡ None }
    requires spare { 1 ≤ map.old.entry_room }
    ensures books { BooksBecome entry.id (books_with None (Some entry) (left_at map.old entry.id)) map.old map.new }
    ensures entry { entry_at map.new entry.id ≡ Some entry }
    ensures writing { writers map.new ≡ writers map.old + writes entry.state }
    ensures leftover_room { map.new.leftover_room ≡ map.old.leftover_room }
    ensures tickets { map.new.tickets ≡ map.old.tickets }
{
    match map.insert(entry) {
        Ok(()) => {}
        Err(_) => unreachable!(),
    }
}

/// Puts an entry in the place of that of its block, beside which nothing is kept then.
pub(crate) fn put(map: &mut ReplicaMap, entry: Entry)
    requires present { IsSome (entry_at map.old entry.id) }
    ensures books { BooksBecome entry.id (books_with None (Some entry) (left_at map.old entry.id)) map.old map.new }
    ensures writing { (was : Entry) → entry_at map.old entry.id ≡ Some was →
        writers map.new + writes was.state ≡ writers map.old + writes entry.state }
    ensures leftover_room { map.new.leftover_room ≡ map.old.leftover_room }
    ensures room { writes entry.state ≡ 0 → HasRoom map.old → HasRoom map.new }
    ensures tickets { map.new.tickets ≡ map.old.tickets }
{
    let id = entry.id;
    map.change(entry);
    map.set_grown(id, None);
}

/// Takes the entry of a block away.
pub(crate) fn take_away(map: &mut ReplicaMap, entry: &Entry)
    requires there { entry_at map.old entry.now.id ≡ Some entry.now }
    requires room { HasRoom map.old }
    ensures books { BooksBecome entry.now.id (books_with None None (left_at map.old entry.now.id)) map.old map.new }
    ensures room { HasRoom map.new }
    ensures tickets { map.new.tickets ≡ map.old.tickets }
{
    map.remove(entry.id);
}

/// Lists the block file of an entry's writer as held, in a spare place.
fn hold_block(map: &mut ReplicaMap, entry: &Entry)
    requires spare { 1 ≤ map.old.leftover_room }
    ensures books { BooksBecome entry.now.id (with_leftover (held_block entry.now) (block_books map.old entry.now.id)) map.old map.new }
    ensures writing { writers map.new ≡ writers map.old }
    ensures leftover_room { map.old.leftover_room ≡ map.new.leftover_room + 1 }
    ensures tickets { map.new.tickets ≡ map.old.tickets }
{
    map.list_leftover(Leftover {
        id: entry.id,
        stamp: entry.stamp,
        vol: entry.vol,
        file: BlockFile::WritingBlock,
        len: entry.len,
        held: true,
    });
}

/// Lists the meta file of an entry's writer as held, in a spare place.
fn hold_meta(map: &mut ReplicaMap, entry: &Entry)
    requires spare { 1 ≤ map.old.leftover_room }
    ensures books { BooksBecome entry.now.id (with_leftover (held_meta entry.now) (block_books map.old entry.now.id)) map.old map.new }
    ensures writing { writers map.new ≡ writers map.old }
    ensures leftover_room { map.old.leftover_room ≡ map.new.leftover_room + 1 }
    ensures tickets { map.new.tickets ≡ map.old.tickets }
{
    map.list_leftover(Leftover {
        id: entry.id,
        stamp: entry.stamp,
        vol: entry.vol,
        file: BlockFile::WritingMeta(entry.stamp),
        len: 0,
        held: true,
    });
}

/// Adds the entry of a writer, with its drafts.
pub(crate) fn add_writer(map: &mut ReplicaMap, entry: Entry, grown: Grown)
    requires absent { entry_at map.old entry.id ≡ None }
    requires state { entry.state ≡ Writing }
    requires room { HasRoomForOne map.old }
    ensures books { BooksBecome entry.id (books_with (Some grown) (Some entry) (left_at map.old entry.id)) map.old map.new }
    ensures room { HasRoom map.new }
    ensures tickets { map.new.tickets ≡ map.old.tickets }
{
    let id = entry.id;
    add(map, entry);
    map.set_grown(id, Some(grown));
}

/// Adds a block that waits, since the create of its block file failed, or that of its meta file found no memory.
pub(crate) fn add_half_created(map: &mut ReplicaMap, entry: &Entry)
    requires absent { entry_at map.old entry.now.id ≡ None }
    requires state { entry.now.state ≡ Waiting }
    requires room { HasRoomForOne map.old }
    ensures books { BooksBecome entry.now.id
        (with_leftover (held_block entry.now) (books_with None (Some entry.now) (left_at map.old entry.now.id))) map.old map.new }
    ensures room { HasRoom map.new }
    ensures tickets { map.new.tickets ≡ map.old.tickets }
{
    add(map, *entry);
    hold_block(map, entry);
}

/// Adds a block that waits, since the create of its meta file failed.
pub(crate) fn add_created(map: &mut ReplicaMap, entry: &Entry)
    requires absent { entry_at map.old entry.now.id ≡ None }
    requires state { entry.now.state ≡ Waiting }
    requires room { HasRoomForOne map.old }
    ensures books { BooksBecome entry.now.id (with_leftover (held_meta entry.now)
        (with_leftover (held_block entry.now) (books_with None (Some entry.now) (left_at map.old entry.now.id)))) map.old map.new }
    ensures room { HasRoom map.new }
    ensures tickets { map.new.tickets ≡ map.old.tickets }
{
    add(map, *entry);
    hold_block(map, entry);
    hold_meta(map, entry);
}

/// Makes the block of a writer wait, and holds both files of the writer.
pub(crate) fn give_up(map: &mut ReplicaMap, entry: &Entry)
    requires there { entry_at map.old entry.now.id ≡ Some entry.now }
    requires state { entry.now.state ≡ Writing }
    requires room { HasRoom map.old }
    ensures books { BooksBecome entry.now.id (with_leftover (held_meta entry.now)
        (with_leftover (held_block entry.now) (books_with None (Some (waits entry.now)) (left_at map.old entry.now.id)))) map.old map.new }
    ensures room { HasRoom map.new }
    ensures tickets { map.new.tickets ≡ map.old.tickets }
{
    put(
        map,
        Entry {
            state: State::Waiting,
            ..*entry
        },
    );
    hold_block(map, entry);
    hold_meta(map, entry);
}

/// Makes the block of a writer wait whose block file is gone, and holds its meta file.
pub(crate) fn give_up_meta(map: &mut ReplicaMap, entry: &Entry)
    requires there { entry_at map.old entry.now.id ≡ Some entry.now }
    requires state { entry.now.state ≡ Writing }
    requires room { HasRoom map.old }
    ensures books { BooksBecome entry.now.id
        (with_leftover (held_meta entry.now) (books_with None (Some (waits entry.now)) (left_at map.old entry.now.id))) map.old map.new }
    ensures room { HasRoom map.new }
    ensures tickets { map.new.tickets ≡ map.old.tickets }
{
    put(
        map,
        Entry {
            state: State::Waiting,
            ..*entry
        },
    );
    hold_meta(map, entry);
}
