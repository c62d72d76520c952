ghost use Rattle.std.specs.Prelude.{◌≡◌};

use super::*;
use std::alloc::{AllocError, Global};
use std::process::Abort;
use std::test::Fail;
use volume_layout::{BlockFile, BlockId, Place, START, Stamp, place_of};

/// Adds an entry of a block that has none.
fn add(
    map: &mut ReplicaMap,
    id: BlockId,
    stamp: Stamp,
    vol: u8,
    len: u64,
) -> Result<(), AllocError> {
    let entry = Entry {
        id,
        stamp,
        len,
        vol,
        rev: 1,
        state: State::Finalised,
    };
    if let None = map.find(id) {
        map.insert(entry)?;
    }
    Ok(())
}

/// Makes the block's entry that of an append over a base of 20 bytes.
fn begin_append(map: &mut ReplicaMap, id: BlockId, stamp: Stamp) {
    if let Some(entry) = map.find(id) {
        map.change(Entry {
            state: State::Writing,
            len: 25,
            ..entry
        });
        let base = Some(Base { stamp, len: 20 });
        let grown = Grown {
            base,
            reserved: 25,
            block_no: 1,
            meta_no: 2,
        };
        map.set_grown(id, Some(grown));
    }
}

/// The id of the first replica of a volume past a place, or 0. The place goes on to it.
fn step(map: &ReplicaMap, vol: u8, place: &mut Place) -> u64 {
    match map.next_on(vol, *place) {
        None => 0,
        Some(entry) => {
            *place = place_of(entry.id);
            entry.id.get()
        }
    }
}

/// The ids of the replicas of a volume are these.
fn expect_order(rt: &impl Abort, map: &ReplicaMap, vol: u8, ids: &[u64]) {
    let mut place = START;
    for id in ids {
        assert_eq!(rt; step(map, vol, &mut place), *id);
    }
    assert_eq!(rt; step(map, vol, &mut place), 0);
}

#[test]
fn replicas_come_in_the_order_of_their_directories(rt: HostRuntime) -> Result<(), Fail> {
    let (Some(a), Some(b), Some(c), Some(d)) = (
        BlockId::new(5),
        BlockId::new(261),
        BlockId::new(65541),
        BlockId::new(8197),
    ) else {
        return Ok(());
    };
    let Some(stamp) = Stamp::new(1001) else {
        return Ok(());
    };
    let mut map = ReplicaMap::make(rt.alloc());
    add(&mut map, c, stamp, 1, 30)?;
    add(&mut map, a, stamp, 1, 10)?;
    add(&mut map, d, stamp, 1, 7)?;
    add(&mut map, b, stamp, 1, 20)?;
    expect_order(&rt, &map, 1, &[5, 8197, 261, 65541]);
    expect_order(&rt, &map, 2, &[]);
    assert_eq!(rt; map.used(1), 67);
    begin_append(&mut map, b, stamp);
    expect_order(&rt, &map, 1, &[5, 8197, 65541]);
    assert_eq!(rt; map.used(1), 92);
    assert_eq!(rt; map.writing_count(), 1);
    if let Some(_) = map.find(c) {
        map.remove(c);
    }
    expect_order(&rt, &map, 1, &[5, 8197]);
    assert_eq!(rt; map.used(1), 62);
    Ok(())
}

/// A row of a block, beside whose entry nothing is kept.
fn row(rt: &impl Abort, id: u64, stamp: Stamp, vol: u8, state: State, len: u64) -> Row
    ensures { result.entry.id ≡ id }
{
    let Some(id) = BlockId::new(id) else {
        panic!(rt; "no id");
    };
    let entry = Entry {
        id,
        stamp,
        len,
        vol,
        rev: 1,
        state,
    };
    Row { entry, grown: None }
}

/// The rows are these, and each is found by its block.
fn expect_rows(rt: &impl Abort, map: &ReplicaMap, rows: &[Row]) {
    assert_eq!(rt; map.entry_count(), rows.len());
    for row in rows {
        assert_eq!(rt; map.find(row.entry.id), Some(row.entry));
        assert_eq!(rt; map.grown(row.entry.id), row.grown);
    }
}

#[test]
fn books_are_made_of_rows(rt: HostRuntime) -> Result<(), Fail> {
    let Some(stamp) = Stamp::new(1001) else {
        panic!(rt; "no stamp");
    };
    let grown = Grown {
        base: Some(Base { stamp, len: 20 }),
        reserved: 25,
        block_no: 1,
        meta_no: 2,
    };
    let rows = vec![in rt.alloc();
        row(&rt, 5, stamp, 2, State::Finalised, 10),
        Row {
            grown: Some(grown),
            ..row(&rt, 6, stamp, 2, State::Writing, 25)
        },
        row(&rt, 261, stamp, 1, State::Finalised, 20),
        row(&rt, 8197, stamp, 1, State::Finalised, 7),
        row(&rt, 65541, stamp, 2, State::Waiting, 99),
    ]?;
    let map = ReplicaMap::from_rows(rt.alloc(), rows.clone()?, Vec::new(rt.alloc()))?;
    expect_rows(&rt, &map, rows.as_slice());
    assert_eq!(rt; map.writing_count(), 1);
    assert_eq!(rt; [map.used(1), map.used(2), map.used(3)], [27, 55, 0]);
    assert_eq!(rt;
        [map.replicas(1), map.replicas(2), map.replicas(3)],
        [2, 1, 0]
    );
    expect_order(&rt, &map, 1, &[8197, 261]);
    expect_order(&rt, &map, 2, &[5]);
    Ok(())
}

/// A leftover of a block on volume 1.
fn leftover(id: BlockId, stamp: Stamp, file: BlockFile) -> Leftover {
    Leftover {
        id,
        stamp,
        vol: 1,
        file,
        len: 9,
        held: false,
    }
}

#[test]
fn leftovers_and_tickets_count(rt: HostRuntime) -> Result<(), Fail> {
    let (Some(a), Some(stamp)) = (BlockId::new(5), Stamp::new(1001)) else {
        return Ok(());
    };
    let mut map = ReplicaMap::make(rt.alloc());
    map.reserve(1, 2)?;
    map.list_leftover(leftover(a, stamp, BlockFile::WritingBlock));
    map.list_leftover(leftover(a, stamp, BlockFile::WritingMeta(stamp)));
    assert_eq!(rt; map.used(1), 9);
    assert_eq!(rt; map.first_leftover(a, Some(2)), None);
    assert_eq!(rt; map.first_leftover(a, None), Some(0));
    let ticket = Ticket {
        id: a,
        stamp,
        want: 1,
        rev: 2,
        from: 1,
        dest: 2,
        len: 4,
        block_no: 3,
        meta_no: 4,
    };
    if let None = map.ticket(a) {
        map.put_ticket(ticket)?;
    }
    assert_eq!(rt; map.used(2), 4);
    if map.leftover_count() > 0 {
        map.drop_leftover(0);
    }
    assert_eq!(rt; map.used(1), 0);
    if let Some(_) = map.ticket(a) {
        map.drop_ticket(a);
    }
    assert_eq!(rt; map.used(2), 0);
    Ok(())
}
