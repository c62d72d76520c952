//! Stamps and copies, and which of them is picked.
use super::*;
use std::test::Fail;
use volume_layout::Stamp;

/// The number of the stamp that is picked of three distinct ones, or 0.
#[tactic(auto, using(crate::proofs::Distinct::three_distinct))]
fn meta_of(numbers: [u64; 3], gate: bool) -> u64 {
    let [a, b, c] = numbers;
    let (Some(a), Some(b), Some(c)) = (Stamp::new(a), Stamp::new(b), Stamp::new(c)) else {
        return 0;
    };
    if a == b || a == c || b == c {
        return 0;
    }
    match pick_meta(&[a, b, c], gate) {
        Some(stamp) => stamp.get(),
        None => 0,
    }
}

/// A copy of this volume, stamp and length.
fn copy(vol: u8, stamp: u64, len: u64) -> Option<CopyRow> {
    let stamp = Stamp::new(stamp)?;
    Some(CopyRow { vol, stamp, len })
}

/// The index of the copy that is picked of three, of which each is a volume, a stamp and a length.
fn copy_of(rows: [(u8, u64, u64); 3], held: Option<u8>) -> Option<usize> {
    let [a, b, c] = rows;
    let a = copy(a.0, a.1, a.2)?;
    let b = copy(b.0, b.1, b.2)?;
    let c = copy(c.0, c.1, c.2)?;
    pick_copy(&[a, b, c], held)
}

#[test]
fn the_greatest_meta_counts_unless_gated(rt: HostRuntime) -> Result<(), Fail> {
    for (numbers, gate, want) in [
        ([1001, 1003, 1002], false, 1003),
        ([1001, 1003, 1002], true, 1002),
        ([1003, 1002, 1001], true, 1002),
        ([1001, 1002, 9_223_372_036_854_775_807], true, 1002),
    ] {
        assert_eq!(rt; meta_of(numbers, gate), want);
    }
    assert_eq!(rt; pick_meta(&[], true), None);
    Ok(())
}

#[test]
fn one_copy_is_kept(rt: HostRuntime) -> Result<(), Fail> {
    for (rows, held, want) in [
        ([(1, 1001, 9), (2, 1002, 1), (3, 1001, 9)], None, 1),
        ([(1, 1001, 3), (2, 1001, 2), (3, 1001, 4)], Some(1), 2),
        ([(3, 1001, 3), (1, 1001, 3), (2, 1001, 3)], None, 1),
        ([(3, 1001, 3), (1, 1001, 3), (2, 1001, 3)], Some(2), 2),
        ([(3, 1001, 3), (1, 1001, 3), (2, 1001, 3)], Some(64), 1),
    ] {
        assert_eq!(rt; copy_of(rows, held), Some(want));
    }
    assert_eq!(rt; pick_copy(&[], Some(1)), None);
    Ok(())
}
