//! The worked plan, ends, ties, and the greatest values.
use super::*;
use density::{Report, VolumeUse};
use std::alloc::Global;
use std::test::Fail;

fn row(capacity: u64, used: u64) -> VolumeUse {
    VolumeUse {
        capacity,
        used,
        replicas: 0,
    }
}

/// The plan over some rows with a threshold of 10 percent or another.
fn steps_over(alloc: Global, rows: &[VolumeUse], threshold: u8) -> Option<Vec<Step>> {
    if threshold > 100 {
        return None;
    }
    let Ok(report) = Report::make(alloc, rows) else {
        return None;
    };
    plan(alloc, &report, threshold).ok()
}

/// Whether the plan over some rows is this one.
fn is_plan(alloc: Global, rows: &[VolumeUse], threshold: u8, steps: &[Step]) -> bool {
    match steps_over(alloc, rows, threshold) {
        Some(made) => made.as_slice() == steps,
        None => false,
    }
}

fn step(from: usize, to: usize, bytes: u64) -> Step {
    Step { from, to, bytes }
}

#[test]
fn worked_plans(rt: HostRuntime) -> Result<(), Fail> {
    let alloc = rt.alloc();
    let worked = [row(200, 100), row(300, 76), row(350, 300), row(500, 475)];
    assert!(rt; is_plan(alloc, &worked, 10, &[step(3, 1, 123), step(2, 0, 40)]));
    // No volume is past the threshold, and one is by the least number of bytes.
    assert!(rt; is_plan(alloc, &[row(100, 40), row(100, 60)], 10, &[]));
    assert!(rt; is_plan(alloc, &[row(100, 39), row(100, 61)], 10, &[step(1, 0, 11)]));
    // One volume, and two that are as far apart as can be but too small to take a byte.
    assert!(rt; is_plan(alloc, &[row(100, 100)], 0, &[]));
    assert!(rt; is_plan(alloc, &[row(1, 0), row(1, 1)], 0, &[]));
    // Of equal volumes the lower ones come first.
    let equal = [row(10, 0), row(10, 10), row(10, 0), row(10, 10)];
    assert!(rt; is_plan(alloc, &equal, 10, &[step(1, 0, 5), step(3, 2, 5)]));
    Ok(())
}

/// 64 volumes of 2^54 bytes, every second one full: 32 steps of 2^53 bytes.
#[test]
fn greatest_values(rt: HostRuntime) -> Result<(), Fail> {
    let most = 1u64 << 54;
    let mut rows = [row(most, 0); 64];
    for (i, one) in rows.iter_mut().enumerate() {
        if i % 2 == 1 {
            one.used = most;
        }
    }
    let Some(steps) = steps_over(rt.alloc(), &rows, 10) else {
        assert!(rt; false);
        return Ok(());
    };
    assert_eq!(rt; steps.len(), 32);
    for (i, one) in steps.iter().enumerate() {
        if i < 32 {
            assert_eq!(rt; *one, step(2 * i + 1, 2 * i, most / 2));
        }
    }
    Ok(())
}
