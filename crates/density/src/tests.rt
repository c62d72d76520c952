//! The worked report, the refusals, and the greatest values.
use super::*;
use std::alloc::Global;
use std::test::Fail;

fn row(capacity: u64, used: u64) -> VolumeUse {
    VolumeUse {
        capacity,
        used,
        replicas: 0,
    }
}

/// Rows, their targets and whether they are past 10 percent and 25 percent. The first four are the worked example of the
/// HDFS Disk Balancer, whose densities are 0.20, 0.45, -0.15 and -0.24.
#[test]
fn worked_report(rt: HostRuntime) -> Result<(), Fail> {
    let rows = [row(200, 100), row(300, 76), row(350, 300), row(500, 475)];
    let expected = [
        (140, true, false),
        (211, true, true),
        (246, true, false),
        (352, true, false),
    ];
    let Ok(report) = Report::make(rt.alloc(), &rows) else {
        assert!(rt; false);
        return Ok(());
    };
    assert_eq!(rt; report.len(), 4);
    assert_eq!(rt; report.rows().len(), 4);
    assert_eq!(rt; report.total_capacity(), 1350);
    assert_eq!(rt; report.total_used(), 951);
    if report.len() == 4 {
        for (i, (bytes, past_10, past_25)) in expected.iter().enumerate() {
            assert_eq!(rt; report.row(i), rows[i]);
            assert_eq!(rt; target(&report, i), *bytes);
            assert_eq!(rt; past_threshold(&report, i, 10), *past_10);
            assert_eq!(rt; past_threshold(&report, i, 25), *past_25);
        }
    }
    Ok(())
}

/// What a list of rows is refused for.
fn refusal(alloc: Global, rows: &[VolumeUse]) -> Option<ReportFault> {
    match Report::make(alloc, rows) {
        Ok(_) => None,
        Err(fault) => Some(fault),
    }
}

#[test]
fn refusals(rt: HostRuntime) -> Result<(), Fail> {
    let most = 1u64 << 54;
    let alloc = rt.alloc();
    assert_eq!(rt; refusal(alloc, &[]), Some(ReportFault::Empty));
    assert_eq!(rt;
        refusal(alloc, &[row(0, 0); 65]),
        Some(ReportFault::Many { n: 65 })
    );
    assert_eq!(rt; refusal(alloc, &[row(1, 0); 64]), None);
    assert_eq!(rt;
        refusal(alloc, &[row(most + 1, 0)]),
        Some(ReportFault::Range { row: 0 })
    );
    assert_eq!(rt;
        refusal(alloc, &[row(1, 5), row(0, 0), row(1, most + 1)]),
        Some(ReportFault::Range { row: 1 })
    );
    assert_eq!(rt;
        refusal(alloc, &[row(1, most + 1)]),
        Some(ReportFault::Range { row: 0 })
    );
    assert_eq!(rt; refusal(alloc, &[row(1, most), row(most, most)]), None);
    Ok(())
}

/// 64 volumes of 2^54 bytes, every second one full, and a density that is exactly the threshold.
#[test]
fn greatest_values(rt: HostRuntime) -> Result<(), Fail> {
    let most = 1u64 << 54;
    let mut rows = [row(most, 0); 64];
    for (i, one) in rows.iter_mut().enumerate() {
        if i % 2 == 1 {
            one.used = most;
        }
    }
    let Ok(report) = Report::make(rt.alloc(), &rows) else {
        assert!(rt; false);
        return Ok(());
    };
    assert_eq!(rt; report.total_used(), 1 << 59);
    if report.len() == 64 {
        assert_eq!(rt; target(&report, 0), 1 << 53);
        assert_eq!(rt; past_threshold(&report, 0, 50), false);
        assert_eq!(rt; past_threshold(&report, 0, 49), true);
        assert_eq!(rt; past_threshold(&report, 63, 50), false);
        assert_eq!(rt; past_threshold(&report, 63, 49), true);
    }
    assert_eq!(rt; is_past(200, 100, 100, 60, 10), false);
    assert_eq!(rt; is_past(200, 100, 100, 61, 10), true);
    assert_eq!(rt; target_bytes(3, 2, 1), 0);
    Ok(())
}
