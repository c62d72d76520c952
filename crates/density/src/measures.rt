//! What a report says of a volume.
ghost use Rattle.std.specs.Prelude.{◌≡◌, ◌≤◌, ◌<◌, ◌^◌, ◌*◌, Some, length, slice_get, option_map};
ghost use Rattle.density.specs.Density.{is_past, target_of};
ghost use Rattle.density.specs.Reports.{total_capacity, total_used};

use crate::report::Report;

/// Whether a volume of `capacity` bytes, of which `used` are used, is past the threshold in a node that holds
/// `total_used` bytes of `total_capacity`.
pub fn is_past(
    total_capacity: u64,
    total_used: u64,
    capacity: u64,
    used: u64,
    threshold: u8,
) -> bool
    requires total_capacity { total_capacity ≤ 2 ^ 60 }
    requires total_used { total_used ≤ 2 ^ 60 }
    requires capacity { capacity ≤ 2 ^ 54 }
    requires used { used ≤ 2 ^ 60 }
    requires threshold { threshold ≤ 100 }
    ensures { result ≡ is_past total_capacity total_used capacity used threshold }
{
    let mean = u128::from(total_used) * u128::from(capacity);
    let own = u128::from(used) * u128::from(total_capacity);
    mean.abs_diff(own) * 100
        > u128::from(threshold) * u128::from(total_capacity) * u128::from(capacity)
}

/// The bytes that a volume holds at the node's mean, rounded down.
pub fn target_bytes(total_capacity: u64, total_used: u64, capacity: u64) -> u64
    requires some { 0 < capacity }
    requires within { capacity ≤ total_capacity }
    ensures { result ≡ target_of total_capacity total_used capacity }
{
    (u128::from(total_used) * u128::from(capacity) / u128::from(total_capacity)) as u64
}

/// Whether a volume's density is further from 0 than `threshold` hundredths.
pub fn past_threshold(report: &Report, i: usize, threshold: u8) -> bool
    requires row { i < length report.now }
    requires threshold { threshold ≤ 100 }
    ensures { option_map (λ row. is_past (total_capacity report.now) (total_used report.now) row.capacity row.used threshold)
        (slice_get report.now i) ≡ Some result }
{
    let row = report.row(i);
    is_past(
        report.total_capacity(),
        report.total_used(),
        row.capacity,
        row.used,
        threshold,
    )
}

/// The bytes that a volume holds at the node's mean, rounded down.
pub fn target(report: &Report, i: usize) -> u64
    requires { i < length report.now }
    ensures { option_map (λ row. target_of (total_capacity report.now) (total_used report.now) row.capacity)
        (slice_get report.now i) ≡ Some result }
{
    let row = report.row(i);
    target_bytes(report.total_capacity(), report.total_used(), row.capacity)
}
