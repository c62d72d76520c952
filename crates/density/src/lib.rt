//! How full the volumes of a node are: a report of their capacities and used bytes, and how far each is from the node's
//! mean, in exact fractions. The rules are those of the HDFS Disk Balancer, whose measure is the volume data density.
#![tactic(auto)]

mod measures;
mod report;
mod report_fault;
mod volume_use;

pub use measures::{is_past, past_threshold, target, target_bytes};
pub use report::Report;
pub use report_fault::ReportFault;
pub use volume_use::VolumeUse;

/// The most rows of a report.
pub const MOST_ROWS: usize = 64;

/// The most bytes of a volume's capacity, and of its used bytes.
pub const MOST_BYTES: u64 = 1 << 54;

#[cfg(test)]
mod tests;
