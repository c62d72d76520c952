//! One volume of a report.

/// A volume of a node.
#[derive(Clone, Copy, Debug, PartialEq, Eq)]
pub struct VolumeUse {
    /// The bytes that it may hold, without what is reserved for others: 1 to 2^54 in a report.
    pub capacity: u64,
    /// The bytes that it holds: 0 to 2^54 in a report, also more than its capacity.
    pub used: u64,
    /// How many replicas it holds.
    pub replicas: u64,
}
