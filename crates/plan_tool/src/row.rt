//! A row of the input.
use plan_json::Text;

/// A volume, as a line `UUID CAPACITY USED` of the input says it.
#[derive(Drop)]
pub struct Row {
    /// 1 to 64 ASCII letters, digits and `-`.
    pub uuid: Text,
    /// The bytes that the volume may hold: 1 to 2^54.
    pub capacity: u64,
    /// The bytes that it holds: 0 to 2^54.
    pub used: u64,
}
