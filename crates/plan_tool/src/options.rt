//! What the words of the command line say.
use plan_json::Text;

/// What the words of the command line say.
#[derive(Drop)]
pub struct Options {
    /// The node's name: 1 to 64 ASCII letters, digits and `-`.
    pub node: Text,
    /// The moment of the plan, in milliseconds since 1970.
    pub time_ms: u64,
    /// The threshold, in percent: 0 to 100.
    pub threshold: u8,
    /// The bandwidth of a step, in MiB per second: 1 to 1,048,576.
    pub bandwidth: u32,
    /// The tolerance of a step, in percent: 1 to 100.
    pub tolerance: u8,
    /// How many errors a step may have: 1 to 2^32 - 1.
    pub max_errors: u32,
}
