//! A plan.
use crate::steps::Steps;
use crate::text::Text;

/// A plan for the disks of one node.
#[derive(Drop)]
pub struct Plan {
    /// The UUID of the node.
    pub node: Text,
    /// When the plan was made, in milliseconds since 1970.
    pub time_ms: u64,
    /// At most 1,024 steps.
    pub steps: Steps,
}
