//! One step of a plan.
use crate::text::Text;

/// A step of a plan: bytes to move from one volume of the node to another, as the Disk Balancer's move step has it.
#[derive(Drop)]
pub struct PlanStep {
    /// The UUID of the volume that gives.
    pub from: Text,
    /// The UUID of the volume that takes.
    pub to: Text,
    /// How many bytes are to move: 1 to 2^54.
    pub bytes: u64,
    /// At most so many MiB a second: 1 to 1,048,576.
    pub bandwidth: u32,
    /// How many percent of the bytes may be moved too few or too many: 1 to 100.
    pub tolerance: u8,
    /// After more errors than these the step ends: 1 to 2^32 - 1.
    pub max_errors: u32,
}
