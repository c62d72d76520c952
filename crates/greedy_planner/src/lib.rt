//! The greedy plan of the disk balancer: steps that bring the volumes of a node to its mean, after the planner of the HDFS
//! Disk Balancer.
#![tactic(auto)]

mod choosing;
mod planning;
mod turning;
mod volume;

pub use planning::plan;
pub use volume::{Side, Step, Totals, Turn, Volume};

#[cfg(test)]
mod tests;
