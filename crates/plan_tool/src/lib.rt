//! What the planner of the disk balancer is given: the words of its command line, and the rows of its input.
#![tactic(auto)]

mod command;
mod input;
mod making;
mod options;
mod planning;
mod reading;
mod row;

pub use command::read_options;
pub use input::read_rows;
pub use options::Options;
pub use planning::plan_main;
pub use row::Row;

#[cfg(test)]
mod tests;
