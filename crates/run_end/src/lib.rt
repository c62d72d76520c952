//! What a run ends with: why it ended, the last line of its output and its status.
#![tactic(auto)]

mod closing;
mod ending;

pub use closing::close;
pub use ending::Ending;
