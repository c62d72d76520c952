//! The scan cursor of a volume: where its scan stands, saved as JSON so that the scan goes on from there after a restart.
#![tactic(auto)]

mod cursor;
mod fault;
mod members;
mod read;
mod write;

pub use cursor::Cursor;
pub use fault::{CursorFault, MemberName};
pub use read::read_cursor;
pub use write::write_cursor;

#[cfg(test)]
mod tests;
