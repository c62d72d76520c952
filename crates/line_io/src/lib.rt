//! Lines of a source within limits, and whole pieces to a sink.
#![tactic(auto)]

mod lines;
mod writing;

pub use lines::{LineReader, ReadFault};
pub use writing::write_all;

/// The most bytes of a line, without its line feed.
pub const LINE_LIMIT: usize = 1_048_576;

/// The most bytes of a whole input, line feeds included.
pub const INPUT_LIMIT: u64 = 4_294_967_296;

#[cfg(test)]
mod tests;
