//! A block and its meta file: verified as they are read, and written as two drafts.
#![tactic(auto)]

mod base;
mod checker;
mod files;
mod verification;
mod writer;
mod writing;

pub use base::{BaseFault, Basing};
pub use verification::verify;
pub use writer::{SealedPair, Sums, Writing};
pub use writing::{PushFault, SealFault, reserve_sums};

#[cfg(test)]
mod fakes;
#[cfg(test)]
mod tests;
