//! The outside as traits, with the meaning of each call: disks with drafts and readers, sources, sinks and clocks.
#![tactic(auto)]

mod disks;
mod names;
mod streams;

pub use disks::{DiskError, Draft, Failed, PoolDisks, Reader, SealedDraft};
pub use names::Names;
pub use streams::{Clock, Sink, Source};
