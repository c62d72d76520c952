//! Disks in memory that fail on demand and show what a crash leaves of them; a source, a sink and a clock in memory.
#![tactic(auto)]

mod clock;
mod disks;
mod drafts;
mod history;
mod images;
mod listing;
mod rules;
mod shelves;
mod standing;
mod store;
mod streams;

pub use clock::MemClock;
pub use disks::MemDisks;
pub use drafts::{MemDraft, MemReader, MemSealed};
pub use rules::{Call, FailRule};
pub use streams::{MemSink, MemSource};

#[cfg(test)]
mod tests;
