//! The disks of a pool over real directories, and std's standard streams, as the outside of `disk_model`: the trusted
//! edge of the programs.
#![tactic(auto)]

mod directories;
mod durable;
mod kinds;
mod listed_sizes;
mod listing;
mod os_files;
mod standard_streams;
mod volume_locks;
mod ways;

pub use directories::OsDisks;
pub use os_files::{OsDraft, OsReader, OsSealed};
pub use standard_streams::{StandardSink, StandardSource};
pub use volume_locks::VolumeLocks;
