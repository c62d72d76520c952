//! The state of a pool: its disks and its books, and the calls that clients make on it.
#![tactic(auto)]

mod bookkeeping;
mod cleaning;
mod deleting;
mod finishing;
mod pool;
mod pool_record;
mod read_pair;
mod reading;
mod reporting;
mod start_fault;
mod start_write;
mod volume_room;

pub use deleting::DeleteFault;
pub use density::VolumeUse;
pub use pair_draft::{PushFault, SealFault, SealedPair, Writing};
pub use pool::{close_pool, make_pool};
pub use pool_record::Pool;
pub use read_pair::ReadPair;
pub use replica_map::{Entry, Leftover, ReplicaMap, Row, State};
pub use start_fault::StartFault;
pub use volume_room::MOST_LENGTH;

#[cfg(test)]
mod tests;
