//! The books of a pool: the entries by block, the leftovers, the move tickets, and what they count on each volume.
#![tactic(auto)]

mod entry;
mod keyed;
mod leftover;
mod replica_map;
mod row;
mod sorted;
mod tally;
mod ticket;
mod use_table;

pub use entry::{Base, Entry, Grown, State};
pub use keyed::Keyed;
pub use leftover::Leftover;
pub use replica_map::{ReplicaMap, sums_are_unique};
pub use row::Row;
pub use sorted::Sorted;
pub use ticket::Ticket;

#[cfg(test)]
mod tests;
