//! The opening of a pool that holds stored replicas.
#![tactic(auto)]

mod books;
mod clearing;
mod metas;
mod opening;
mod outcome;
mod paths;
mod preparing;

pub use opening::{OpenFault, ReopenFault, open_pool, reopen_pool};

#[cfg(test)]
mod tests;
