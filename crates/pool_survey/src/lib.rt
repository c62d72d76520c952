//! The survey of a pool's volumes: which files of blocks stand in their directories.
#![tactic(auto)]

mod found;
mod listing;
mod naming;
mod places;
mod surveying;
mod surveying_pool;

pub use found::FoundFiles;
pub use places::FoundOn;
pub use surveying::{Survey, survey_volume};
pub use surveying_pool::{PoolSurvey, survey_pool};

#[cfg(test)]
mod tests;
