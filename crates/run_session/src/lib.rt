//! A session: a pool and the writers that a script has open, with a method for each command.
#![tactic(auto)]

mod carrying_out;
mod deleting;
mod dropping;
mod finishing;
mod open_writers;
mod pushing;
mod reading;
mod refusals;
mod reopening;
mod reporting;
mod session;
mod starting;
mod writers;
mod writing;

pub use open_writers::OpenWriters;
pub use session::Session;
