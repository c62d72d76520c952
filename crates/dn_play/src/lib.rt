//! The program `dnplay`: a script in, the replies out.
#![tactic(auto)]

mod answer;
mod lines;
mod playing;
mod pool_run;
mod words;

pub use playing::{Played, play};

#[cfg(test)]
mod crash_tests;
#[cfg(test)]
mod tests;
#[cfg(test)]
mod verdict_tests;
