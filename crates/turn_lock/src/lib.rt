//! A ticket lock: its takers are served in the order of the numbers that they drew. Its value stands for the history of
//! all tenures, a list with one entry for each. It knows the value by this one relation alone.
//!
//! Only `TurnLock::take` may wait. Nothing is said of how long: not that a turn comes, nor that takers are treated
//! fairly, nor that no deadlock comes. `notes` is a small value under a lock, as an example to begin from.
#![tactic(auto)]

mod kept;
mod laws;
mod lock;
mod notes;
mod plays;
mod rule;
mod serving;
mod turn;
mod turns;
mod view;

pub use kept::Kept;
pub use laws::{
    advancing_keeps_the_rule, drawing_keeps_the_rule, filling_keeps_the_rule,
    hearing_keeps_the_rule, joining_keeps_the_rule, looking_keeps_the_rule, one_turn_at_a_time,
    opening_keeps_the_rule, own_entries_suffice, parts_are_apart, splitting_keeps_the_rule,
};
pub use lock::{Memory, Seat, TurnLock};
pub use notes::{NoteEntry, Notes, add_in_three, add_item};
pub use turn::Turn;
pub use view::{Stage, View};

#[cfg(test)]
mod tests;
