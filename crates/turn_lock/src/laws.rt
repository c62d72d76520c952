// What holds of every lock. A step that meets its law keeps the rule, whatever the other seats do.
ghost use Rattle.turn_lock.specs.Laws.{FillingKeeps, OpeningKeeps, DrawingKeeps, LookingKeeps, AdvancingKeeps, SplittingKeeps, JoiningKeeps, HearingKeeps, OneTurnAtATime, PartsAreApart, OwnEntriesSuffice};

use crate::kept::Kept;

/// The first seat's taking of the slot of a lock without a value keeps the rule.
pub fn filling_keeps_the_rule<T: Kept>()
    ensures { FillingKeeps T.stands_for T.seat_of }
{}

/// The giving of the slot with the first value keeps the rule.
pub fn opening_keeps_the_rule<T: Kept>()
    ensures { OpeningKeeps T.stands_for T.seat_of }
{}

/// The drawing of a turn number keeps the rule.
pub fn drawing_keeps_the_rule<T: Kept>()
    ensures { DrawingKeeps T.stands_for T.seat_of }
{}

/// The look at the number that is served, and the taking of the slot in the same step, keep the rule.
pub fn looking_keeps_the_rule<T: Kept>()
    ensures { LookingKeeps T.stands_for T.seat_of }
{}

/// The giving of the slot, and the advance of the number that is served in the same step, keep the rule.
pub fn advancing_keeps_the_rule<T: Kept>()
    ensures { AdvancingKeeps T.stands_for T.seat_of }
{}

/// The splitting of a seat keeps the rule.
pub fn splitting_keeps_the_rule<T: Kept>()
    ensures { SplittingKeeps T.stands_for T.seat_of }
{}

/// The joining of two seats keeps the rule.
pub fn joining_keeps_the_rule<T: Kept>()
    ensures { JoiningKeeps T.stands_for T.seat_of }
{}

/// The look after a join keeps the rule.
pub fn hearing_keeps_the_rule<T: Kept>()
    ensures { HearingKeeps T.stands_for T.seat_of }
{}

/// At most one seat has its turn.
pub fn one_turn_at_a_time<T: Kept>()
    ensures { OneTurnAtATime T.stands_for T.seat_of }
{}

/// Seats that come of the two parts of a split seat have different numbers.
pub fn parts_are_apart<T: Kept>()
    ensures { PartsAreApart T.Entry }
{}

/// Where all other entries of a history are quiet, a seat's own entries say what the history made of a state `S`.
pub fn own_entries_suffice<T: Kept, S>()
    ensures { OwnEntriesSuffice S T.seat_of }
{}
