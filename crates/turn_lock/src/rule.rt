//! The lock's rule.
use crate::kept::Kept;
use crate::view::View;
use atomic_table::TableRule;
use std::marker::PhantomData;

/// What holds between any two steps of a lock over `T`. Word 0 is the next turn number, word 1 the one that is served,
/// and slot 0 holds the value. The rule is told the number of seats.
pub(crate) struct TurnRule<T> {
    of: PhantomData<T>,
}

impl<T: Kept> TableRule<Option<T>, View<T::Entry>, u64> for TurnRule<T> {
    ghost use Rattle.turn_lock.specs.Rule.{Holds, unopened};

    ghost holds = { λ seats. Holds T.stands_for T.seat_of seats };

    ghost first = { unopened };
}
