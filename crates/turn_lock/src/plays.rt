//! What each kind of atomic step tells its seat, and how seats are cut in two and put together.
ghost use Rattle.std.specs.Prelude.{List, []};

use crate::kept::Kept;
use crate::view::View;
use atomic_table::Play;
use std::marker::{Brand, PhantomData};

/// The entries that a step adds, for the proof alone. A call at `Brand` picks them.
pub(crate) trait Adds<E> {
    ghost added: { List E };
}

impl<E> Adds<E> for Brand {
    ghost added = { [] };
}

/// The first seat takes the slot of a lock that has no value yet.
pub(crate) struct Fill;

impl<T, E> Play<Option<T>, View<E>> for Fill {
    ghost use Rattle.turn_lock.specs.Steps.{Fills};

    ghost then = { λ step. Fills };
}

/// It gives the slot with the first value, and the history is the opening.
pub(crate) struct Open<A> {
    of: PhantomData<A>,
}

impl<T, E, A: Adds<E>> Play<Option<T>, View<E>> for Open<A> {
    ghost use Rattle.turn_lock.specs.Steps.{Opens};

    ghost then = { λ step. Opens A.added };
}

/// A seat draws a turn number.
pub(crate) struct Draw;

impl<T, E> Play<Option<T>, View<E>> for Draw {
    ghost use Rattle.turn_lock.specs.Steps.{Draws};

    ghost then = { λ step. Draws };
}

/// A seat looks at the number that is served, and takes the slot where that is the one it drew.
pub(crate) struct Look;

impl<T: Kept> Play<Option<T>, View<T::Entry>> for Look {
    ghost use Rattle.turn_lock.specs.Steps.{Looks};

    ghost then = { λ step. Looks T.stands_for T.seat_of };
}

/// A seat gives the slot and advances the number that is served.
pub(crate) struct Advance<A> {
    of: PhantomData<A>,
}

impl<T, E, A: Adds<E>> Play<Option<T>, View<E>> for Advance<A> {
    ghost use Rattle.turn_lock.specs.Steps.{Advances};

    ghost then = { λ step. Advances A.added };
}

/// The seat that stays looks after a join.
pub(crate) struct Hear;

impl<T, E> Play<Option<T>, View<E>> for Hear {
    ghost use Rattle.turn_lock.specs.Steps.{Hears};

    ghost then = { λ step. Hears };
}

/// A seat is split off another.
pub(crate) struct Split;

impl<E> atomic_table::Split<View<E>> for Split {
    ghost use Rattle.turn_lock.specs.Views.{with_one_less, split_off};

    ghost left = { with_one_less };

    ghost right = { split_off };
}

/// A seat is joined to another.
pub(crate) struct Join;

impl<E> atomic_table::Join<View<E>> for Join {
    ghost use Rattle.turn_lock.specs.Views.{just_joined, spent};

    ghost both = { just_joined };

    ghost spent = { spent };
}
