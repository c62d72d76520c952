//! The steps on a lock's words, and its slot.
ghost use Rattle.std.specs.Prelude.{◌≡◌, ◌<◌, ◌^◌, ◌∷◌, ◌++◌, [], Some};
ghost use Rattle.turn_lock.specs.declared.view.Stage.TheVariants.{Idle, Drawn};
ghost use Rattle.turn_lock.specs.Views.{first_seat, with_own};
ghost use Rattle.turn_lock.specs.Rule.{unopened};
ghost use Rattle.turn_lock.specs.Steps.{ComesDue};
ghost use Rattle.turn_lock.specs.Seats.{view, IsTurnTable, IsSeatOf, HoldsTurn, IsSeat};
ghost use Rattle.turn_lock.specs.Turns.{turn_value};

use crate::kept::Kept;
use crate::lock::{Seat, Words};
use crate::plays::{Adds, Advance, Fill, Look, Open};
use crate::turn::Turn;
use std::sync::Wait;

/// The word that has the next turn number.
pub(crate) const NEXT: usize = 0;

/// The word that has the turn number that is served.
pub(crate) const SERVED: usize = 1;

/// The slot of the value.
pub(crate) const SLOT: usize = 0;

// Puts the first value into the slot. The history is then the opening.
pub(crate) fn open<T: Kept, A: Adds<T::Entry>>(words: &Words<T>, seat: &mut Seat<T>, value: T)
    requires table { IsTurnTable words.now.table_id }
    requires seat { IsSeatOf words.now.table_id seat.old × IsSeat (unopened words.now.key) seat.old }
    requires seats { (0 < words.now.key) × (words.now.key < 2 ^ 32) }
    requires opening { (opening : T.Entry) × (A.added ≡ opening ∷ []) × T.stands_for value (opening ∷ []) × (T.seat_of opening ≡ None) }
    ensures { IsSeatOf words.now.table_id seat.new × IsSeat (first_seat words.now.key Idle A.added) seat.new }
{
    words.load::<Fill>(seat, SERVED);
    match words.exchange(seat, SLOT, Some(value)) {
        None => {}
        Some(_) => unreachable!(),
    }
    words.load::<Open<A>>(seat, SERVED);
}

// Waits until this turn number is served. The seat then holds the slot.
pub(crate) fn wait_for_turn<T: Kept, R: Wait>(
    rt: &R,
    words: &Words<T>,
    seat: &mut Seat<T>,
    mine: u64,
)
    requires table { IsTurnTable words.now.table_id }
    requires seat { IsSeatOf words.now.table_id seat.old }
    requires drawn { (view seat.old).stage ≡ Drawn mine }
    requires slot { seat.old.me.1 ≡ [] }
    ensures seat { IsSeatOf words.now.table_id seat.new }
    ensures due { ComesDue T.stands_for T.seat_of mine (view seat.old) seat.new.me }
{
    for _ in rt.forever() {
        let served = words.load::<Look>(seat, SERVED);
        if served == mine {
            return;
        }
        words.park(rt, SERVED, (served & 0xffff_ffff) as u32);
    }
    unreachable!()
}

// Puts the value back into the slot, serves the next turn number, and wakes those that wait for theirs.
pub(crate) fn advance<T: Kept, A: Adds<T::Entry>>(
    words: &Words<T>,
    seat: &mut Seat<T>,
    turn: Turn<T>,
)
    requires table { IsTurnTable words.now.table_id }
    requires seat { IsSeatOf words.now.table_id seat.old × HoldsTurn seat.old }
    requires entry { (entry : T.Entry) × (A.added ≡ entry ∷ []) × T.stands_for (turn_value turn) ((view seat.old).seen ++ entry ∷ []) × (T.seat_of entry ≡ Some (view seat.old).number) }
    ensures { IsSeatOf words.now.table_id seat.new × IsSeat (with_own A.added (view seat.old)) seat.new }
{
    let Turn { value } = turn;
    match words.exchange(seat, SLOT, Some(value)) {
        None => {}
        Some(_) => unreachable!(),
    }
    words.fetch_add::<Advance<A>>(seat, SERVED, 1);
    words.wake_all(SERVED);
}
