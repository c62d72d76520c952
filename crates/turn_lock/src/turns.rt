//! The calls of a lock.
ghost use Rattle.std.specs.Prelude.{◌≡◌, ◌+◌, ◌<◌, ◌∷◌, ◌++◌, [], Some, None, IfOk, IfErr};
ghost use mathlib.Core.List.{IsPrefix};
ghost use Rattle.turn_lock.specs.declared.view.Stage.TheVariants.{Idle};
ghost use Rattle.turn_lock.specs.History.{AreOwn, Covers, AreApart};
ghost use Rattle.turn_lock.specs.Views.{own_lists, first_seat, with_one_less, split_off, with_joined, with_own, IsSameBut};
ghost use Rattle.turn_lock.specs.Steps.{SawAll};
ghost use Rattle.turn_lock.specs.Seats.{view, IsSeatOf, IsIdle, HoldsTurn, IsSeat};
ghost use Rattle.turn_lock.specs.Turns.{turn_value};

use crate::kept::Kept;
use crate::lock::{Memory, Seat, TurnLock};
use crate::plays::{Draw, Hear, Join, Split};
use crate::serving::{NEXT, SERVED, SLOT, advance, open, wait_for_turn};
use crate::turn::Turn;
use atomic_table::Table;
use std::alloc::Global;
use std::marker::Brand;
use std::sync::Wait;

impl<T: Kept> TurnLock<T> {
    /// A lock for so many seats, and the first of them, off which the others are split. Where there is no memory for its
    /// words and its slot the value comes back. No other call takes memory.
    pub fn make(alloc: Global, value: T, seats: u32) -> Result<(TurnLock<T>, Seat<T>), (Memory, T)>
        ghost opening: { T.Entry }
        requires seats { 0 < seats }
        requires value { T.stands_for value (opening ∷ []) }
        requires opening { T.seat_of opening ≡ None }
        ensures ok { IfOk result (λ r. IsSeatOf r.0 r.1 × IsSeat (first_seat seats Idle (opening ∷ [])) r.1) }
        ensures err { IfErr result (λ r. r.1 ≡ value) }
    {
        let made = Table::vacant(alloc, &[0, 0], 1, &u64::from(seats));
        let Ok((table, mut seat)) = made else {
            return Err((Memory, value));
        };
        open::<T, Brand>(&table.shared, &mut seat, value);
        Ok((TurnLock { table }, seat))
    }

    /// Waits for the seat's turn, and takes the value. Its history begins with all that the seat had seen.
    ///
    /// Turns are served in the order in which their numbers were drawn, each once the one before was given back. So a
    /// thread that holds a turn and takes another at the same lock, with another seat, waits for ever.
    pub fn take<R: Wait>(&self, rt: &R, seat: &mut Seat<T>) -> Turn<T>
        requires { IsSeatOf self.now seat.old × IsIdle seat.old }
        ensures seat { IsSeatOf self.now seat.new × HoldsTurn seat.new }
        ensures same { IsSameBut (view seat.new).stage (view seat.new).seen (view seat.old) (view seat.new) }
        ensures value { T.stands_for (turn_value result) (view seat.new).seen }
        ensures seen { SawAll T.seat_of (view seat.old) (view seat.new).seen }
    {
        let words = &self.table.shared;
        let mine = words.fetch_add::<Draw>(seat, NEXT, 1);
        wait_for_turn(rt, words, seat, mine);
        let Some(value) = words.exchange(seat, SLOT, None) else {
            unreachable!()
        };
        Turn { value }
    }

    /// Gives the value back, and wakes those that wait. It stands for the history with one more entry, of this seat.
    pub fn give(&self, seat: &mut Seat<T>, turn: Turn<T>)
        ghost entry: { T.Entry }
        requires seat { IsSeatOf self.now seat.old × HoldsTurn seat.old }
        requires value { T.stands_for (turn_value turn) ((view seat.old).seen ++ entry ∷ []) }
        requires entry { T.seat_of entry ≡ Some (view seat.old).number }
        ensures { IsSeatOf self.now seat.new × IsSeat (with_own (entry ∷ []) (view seat.old)) seat.new }
    {
        advance::<T, Brand>(&self.table.shared, seat, turn);
    }

    /// Splits a seat off, which has seen what this one has, and has no entry of its own.
    pub fn split(&self, seat: &mut Seat<T>) -> Seat<T>
        requires seat { IsSeatOf self.now seat.old × IsIdle seat.old }
        requires spare { 0 < (view seat.old).spare }
        ensures stays { IsSeatOf self.now seat.new × IsSeat (with_one_less (view seat.old)) seat.new }
        ensures new { IsSeatOf self.now result × IsSeat (split_off (view seat.old)) result }
    {
        self.table.shared.split_seat::<Split>(seat)
    }

    /// Puts two seats together. The one that stays has seen what either had, and keeps the own entries of both.
    pub fn join(&self, into: &mut Seat<T>, from: Seat<T>)
        requires into { IsSeatOf self.now into.old × IsIdle into.old }
        requires from { IsSeatOf self.now from × IsIdle from }
        ensures seat { IsSeatOf self.now into.new × IsSeat (with_joined (view into.old) (view from)) into.new }
        ensures seen { IsPrefix (view into.old).seen (view into.new).seen × IsPrefix (view from).seen (view into.new).seen }
        ensures apart { AreApart (own_lists (view into.new)) }
    {
        let words = &self.table.shared;
        words.join_seat::<Join>(into, from);
        words.load::<Hear>(into, SERVED);
    }

    /// Ends the lock and gives its value. The seat to which all others were joined has seen the whole history, and
    /// keeps each entry after the opening.
    pub fn close(self, seat: Seat<T>) -> T
        requires seat { IsSeatOf self seat × IsIdle seat }
        requires all { (view seat).spare + 1 ≡ (view seat).seats }
        ensures value { T.stands_for result (view seat).seen }
        ensures own { AreOwn T.seat_of (view seat).seen (own_lists (view seat)) }
        ensures apart { AreApart (own_lists (view seat)) }
        ensures all { Covers T.seat_of (own_lists (view seat)) (view seat).seen }
    {
        let TurnLock { table } = self;
        let mut closed = table.close_with(seat);
        let Some(value) = closed.take(SLOT) else {
            unreachable!()
        };
        closed.free();
        value
    }
}
