//! Notes under a turn lock: a small value that a lock can keep, its one tenure, and three threads that make many of it.
//! It shows how a caller proves what its threads did together.
ghost use Rattle.std.specs.Prelude.{◌≡◌, ◌∷◌, ◌++◌, [], MatchBool, IfOk};
ghost use Rattle.std.specs.Thread.{IsSync};
ghost use Rattle.turn_lock.specs.Views.{with_own};
ghost use Rattle.turn_lock.specs.Seats.{view, IsSeatOf, IsSeat, IsIdle, HoldsTurn};
ghost use Rattle.turn_lock.specs.Turns.{turn_value};
ghost use Rattle.turn_lock.specs.Notes.{call_of, kept_items, Added, Worked, IsMerge};

use crate::kept::Kept;
use crate::lock::{Memory, Seat, TurnLock};
use crate::turn::Turn;
use std::alloc::Global;
use std::sync::Wait;
use std::thread::{Threads, join};

/// What one tenure did. No value of it is made.
pub enum NoteEntry {
    /// There are no notes yet.
    Opening,
    /// The seat of this number added the item, and was told whether there was memory for it.
    Call(u64, u32, bool),
}

/// A list of numbers.
#[derive(Drop)]
pub struct Notes {
    pub items: Vec<u32>,
}

impl Notes {
    /// Puts an item behind the others, and says whether there was memory for it.
    pub fn add(&mut self, item: u32) -> bool
        ensures { MatchBool result (self.new.items.items ≡ self.old.items.items ++ item ∷ []) (self.new.items.items ≡ self.old.items.items) }
    {
        self.items.push(item).is_ok()
    }
}

impl Kept for Notes {
    ghost use Rattle.std.specs.Prelude.{◌≡◌};
    ghost use Rattle.turn_lock.specs.Notes.{note_seat, kept_items};

    type Entry = NoteEntry;

    ghost seat_of = { note_seat };

    ghost stands_for = { λ notes log. notes.items.items ≡ kept_items log };
}

// Gives the notes back with the entry of this call. The item and the answer are there to name it.
fn put_back(
    lock: &TurnLock<Notes>,
    seat: &mut Seat<Notes>,
    turn: Turn<Notes>,
    item: u32,
    kept: bool,
)
    ghost entry: { NoteEntry }
    requires seat { IsSeatOf lock.now seat.old × HoldsTurn seat.old }
    requires entry { entry ≡ call_of (view seat.old).number item kept }
    requires value { (turn_value turn).items.items ≡ kept_items ((view seat.old).seen ++ entry ∷ []) }
    ensures { IsSeatOf lock.now seat.new × IsSeat (with_own (entry ∷ []) (view seat.old)) seat.new }
{
    lock.give(seat, turn);
}

/// Adds an item in one tenure, and says whether there was memory for it.
pub fn add_item<R: Wait>(rt: &R, lock: &TurnLock<Notes>, seat: &mut Seat<Notes>, item: u32) -> bool
    requires { IsSeatOf lock.now seat.old × IsIdle seat.old }
    ensures seat { IsSeatOf lock.now seat.new × IsIdle seat.new }
    ensures own { Added (call_of (view seat.old).number item result) (view seat.old) (view seat.new) }
{
    let mut turn = lock.take(rt, seat);
    let kept = turn.value().add(item);
    put_back(lock, seat, turn, item, kept);
    kept
}

// Adds all items in order, each in a tenure of its own.
fn add_items<R: Wait>(
    rt: &R,
    lock: &TurnLock<Notes>,
    mut seat: Seat<Notes>,
    items: &[u32],
) -> Seat<Notes>
    requires { IsSeatOf lock.now seat × IsIdle seat }
    ensures seat { IsSeatOf lock.now result × IsIdle result }
    ensures own { Worked items.now (view seat) (view result) }
{
    for item in items {
        add_item(rt, lock, &mut seat, *item);
    }
    seat
}

// Two threads add their items.
fn add_in_two<R: Threads + Wait + Sync>(
    rt: &R,
    lock: &TurnLock<Notes>,
    one: Seat<Notes>,
    other: Seat<Notes>,
    first: &[u32],
    second: &[u32],
) -> (Seat<Notes>, Seat<Notes>)
    requires one { IsSeatOf lock.now one × IsIdle one }
    requires other { IsSeatOf lock.now other × IsIdle other }
    ensures one { IsSeatOf lock.now result.0 × IsIdle result.0 × Worked first.now (view one) (view result.0) }
    ensures other { IsSeatOf lock.now result.1 × IsIdle result.1 × Worked second.now (view other) (view result.1) }
{
    join(
        rt,
        move || -> Seat<Notes>
            requires { IsSeatOf lock.now one × IsIdle one }
            ensures { IsSeatOf lock.entry.now result × IsIdle result × Worked first.entry.now (view one) (view result) }
        { add_items(rt, lock, one, first) },
        move || -> Seat<Notes>
            requires { IsSeatOf lock.now other × IsIdle other }
            ensures { IsSeatOf lock.entry.now result × IsIdle result × Worked second.entry.now (view other) (view result) }
        { add_items(rt, lock, other, second) },
    )
}

/// Three threads add their items under one lock. The answer is the items for which there was memory, in the order of one
/// history that has the calls of all three.
pub fn add_in_three<R: Threads + Wait + Sync>(
    rt: &R,
    alloc: Global,
    first: &[u32],
    second: &[u32],
    third: &[u32],
) -> Result<Vec<u32>, Memory>
    ensures { IfOk result (λ v. IsMerge first.now second.now third.now v.items) }
{
    let notes = Notes {
        items: Vec::new(alloc),
    };
    let (lock, mut one) = match TurnLock::make(alloc, notes, 3) {
        Ok(made) => made,
        Err((memory, _)) => return Err(memory),
    };
    let two = lock.split(&mut one);
    let three = lock.split(&mut one);
    let shared = &lock;
    let (mut one, (two, three)) = join(
        rt,
        move || -> Seat<Notes>
            requires { IsSeatOf shared.now one × IsIdle one }
            ensures { IsSeatOf shared.entry.now result × IsIdle result × Worked first.entry.now (view one) (view result) }
        { add_items(rt, shared, one, first) },
        move || -> (Seat<Notes>, Seat<Notes>)
            requires { IsSync R.row × IsSeatOf shared.now two × IsIdle two × IsSeatOf shared.now three × IsIdle three }
            ensures { (IsSeatOf shared.entry.now result.0 × IsIdle result.0 × Worked second.entry.now (view two) (view result.0)) × (IsSeatOf shared.entry.now result.1 × IsIdle result.1 × Worked third.entry.now (view three) (view result.1)) }
        { add_in_two(rt, shared, two, three, second, third) },
    );
    lock.join(&mut one, two);
    lock.join(&mut one, three);
    let Notes { items } = lock.close(one);
    Ok(items)
}
