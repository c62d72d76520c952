//! What a seat knows of its lock. Values of these types exist in proofs alone.
use std::collections::LinkedList;

/// Where a seat stands.
pub enum Stage {
    /// The first seat of a lock that has no value yet.
    Empty,
    /// The same, while it holds the slot.
    Filling,
    /// It has no turn number.
    Idle,
    /// It has drawn this turn number.
    Drawn(u64),
    /// Its turn number is served, and it holds the slot.
    Due(u64),
    /// It was joined to another seat.
    Spent,
}

/// What a seat knows.
pub struct View<E> {
    /// The seat's number, which its entries name.
    pub number: u64,
    /// The seats that are split off it get numbers out of `number + stride`, `number + 2 * stride` and so on.
    pub stride: u64,
    /// How many seats may still be split off it.
    pub spare: u64,
    /// The number of seats that the lock was made for.
    pub seats: u64,
    /// Where it stands.
    pub stage: Stage,
    /// The beginning of the history that it has seen.
    pub seen: LinkedList<E>,
    /// Its own entries.
    pub own: LinkedList<E>,
    /// The numbers and own entries of the seats that were joined to it.
    pub joined: LinkedList<(u64, LinkedList<E>)>,
    /// What the two seats of a join had seen, until the one that stays has looked.
    pub heard: LinkedList<LinkedList<E>>,
}
