//! The lock and its seats.
ghost use Rattle.std.specs.Prelude.{◌≡◌};
ghost use Rattle.atomic_table.specs.Seated.{TableId};

use crate::kept::Kept;
use crate::rule::TurnRule;
use crate::view::View;
use atomic_table::{Shared, Table};
use std::alloc::Global;
use std::marker::Model;

/// There was no memory.
#[derive(Clone, Copy, Debug, PartialEq, Eq)]
pub struct Memory;

/// The words and the slot that threads share.
pub(crate) type Words<T> = Shared<Option<T>, View<<T as Kept>::Entry>, u64, TurnRule<T>>;

/// A lock over a value that stands for the history of all tenures. A contract sees of it the id of its table, which its
/// seats have too.
pub struct TurnLock<T: Kept> {
    pub(crate) table: Table<Option<T>, View<T::Entry>, u64, TurnRule<T>, Global>,
}

impl<T: Kept> Model for TurnLock<T> {
    ghost Value = { TableId };

    ghost view = { λ l. l.table.shared.table_id };

    ghost invariant = { λ l. (l.table.shared.table_id.words ≡ 2) × (l.table.shared.table_id.slots ≡ 1) };
}

/// A place at one lock, which takes turns. It has no bytes.
pub type Seat<T> = atomic_table::Seat<Option<T>, View<<T as Kept>::Entry>>;
