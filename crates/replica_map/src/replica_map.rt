//! The books of a pool.
ghost use Rattle.std.specs.Prelude.{◌≡◌, ℕ, ◌+◌, ◌<◌, ◌≤◌, ◌^◌, ◌∷◌, ◌++◌, [], length, slice_get, remove, position, sum_by, slice_index, None, Some, OnOk, OnErr, IsOk, IfOk, IsSome, IfSome, IsSomeAnd, MatchOption, option_map};
ghost use Rattle.replica_map.specs.Rising.{Rises};
ghost use Rattle.replica_map.specs.Counting.{writes, leftover_use};
ghost use Rattle.replica_map.specs.Kept.{leftover_excess};
ghost use Rattle.replica_map.specs.declared.entry.Entry.{Entry};
ghost use Rattle.volume_layout.specs.Paths.{IsBlockId};
ghost use Rattle.replica_map.specs.Leftovers.{is_leftover_of};
ghost use Rattle.replica_map.specs.declared.leftover.Leftover.{Leftover};
ghost use Rattle.replica_map.specs.Books.{row_at, entry_at, grown_at, ticket_at, leftovers_of, used, replicas, loose, writers, Keeps, Puts, ListsLeftover, KeepsOthers, DropsFirst, IsFirstOf, IsNext, HasNoLater, SameRows, SameLeftovers};
ghost use Rattle.replica_map.specs.Uses.{block_use, block_replicas, block_loose, IsSumOf, SumsAreUnique};

use crate::entry::{Entry, Grown};
use crate::leftover::Leftover;
use crate::row::{Row, place_key};
use crate::sorted::{Sorted, push_within};
use crate::tally::Tally;
use crate::ticket::Ticket;
use crate::use_table::UseTable;
use std::alloc::{AllocError, Global};
use std::marker::Model;
use volume_layout::{BlockId, Place};

/// The most entries, leftovers and tickets, so that no sum of lengths passes 128 bits.
const MOST: usize = 1 << 60;

/// How many numbers the places of a volume have: 8 bits for each directory, and 64 for the id.
const VOLUME_KEYS: u128 = 1 << 80;

/// The books of a pool: at most one entry a block, leftovers, and at most one move ticket a block; of each at most 2^60.
/// An entry is found by binary search over the ids, the next replica of a volume over the places.
#[derive(Drop)]
pub struct ReplicaMap {
    rows: Sorted<Row>,
    leftovers: Vec<Leftover>,
    tickets: Sorted<Ticket>,
    tally: Tally,
}

impl Model for ReplicaMap {
    ghost use Rattle.std.specs.Prelude.{◌-◌, ◌^◌, min, length, vec_capacity};
    ghost use Rattle.replica_map.specs.Books.{Books};
    ghost use Rattle.replica_map.specs.Kept.{Kept};

    ghost Value = { Books };

    ghost view = { λ m. record {
      rows = m.rows.items;
      leftovers = m.leftovers.items;
      tickets = m.tickets.items;
      entry_room = min (min m.rows.capacity m.tally.places.capacity) (2 ^ 60) - length m.rows.items;
      leftover_room = min (vec_capacity m.leftovers) (2 ^ 60) - length m.leftovers.items;
    } };

    ghost invariant = { λ m.
        Kept m.rows.items m.leftovers.items m.tickets.items m.tally.places.items m.tally.places.capacity m.tally.uses.sums m.tally.writing };
}

impl ReplicaMap {
    /// Empty books. It takes no memory.
    pub fn make(alloc: Global) -> ReplicaMap
        ensures { result ≡ record { rows = []; leftovers = []; tickets = []; entry_room = 0; leftover_room = 0 } }
    {
        ReplicaMap {
            rows: Sorted::make(alloc),
            leftovers: Vec::new(alloc),
            tickets: Sorted::make(alloc),
            tally: Tally::make(alloc),
        }
    }

    /// Books with these rows, whose ids rise, and these leftovers. Both vectors are kept as they are, and the places of the
    /// Finalised entries are sorted once. `AllocError` where the places have no memory, or there are more than 2^60 rows or
    /// leftovers.
    pub fn from_rows(
        alloc: Global,
        rows: Vec<Row>,
        leftovers: Vec<Leftover>,
    ) -> Result<ReplicaMap, AllocError>
        requires { Rises (λ row. row.entry.id) rows.items }
        ensures rows { IfOk result (λ map. map.rows ≡ rows.items) }
        ensures leftovers { IfOk result (λ map. map.leftovers ≡ leftovers.items) }
        ensures tickets { IfOk result (λ map. map.tickets ≡ []) }
    {
        if rows.len() > MOST || leftovers.len() > MOST {
            return Err(AllocError);
        }
        let mut tally = Tally::of_rows(alloc, &rows)?;
        count_leftovers(&mut tally.uses, &leftovers);
        Ok(ReplicaMap {
            rows: Sorted::from_rising(rows),
            leftovers,
            tickets: Sorted::make(alloc),
            tally,
        })
    }

    /// How many entries there are, of every state.
    pub fn entry_count(&self) -> usize
        ensures count { result ≡ length self.now.rows }
        ensures rises { Rises (λ row. row.entry.id) self.now.rows }
    {
        self.rows.len()
    }

    /// The entry at an index, in ascending id; none from `entry_count` on.
    pub fn entry_at(&self, i: usize) -> Option<Entry>
        ensures { result ≡ option_map (λ row. row.entry) (slice_get self.now.rows i) }
    {
        match self.rows.at(i) {
            None => None,
            Some(row) => Some(row.entry),
        }
    }

    /// The entry of a block, if it has one.
    pub fn find(&self, id: BlockId) -> Option<Entry>
        ensures value { result ≡ entry_at self.now id }
        ensures own { IfSome result (λ entry. entry.id ≡ id) }
        ensures valid { IsBlockId id }
    {
        match self.row(id) {
            None => None,
            Some(row) => Some(row.entry),
        }
    }

    /// What is kept beside the entry of a block; none where it has no entry, or nothing is kept.
    pub fn grown(&self, id: BlockId) -> Option<Grown>
        ensures { result ≡ grown_at self.now id }
    {
        match self.row(id) {
            None => None,
            Some(row) => row.grown,
        }
    }

    /// How many entries are Writing.
    pub fn writing_count(&self) -> usize
        ensures count { result ≡ writers self.now }
        ensures few { writers self.now ≤ 2 ^ 60 }
    {
        self.tally.writing
    }

    /// The counted use of a volume, in bytes: of the replicas on it their lengths, of the writers what they reserved and
    /// their bases, of the blocks in doubt what they counted before, of the leftovers the lengths of the block files, and of
    /// the tickets those that go there.
    pub fn used(&self, vol: u8) -> u128
        ensures { result ≡ used vol self.now }
    {
        self.tally.uses.get(vol)
    }

    /// What is counted on any volume is the sum of what the blocks count there.
    pub fn uses_are_sums(&self)
        ensures { (vol : ℕ) → IsSumOf (block_use vol self.now) (used vol self.now) }
    {
        let _rows_rise = self.rows.len();
        let _tickets_rise = self.tickets.len();
    }

    /// How many replicas a volume has is the sum of what the blocks have there, and how many leftovers aren't held that of
    /// those of the blocks.
    pub fn counts_are_sums(&self)
        ensures replicas { (vol : ℕ) → IsSumOf (block_replicas vol self.now) (replicas vol self.now) }
        ensures loose { IsSumOf (block_loose self.now) (loose self.now) }
    {
        let _rows_rise = self.rows.len();
    }

    /// Makes room for as many entries and leftovers beside those that are there. It takes no memory where there is room. After
    /// an `AllocError` nothing has changed but the room, which may have grown.
    pub fn reserve(&mut self, entries: usize, leftovers: usize) -> Result<(), AllocError>
        ensures rows { self.new.rows ≡ self.old.rows }
        ensures leftovers { self.new.leftovers ≡ self.old.leftovers }
        ensures tickets { self.new.tickets ≡ self.old.tickets }
        ensures entry_room { self.old.entry_room ≤ self.new.entry_room }
        ensures leftover_room { self.old.leftover_room ≤ self.new.leftover_room }
        ensures ok { OnOk result ((entries ≤ self.new.entry_room) × (leftovers ≤ self.new.leftover_room)) }
        ensures roomy { entries ≤ self.old.entry_room → leftovers ≤ self.old.leftover_room → IsOk result }
    {
        self.reserve_rows(entries)?;
        if leftovers > MOST - self.leftovers.len() {
            return Err(AllocError);
        }
        self.leftovers.reserve(leftovers)
    }

    /// Makes room for as many entries beside those that are there.
    fn reserve_rows(&mut self, more: usize) -> Result<(), AllocError>
        ensures rows { self.new.rows ≡ self.old.rows }
        ensures leftovers { SameLeftovers self.old self.new }
        ensures tickets { self.new.tickets ≡ self.old.tickets }
        ensures entry_room { self.old.entry_room ≤ self.new.entry_room }
        ensures ok { OnOk result (more ≤ self.new.entry_room) }
        ensures roomy { more ≤ self.old.entry_room → IsOk result }
    {
        let count = self.rows.len();
        if more > MOST - count {
            return Err(AllocError);
        }
        self.rows.reserve(more)?;
        self.tally
            .places
            .reserve(count + more - self.tally.places.len())
    }

    /// Adds an entry of a block that has none, beside which nothing is kept. With a spare place it takes no memory. After an
    /// `AllocError` nothing has changed but the room, which may have grown.
    pub fn insert(&mut self, entry: Entry) -> Result<(), AllocError>
        requires absent { entry_at self.old entry.id ≡ None }
        ensures entries { OnOk result (Puts entry_at entry.id (Some entry) self.old self.new) }
        ensures writing { OnOk result (writers self.new ≡ writers self.old + writes entry.state) }
        ensures grown { OnOk result (Puts grown_at entry.id None self.old self.new) }
        ensures err { OnErr result (self.new.rows ≡ self.old.rows) }
        ensures leftovers { SameLeftovers self.old self.new }
        ensures tickets { self.new.tickets ≡ self.old.tickets }
        ensures roomy { 0 < self.old.entry_room → IsOk result }
        ensures entry_room { self.old.entry_room ≤ self.new.entry_room + 1 }
    {
        self.reserve_rows(1)?;
        self.add_row(&Row { entry, grown: None });
        Ok(())
    }

    /// Replaces the entry of a block that has one, and keeps what stands beside it. It takes no memory.
    pub fn change(&mut self, entry: Entry)
        requires present { IsSome (entry_at self.old entry.id) }
        ensures entries { Puts entry_at entry.id (Some entry) self.old self.new }
        ensures grown { Keeps grown_at self.old self.new }
        ensures writing { (old : Entry) → entry_at self.old entry.id ≡ Some old →
            writers self.new + writes old.state ≡ writers self.old + writes entry.state }
        ensures leftovers { SameLeftovers self.old self.new }
        ensures tickets { self.new.tickets ≡ self.old.tickets }
        ensures entry_room { self.new.entry_room ≡ self.old.entry_room }
    {
        let Some(row) = self.row(entry.id) else {
            return;
        };
        let next = Row {
            entry,
            grown: row.grown,
        };
        self.swap_row(&row, &next);
    }

    /// Replaces what is kept beside the entry of a block that has one. It takes no memory.
    pub fn set_grown(&mut self, id: BlockId, grown: Option<Grown>)
        requires present { IsSome (entry_at self.old id) }
        ensures entries { Keeps entry_at self.old self.new }
        ensures grown { Puts grown_at id grown self.old self.new }
        ensures writing { writers self.new ≡ writers self.old }
        ensures leftovers { SameLeftovers self.old self.new }
        ensures tickets { self.new.tickets ≡ self.old.tickets }
        ensures entry_room { self.new.entry_room ≡ self.old.entry_room }
    {
        let Some(row) = self.row(id) else {
            return;
        };
        let next = Row {
            entry: row.entry,
            grown,
        };
        self.swap_row(&row, &next);
    }

    /// Takes the entry of a block that has one away. Its place is spare then.
    pub fn remove(&mut self, id: BlockId)
        requires present { IsSome (entry_at self.old id) }
        ensures entries { Puts entry_at id None self.old self.new }
        ensures grown { Puts grown_at id None self.old self.new }
        ensures writing { (old : Entry) → entry_at self.old id ≡ Some old →
            writers self.new + writes old.state ≡ writers self.old }
        ensures leftovers { SameLeftovers self.old self.new }
        ensures tickets { self.new.tickets ≡ self.old.tickets }
        ensures entry_room { self.new.entry_room ≡ self.old.entry_room + 1 }
    {
        let Some(row) = self.row(id) else {
            return;
        };
        self.drop_row(id, &row);
    }

    /// The first Finalised entry on a volume whose place comes after this one, in the order of directories and then ids.
    pub fn next_on(&self, vol: u8, after: Place) -> Option<Entry>
        ensures { MatchOption result (HasNoLater self.now vol after) (IsNext self.now vol after) }
    {
        let _rises = self.rows.len();
        match self.tally.places.first_from(place_key(vol, after) + 1) {
            None => None,
            Some(key) => {
                if key / VOLUME_KEYS != u128::from(vol) {
                    return None;
                }
                match self.rows.find(key % (1 << 64)) {
                    None => None,
                    Some(row) => Some(row.entry),
                }
            }
        }
    }

    /// How many Finalised entries are on a volume.
    pub fn replicas(&self, vol: u8) -> usize
        ensures { result ≡ replicas vol self.now }
    {
        let _rises = self.rows.len();
        let low = u128::from(vol) * VOLUME_KEYS;
        self.tally.places.count_between(low, low + VOLUME_KEYS)
    }

    /// How many leftovers aren't held.
    pub fn loose_count(&self) -> usize
        ensures { result ≡ loose self.now }
    {
        let mut count = 0;
        for leftover in &self.leftovers {
            if !leftover.held {
                count += 1;
            }
        }
        count
    }

    /// How many leftovers there are.
    pub fn leftover_count(&self) -> usize
        ensures { result ≡ length self.now.leftovers }
    {
        self.leftovers.len()
    }

    /// The leftover at an index, in listing order; none from `leftover_count` on.
    pub fn leftover_at(&self, i: usize) -> Option<Leftover>
        ensures { result ≡ slice_get self.now.leftovers i }
    {
        self.leftovers.get(i).copied()
    }

    /// The index of the first leftover of a block, on a volume where one is given; none where there is none.
    pub fn first_leftover(&self, id: BlockId, vol: Option<u8>) -> Option<usize>
        ensures value { result ≡ position (is_leftover_of id vol) self.now.leftovers }
        ensures own { IfSome result (λ i. IsSomeAnd (slice_get self.now.leftovers i) (λ leftover. leftover.id ≡ id)) }
        ensures first { vol ≡ None → IfSome result (λ i. IsFirstOf id i self.now) }
        ensures none { vol ≡ None → result ≡ None → leftovers_of self.now id ≡ [] }
    {
        position_of(self.leftovers.as_slice(), id, vol)
    }

    /// Lists a leftover at the end, in a spare place that `reserve` made. It takes no memory.
    pub fn list_leftover(&mut self, leftover: Leftover)
        requires room { 0 < self.old.leftover_room }
        ensures leftovers { self.new.leftovers ≡ self.old.leftovers ++ leftover ∷ [] }
        ensures by_block { ListsLeftover leftover self.old self.new }
        ensures leftover_room { self.old.leftover_room ≡ self.new.leftover_room + 1 }
        ensures rows { SameRows self.old self.new }
        ensures tickets { self.new.tickets ≡ self.old.tickets }
    {
        self.push_leftover(&leftover);
    }

    /// Takes the leftover at an index off the list, which closes up. Its place is spare then.
    pub fn drop_leftover(&mut self, i: usize)
        requires within { i < length self.old.leftovers }
        ensures leftovers { self.new.leftovers ≡ remove self.old.leftovers i }
        ensures others { (leftover : Leftover) → slice_get self.old.leftovers i ≡ Some leftover →
            KeepsOthers leftover self.old self.new }
        ensures first { (leftover : Leftover) → slice_get self.old.leftovers i ≡ Some leftover →
            DropsFirst i leftover self.old self.new }
        ensures leftover_room { self.new.leftover_room ≡ self.old.leftover_room + 1 }
        ensures rows { SameRows self.old self.new }
        ensures tickets { self.new.tickets ≡ self.old.tickets }
    {
        let leftover = self.leftovers.remove(i);
        let n = leftover.counted_len();
        let vol = leftover.vol;
        self.tally.uses.take(vol, n);
    }

    /// How many move tickets there are.
    pub fn ticket_count(&self) -> usize
        ensures count { result ≡ length self.now.tickets }
        ensures rises { Rises (λ ticket. ticket.id) self.now.tickets }
    {
        self.tickets.len()
    }

    /// The ticket at an index, in ascending id; none from `ticket_count` on.
    pub fn ticket_at(&self, i: usize) -> Option<Ticket>
        ensures { result ≡ slice_get self.now.tickets i }
    {
        self.tickets.at(i)
    }

    /// The ticket of a block, if it is being moved.
    pub fn ticket(&self, id: BlockId) -> Option<Ticket>
        ensures value { result ≡ ticket_at self.now id }
        ensures own { IfSome result (λ ticket. ticket.id ≡ id) }
    {
        self.tickets.find(u128::from(id.get()))
    }

    /// Adds a ticket of a block that has none. After an `AllocError` nothing has changed.
    pub fn put_ticket(&mut self, ticket: Ticket) -> Result<(), AllocError>
        requires absent { ticket_at self.old ticket.id ≡ None }
        ensures tickets { OnOk result (Puts ticket_at ticket.id (Some ticket) self.old self.new) }
        ensures err { OnErr result (self.new.tickets ≡ self.old.tickets) }
        ensures rows { SameRows self.old self.new }
        ensures leftovers { SameLeftovers self.old self.new }
    {
        if self.tickets.len() >= MOST {
            return Err(AllocError);
        }
        self.tickets.reserve(1)?;
        let n = u128::from(ticket.len);
        let vol = ticket.dest;
        self.tickets.insert(ticket);
        self.tally.uses.add(vol, n);
        Ok(())
    }

    /// Takes the ticket of a block that has one away. It takes no memory.
    pub fn drop_ticket(&mut self, id: BlockId)
        requires present { IsSome (ticket_at self.old id) }
        ensures tickets { Puts ticket_at id None self.old self.new }
        ensures rows { SameRows self.old self.new }
        ensures leftovers { SameLeftovers self.old self.new }
    {
        let key = u128::from(id.get());
        let Some(ticket) = self.tickets.find(key) else {
            return;
        };
        let n = u128::from(ticket.len);
        let vol = ticket.dest;
        self.tickets.remove(key);
        self.tally.uses.take(vol, n);
    }

    /// Adds a leftover at the end, where there is room.
    fn push_leftover(&mut self, leftover: &Leftover)
        requires room { 0 < self.old.leftover_room }
        ensures leftovers { self.new.leftovers ≡ self.old.leftovers ++ leftover.now ∷ [] }
        ensures leftover_room { self.old.leftover_room ≡ self.new.leftover_room + 1 }
        ensures rows { SameRows self.old self.new }
        ensures tickets { self.new.tickets ≡ self.old.tickets }
    {
        let n = leftover.counted_len();
        push_within(&mut self.leftovers, *leftover);
        self.tally.uses.add(leftover.vol, n);
    }

    /// The row of a block.
    fn row(&self, id: BlockId) -> Option<Row>
        ensures value { result ≡ row_at self.now id }
        ensures own { IfSome result (λ row. row.entry.id ≡ id) }
        ensures valid { IsBlockId id }
    {
        self.rows.find(u128::from(id.get()))
    }

    /// Adds a row of a block that has none, where there is room.
    fn add_row(&mut self, row: &Row)
        requires room { 0 < self.old.entry_room }
        requires absent { row_at self.old row.now.entry.id ≡ None }
        ensures rows { Puts row_at row.now.entry.id (Some row.now) self.old self.new }
        ensures writing { writers self.new ≡ writers self.old + writes row.now.entry.state }
        ensures leftovers { SameLeftovers self.old self.new }
        ensures tickets { self.new.tickets ≡ self.old.tickets }
        ensures entry_room { self.old.entry_room ≡ self.new.entry_room + 1 }
    {
        let _in_range = row.entry.id.get();
        let _fits = row.counted_len();
        self.tally.count(row);
        self.rows.insert(*row);
    }

    /// Puts a row in the place of that of the same block.
    fn swap_row(&mut self, row: &Row, next: &Row)
        requires there { row_at self.old next.now.entry.id ≡ Some row.now }
        ensures rows { Puts row_at next.now.entry.id (Some next.now) self.old self.new }
        ensures writing { writers self.new + writes row.now.entry.state ≡ writers self.old + writes next.now.entry.state }
        ensures leftovers { SameLeftovers self.old self.new }
        ensures tickets { self.new.tickets ≡ self.old.tickets }
        ensures entry_room { self.new.entry_room ≡ self.old.entry_room }
    {
        let _rises = self.rows.len();
        let _in_range = next.entry.id.get();
        let _fits = next.counted_len();
        self.tally.discount(row);
        self.tally.count(next);
        self.rows.replace(*next);
    }

    /// Takes a row away.
    fn drop_row(&mut self, id: BlockId, row: &Row)
        requires there { row_at self.old id ≡ Some row.now }
        ensures rows { Puts row_at id None self.old self.new }
        ensures writing { writers self.new + writes row.now.entry.state ≡ writers self.old }
        ensures leftovers { SameLeftovers self.old self.new }
        ensures tickets { self.new.tickets ≡ self.old.tickets }
        ensures entry_room { self.new.entry_room ≡ self.old.entry_room + 1 }
    {
        let _within = self.rows.len();
        let key = u128::from(id.get());
        self.tally.discount(row);
        self.rows.remove(key);
    }
}

/// A function of numbers has at most one sum.
pub fn sums_are_unique()
    ensures { SumsAreUnique }
{}

/// The index of the first leftover of a block, on a volume where one is given.
fn position_of(leftovers: &[Leftover], id: BlockId, vol: Option<u8>) -> Option<usize>
    ensures { result ≡ position (is_leftover_of id vol) leftovers.now }
{
    leftovers
        .iter()
        .position(|leftover| leftover.is_leftover_of(id, vol))
}

/// Counts leftovers.
fn count_leftovers(uses: &mut UseTable, leftovers: &[Leftover])
    requires few { length leftovers.now ≤ 2 ^ 60 }
    requires fits { (vol : ℕ) → slice_index uses.old.sums vol < 2 ^ 127 }
    ensures uses { (vol : ℕ) → slice_index uses.new.sums vol ≡
        slice_index uses.old.sums vol + sum_by (leftover_use vol) leftovers.now }
    ensures ranges { sum_by leftover_excess leftovers.now ≡ 0 }
{
    for leftover in leftovers {
        uses.add(leftover.vol, leftover.counted_len());
    }
}
