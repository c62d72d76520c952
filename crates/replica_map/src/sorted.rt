// A vector whose keys rise.
ghost use Rattle.std.specs.Prelude.{◌≡◌, ℕ, ◌+◌, ◌<◌, ◌≤◌, ◌==◌, [], ◌∷◌, ◌++◌, length, vec_len, vec_capacity, slice_get, insert, find, sum_by, Option, Some, None, IsSome, IsOk, OnOk};
ghost use Rattle.replica_map.specs.Rising.{Rises, IsPlace, IsFirstFrom, PutsItem, has_key, count_between};

use crate::keyed::Keyed;
use std::alloc::{AllocError, Global};
use std::marker::Model;

/// A vector whose keys rise, looked up by binary search.
#[derive(Drop)]
pub struct Sorted<T: Keyed> {
    items: Vec<T>,
}

impl<T: Keyed> Model for Sorted<T> {
    ghost use Rattle.std.specs.Prelude.{vec_capacity};
    ghost use Rattle.replica_map.specs.Rising.{Stored, Rises};

    ghost Value = { Stored T };

    ghost view = { λ s. record { items = s.items.items; capacity = vec_capacity s.items } };

    ghost invariant = { λ s. Rises T.key s.items.items };
}

impl<T: Keyed> Sorted<T> {
    /// An empty one, which takes no memory.
    pub fn make(alloc: Global) -> Sorted<T>
        ensures items { result.items ≡ [] }
        ensures capacity { result.capacity ≡ 0 }
    {
        Sorted {
            items: Vec::new(alloc),
        }
    }

    /// Those of a vector whose keys rise.
    pub fn from_rising(items: Vec<T>) -> Sorted<T>
        requires { Rises T.key items.items }
        ensures items { result.items ≡ items.items }
        ensures capacity { result.capacity ≡ vec_capacity items }
    {
        Sorted { items }
    }

    /// How many items there are.
    pub fn len(&self) -> usize
        ensures len { result ≡ length self.now.items }
        ensures within { result ≤ self.now.capacity }
        ensures rises { Rises T.key self.now.items }
    {
        self.items.len()
    }

    /// The item at a place.
    pub fn at(&self, i: usize) -> Option<T>
        ensures { result ≡ slice_get self.now.items i }
    {
        self.items.get(i).copied()
    }

    /// The first place whose key isn't below this one.
    fn place(&self, key: u128) -> usize
        ensures { IsPlace T.key self.now.items key result }
    {
        let mut low = 0;
        let mut high = self.items.len();
        while low < high {
            let mid = low + (high - low) / 2;
            if self.items[mid].key() < key {
                low = mid + 1;
            } else {
                high = mid;
            }
        }
        low
    }

    /// The item with this key.
    pub fn find(&self, key: u128) -> Option<T>
        ensures value { result ≡ find (has_key T.key key) self.now.items }
        ensures rises { Rises T.key self.now.items }
    {
        let _ = &self.items;
        let x = self.at(self.place(key))?;
        if x.key() == key { Some(x) } else { None }
    }

    /// The first item whose key isn't below this one.
    pub fn first_from(&self, key: u128) -> Option<T>
        ensures { IsFirstFrom T.key self.now.items key result }
    {
        let _ = &self.items;
        self.at(self.place(key))
    }

    /// How many items have a key from the one on and below the other.
    pub fn count_between(&self, low: u128, high: u128) -> usize
        requires order { low ≤ high }
        ensures { result ≡ count_between T.key low high self.now.items }
    {
        let _ = &self.items;
        self.place(high) - self.place(low)
    }

    /// Makes room for `more` items beside those that are there.
    pub fn reserve(&mut self, more: usize) -> Result<(), AllocError>
        ensures items { self.new.items ≡ self.old.items }
        ensures ok { OnOk result (length self.new.items + more ≤ self.new.capacity) }
        ensures capacity { self.old.capacity ≤ self.new.capacity }
        ensures roomy { length self.old.items + more ≤ self.old.capacity → IsOk result }
    {
        self.items.reserve(more)
    }

    /// Adds an item with a new key at its place. It takes no memory.
    pub fn insert(&mut self, x: T)
        requires spare { length self.old.items < self.old.capacity }
        requires absent { find (has_key T.key (T.key x)) self.old.items ≡ None }
        ensures found { PutsItem T.key (T.key x) (Some x) self.old.items self.new.items }
        ensures sums { (f : T → ℕ) → sum_by f self.new.items ≡ sum_by f self.old.items + f x }
        ensures len { length self.new.items ≡ length self.old.items + 1 }
        ensures capacity { self.new.capacity ≡ self.old.capacity }
    {
        let at = self.place(x.key());
        insert_at(&mut self.items, at, x);
    }

    /// Puts an item in the place of the one with its key.
    pub fn replace(&mut self, x: T)
        requires present { IsSome (find (has_key T.key (T.key x)) self.old.items) }
        ensures found { PutsItem T.key (T.key x) (Some x) self.old.items self.new.items }
        ensures sums { (f : T → ℕ) (y : T) → find (has_key T.key (T.key x)) self.old.items ≡ Some y →
            sum_by f self.new.items + f y ≡ sum_by f self.old.items + f x }
        ensures len { length self.new.items ≡ length self.old.items }
        ensures capacity { self.new.capacity ≡ self.old.capacity }
    {
        let at = self.place(x.key());
        self.items[at] = x;
    }

    /// Takes the item with this key away. Its place stays.
    pub fn remove(&mut self, key: u128)
        requires present { IsSome (find (has_key T.key key) self.old.items) }
        ensures found { PutsItem T.key key None self.old.items self.new.items }
        ensures sums { (f : T → ℕ) (y : T) → find (has_key T.key key) self.old.items ≡ Some y →
            sum_by f self.new.items + f y ≡ sum_by f self.old.items }
        ensures len { length self.new.items + 1 ≡ length self.old.items }
        ensures capacity { self.new.capacity ≡ self.old.capacity }
    {
        let at = self.place(key);
        self.items.remove(at);
    }
}

// Inserts at a place, where there is room.
fn insert_at<T: Keyed>(items: &mut Vec<T>, at: usize, x: T)
    requires within { at ≤ vec_len items.old }
    requires spare { vec_len items.old < vec_capacity items.old }
    ensures items { items.new.items ≡ insert items.old.items at x }
    ensures len { vec_len items.new ≡ vec_len items.old + 1 }
    ensures capacity { vec_capacity items.new ≡ vec_capacity items.old }
{
    match items.insert(at, x) {
        Ok(()) | Err(_) => {}
    }
}

/// Adds a value at the end, where there is room.
pub(crate) fn push_within<T: Copy>(items: &mut Vec<T>, x: T)
    requires spare { vec_len items.old < vec_capacity items.old }
    ensures items { items.new.items ≡ items.old.items ++ x ∷ [] }
    ensures len { vec_len items.new ≡ vec_len items.old + 1 }
    ensures capacity { vec_capacity items.new ≡ vec_capacity items.old }
{
    let end = items.len();
    match items.insert(end, x) {
        Ok(()) | Err(_) => {}
    }
}
