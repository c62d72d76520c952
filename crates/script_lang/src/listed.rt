//! A vector that contracts see as the list of its items.
ghost use Rattle.std.specs.Prelude.{◌≡◌, ℕ, List, length};

use std::marker::Model;

/// Items on the heap, in order.
#[derive(Drop)]
pub struct Listed<T> {
    vec: Vec<T>,
}

impl<T> Model for Listed<T> {
    ghost Value = { List T };

    ghost view = { λ listed. listed.vec.items };
}

impl<T> Listed<T> {
    /// The items of a vector. It takes no memory.
    pub fn new(vec: Vec<T>) -> Listed<T>
        ensures { result ≡ vec.items }
    {
        Listed { vec }
    }

    /// The items, lent.
    pub fn as_slice(&self) -> &[T]
        ensures { result.now ≡ self.now }
    {
        self.vec.as_slice()
    }

    /// How many items there are.
    pub fn len(&self) -> usize
        ensures { result ≡ length self.now }
    {
        self.vec.len()
    }

    /// The items, given away. It takes no memory.
    pub fn into_vec(self) -> Vec<T>
        ensures { result.items ≡ self }
    {
        self.vec
    }
}
