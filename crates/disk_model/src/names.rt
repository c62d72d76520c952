//! The names of a directory.
ghost use Rattle.std.specs.Prelude.{◌≡◌, ◌<◌, ◌++◌, [], ◌∷◌, List, ℕ, length, map, OnOk, OnErr, All, AllPairs, slice_get, Some};
ghost use Rattle.disk_model.specs.Names.{IsBelow, IsInOrder};

use std::alloc::{AllocError, Global};
use std::marker::Model;

/// File names in the order of their bytes, each once.
#[derive(Drop)]
pub struct Names {
    alloc: Global,
    texts: Vec<String>,
}

impl Model for Names {
    ghost Value = { List (List ℕ) };

    ghost view = { λ names. map (λ text. text.bytes.items) names.texts.items };

    ghost invariant = { λ names. IsInOrder (map (λ text. text.bytes.items) names.texts.items) };
}

impl Names {
    /// No names. It takes no memory.
    pub fn make(alloc: Global) -> Self
        ensures { result ≡ [] }
    {
        Names {
            alloc,
            texts: Vec::new(alloc),
        }
    }

    /// Adds a name that comes after all others. Want of memory changes nothing.
    pub fn push(&mut self, name: &str) -> Result<(), AllocError>
        requires { All (λ earlier. IsBelow earlier name.now) self.old }
        ensures ok { OnOk result (self.new ≡ self.old ++ name.now ∷ []) }
        ensures err { OnErr result (self.new ≡ self.old) }
        ensures order { IsInOrder self.new }
    {
        self.texts.push(String::from_str(self.alloc, name)?)?;
        Ok(())
    }

    /// How many names there are.
    pub fn len(&self) -> usize
        ensures { result ≡ length self.now }
    {
        self.texts.len()
    }

    /// The name at an index, from 0 on.
    pub fn get(&self, i: usize) -> &str
        requires { i < length self.now }
        ensures { slice_get self.now i ≡ Some result.now }
    {
        self.texts[i].as_str()
    }
}
