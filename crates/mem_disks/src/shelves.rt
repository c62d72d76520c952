//! The names of each volume, in order.
ghost use Rattle.std.specs.Prelude.{◌≡◌, ◌<◌, ◌≤◌, ◌-◌, length, List, ℕ, IfOk, OnOk, OnErr, Some, None, string_bytes};
ghost use Rattle.std.specs.BTreeMap.{get_by_text};
ghost use Rattle.mem_disks.specs.Shelves.{held, Puts, Moves, Same};

use std::alloc::{AllocError, Global};
use std::collections::BTreeMap;

/// What stands under a name: a draft, or the file whose bytes are in the record of this index.
#[derive(Clone, Copy)]
pub enum Entry {
    Draft,
    File(usize),
}

/// The names of one volume.
pub type Shelf = BTreeMap<String, Entry>;

/// What stands at a place.
pub fn entry_at(shelves: &[Shelf], vol: u8, path: &str) -> Option<Entry>
    requires low { 1 ≤ vol }
    requires high { vol ≤ length shelves.now }
    ensures { result ≡ held shelves.now (vol - 1) path.now }
{
    let shelf = &shelves[usize::from(vol) - 1];
    shelf.get(path).copied()
}

/// The names of a volume.
pub fn shelf_of(shelves: &[Shelf], vol: u8) -> &Shelf
    requires low { 1 ≤ vol }
    requires high { vol ≤ length shelves.now }
    ensures { (path : List ℕ) → held shelves.now (vol - 1) path ≡ get_by_text result.now path }
{
    &shelves[usize::from(vol) - 1]
}

/// Puts an entry at a place. Want of memory changes nothing.
pub fn put_entry(
    shelves: &mut [Shelf],
    vol: u8,
    path: String,
    entry: Entry,
) -> Result<(), AllocError>
    requires low { 1 ≤ vol }
    requires high { vol ≤ length shelves.old }
    ensures ok { OnOk result (Puts shelves.old shelves.new (vol - 1) (string_bytes path) (Some entry)) }
    ensures err { OnErr result (Same shelves.old shelves.new) }
{
    let shelf = &mut shelves[usize::from(vol) - 1];
    shelf.insert(path, entry)?;
    Ok(())
}

/// Takes away what stands at a place.
pub fn take_entry(shelves: &mut [Shelf], vol: u8, path: &str)
    requires low { 1 ≤ vol }
    requires high { vol ≤ length shelves.old }
    ensures { Puts shelves.old shelves.new (vol - 1) path.now None }
{
    let shelf = &mut shelves[usize::from(vol) - 1];
    shelf.remove(path);
}

/// Takes away what stands at a path, and puts an entry at a target. Want of memory changes nothing.
pub fn move_entry(
    shelves: &mut [Shelf],
    vol: u8,
    path: &str,
    target: String,
    entry: Entry,
) -> Result<(), AllocError>
    requires low { 1 ≤ vol }
    requires high { vol ≤ length shelves.old }
    ensures ok { OnOk result (Moves shelves.old shelves.new (vol - 1) path.now (string_bytes target) (Some entry)) }
    ensures err { OnErr result (Same shelves.old shelves.new) }
{
    let stays = target.as_str() == path;
    put_entry(shelves, vol, target, entry)?;
    if !stays {
        take_entry(shelves, vol, path);
    }
    Ok(())
}

/// Empty shelves.
pub fn empty_shelves(alloc: Global, count: u8) -> Result<Vec<Shelf>, AllocError>
    ensures len { IfOk result (λ shelves. length shelves.items ≡ count) }
    ensures empty { IfOk result (λ shelves. (index : ℕ) (path : List ℕ) → held shelves.items index path ≡ None) }
{
    let mut shelves = Vec::new(alloc);
    for i in 0..count {
        let _ = i;
        shelves.push(BTreeMap::new(alloc))?;
    }
    Ok(shelves)
}
