//! The names of a directory.
ghost use Rattle.std.specs.Prelude.{◌≡◌, ◌≢◌, ◌++◌, List, ℕ, MatchOption, IfOk, string_bytes};
ghost use Rattle.disk_model.specs.Files.{path_in};
ghost use Rattle.disk_model.specs.Worlds.{IsFileName};
ghost use Rattle.mem_disks.specs.Listing.{Lists};

use crate::shelves::Shelf;
use disk_model::Names;
use std::alloc::{AllocError, Global};

// The file name of a path in a directory.
fn name_in<'a>(path: &'a str, dir: &str) -> Option<&'a str>
    ensures { MatchOption result
        ((name : List ℕ) → IsFileName name → path.now ≢ path_in dir.now name)
        (λ name. IsFileName name.now × (path.now ≡ path_in dir.now name.now)) }
{
    let rest = path.strip_prefix(dir)?;
    let name = rest.strip_prefix('/')?;
    if name.is_empty() || name.contains('/') {
        return None;
    }
    Some(name)
}

// A directory's text with an end behind it.
fn with_end(alloc: Global, dir: &str, end: &str) -> Result<String, AllocError>
    ensures { IfOk result (λ text. string_bytes text ≡ dir.now ++ end.now) }
{
    let mut text = String::from_str(alloc, dir)?;
    text.push_str(end)?;
    Ok(text)
}

/// The names of a directory on a shelf. It looks at no name outside of the directory.
pub fn names_of(alloc: Global, shelf: &Shelf, dir: &str) -> Result<Names, AllocError>
    ensures { IfOk result (λ names. Lists shelf.now dir.now names) }
{
    // all paths in the directory stand from the slash on, and before the character after the slash
    let first = with_end(alloc, dir, "/")?;
    let past = with_end(alloc, dir, "0")?;
    let mut names = Names::make(alloc);
    for (path, _) in shelf.range(first..past) {
        match name_in(path.as_str(), dir) {
            Some(name) => names.push(name)?,
            None => {}
        }
    }
    Ok(names)
}
