//! The sizes that listings saw, so that the system isn't asked for them again.
ghost use Rattle.std.specs.Prelude.{◌≡◌};

use std::alloc::{AllocError, Global};
use std::collections::BTreeMap;

/// A file of a directory, as a listing saw it.
#[derive(Drop, PartialEq, Eq, PartialOrd, Ord)]
pub struct ListedFile {
    /// Its name.
    pub name: String,
    /// Its length in bytes.
    pub len: u64,
}

/// Where a name stands among the names of a directory, and the length of its file in bytes.
#[derive(Clone, Copy)]
struct NamePlace {
    start: u32,
    end: u32,
    len: u64,
}

/// The names of files of a directory in order, one behind the other, and their sizes.
#[derive(Drop)]
struct DirectorySizes {
    names: String,
    places: Vec<NamePlace>,
}

/// Whether the size of a file of this name is remembered: it ends in a digit, as that of a block file does, whose size is
/// what an opening asks.
fn is_remembered(name: &str) -> bool {
    matches!(name.as_bytes().last(), Some(b'0'..=b'9'))
}

/// A count of bytes or names that serves as a place. A directory with more than that isn't remembered.
fn place(count: usize) -> Result<u32, AllocError> {
    u32::try_from(count).map_err(|_| AllocError)
}

impl DirectorySizes {
    /// The sizes of these files, which stand in order.
    fn of_files(alloc: Global, files: &[ListedFile]) -> Result<DirectorySizes, AllocError> {
        let mut bytes = 0_usize;
        let mut count = 0_usize;
        for file in files {
            if is_remembered(file.name.as_str()) {
                bytes = bytes.saturating_add(file.name.len());
                count = count.saturating_add(1);
            }
        }
        let mut sizes = DirectorySizes {
            names: String::with_capacity(alloc, bytes)?,
            places: Vec::with_capacity(alloc, count)?,
        };
        for file in files {
            if is_remembered(file.name.as_str()) {
                sizes.add(file)?;
            }
        }
        Ok(sizes)
    }

    /// Adds a file that comes after all others.
    fn add(&mut self, file: &ListedFile) -> Result<(), AllocError> {
        let start = place(self.names.len())?;
        self.names.push_str(file.name.as_str())?;
        let end = place(self.names.len())?;
        self.places.push(NamePlace {
            start,
            end,
            len: file.len,
        })?;
        Ok(())
    }

    /// The name at a place.
    fn name_at(&self, at: NamePlace) -> &str {
        self.names
            .get(at.start as usize..at.end as usize)
            .unwrap_or("")
    }

    /// The size of the file of this name, where it is remembered.
    fn size(&self, name: &str) -> Option<u64> {
        match self
            .places
            .binary_search_by(|at| self.name_at(*at).cmp(name))
        {
            Ok(i) => Some(self.places.get(i)?.len),
            Err(_) => None,
        }
    }
}

/// The sizes of files that listings saw, by the real paths of their directories.
///
/// Nobody else changes the directories of a pool while its locks are held, and a settled file keeps its bytes, so a size
/// stands until a call changes something. All are forgotten at each call but a listing and the question for a size.
#[derive(Drop)]
pub struct ListedSizes {
    alloc: Global,
    dirs: BTreeMap<String, DirectorySizes>,
}

impl ListedSizes {
    /// None was seen. It takes no memory.
    pub fn none(alloc: Global) -> ListedSizes {
        ListedSizes {
            alloc,
            dirs: BTreeMap::new(alloc),
        }
    }

    /// Forgets all.
    pub fn forget(&mut self) {
        self.dirs = BTreeMap::new(self.alloc);
    }

    /// Remembers the sizes of a directory's files, which stand in order, in place of what was seen of it before.
    pub fn see(&mut self, dir: &str, files: &[ListedFile]) -> Result<(), AllocError> {
        let sizes = DirectorySizes::of_files(self.alloc, files)?;
        let dir = String::from_str(self.alloc, dir)?;
        self.dirs.insert(dir, sizes)?;
        Ok(())
    }

    /// The size of the file of this path, where it was seen.
    pub fn size(&self, path: &str) -> Option<u64> {
        let (dir, name) = path.rsplit_once('/')?;
        self.dirs.get(dir)?.size(name)
    }
}
