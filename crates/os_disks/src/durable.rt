//! Names of real files that last: each is made, changed and taken away together with a sync of its directory.
//!
//! Trusted of the system: that a creation, a rename and a removal are atomic, and durable once the directory of the name
//! was synced. No clause says anything of what real directories hold.
ghost use Rattle.std.specs.Prelude.{◌≡◌};

use crate::kinds::has_way;
use std::fs;
use std::fs::{Files, OpenFile, OpenOptions};
use std::io::{Error, ErrorKind, Result};

/// The directory that a path stands in.
fn parent(path: &str) -> &str {
    match path.rsplit_once('/') {
        Some((above, _)) if above.is_empty() => "/",
        Some((above, _)) => above,
        None => ".",
    }
}

/// Makes sure that the names of a directory are on the disk.
fn sync_directory<R: Files>(rt: &R, path: &str) -> Result<()> {
    OpenOptions::new().read(true).open(rt, path)?.sync_all()
}

/// Whether a directory stands at the path, or, where links are followed, is what one leads to.
fn is_directory<R: Files>(rt: &R, path: &str, are_followed: bool) -> bool {
    let found = if are_followed {
        fs::metadata(rt, path)
    } else {
        fs::symlink_metadata(rt, path)
    };
    match found {
        Ok(metadata) => metadata.is_dir(),
        Err(_) => false,
    }
}

/// Makes a directory where it is absent. One whose name can't be synced is taken away again, so that no later call
/// takes it for one that lasts.
fn make_one(rt: &impl Files, path: &str, are_followed: bool) -> Result<()> {
    match fs::create_dir(rt, path) {
        Ok(()) => {}
        Err(_) if is_directory(rt, path, are_followed) => return Ok(()),
        Err(error) => return Err(error),
    }
    let synced = sync_directory(rt, parent(path));
    if synced.is_err() {
        let _ = fs::remove_dir(rt, path);
    }
    synced
}

/// Makes the directories of a path that are absent, those above first: all that it names behind its first `from` bytes.
fn make_from<R: Files>(rt: &R, path: &str, from: usize, are_followed: bool) -> Result<()> {
    for end in from..path.len() {
        match path.split_at_checked(end) {
            Some((above, rest)) if rest.starts_with('/') => make_one(rt, above, are_followed)?,
            _ => {}
        }
    }
    make_one(rt, path, are_followed)
}

/// Makes a directory where it is absent, and first those that it stands in. Links to directories do.
pub fn make_directory<R: Files>(rt: &R, path: &str) -> Result<()> {
    make_from(rt, path, 1, true)
}

/// Makes a directory where it is absent, and first those that its path names behind its first `below` bytes. A link
/// there is an error.
pub fn make_below<R: Files>(rt: &R, path: &str, below: usize) -> Result<()> {
    make_from(rt, path, below, false)
}

/// Makes an empty file at a free name, and fails at any other: the system neither follows nor opens what stands there.
fn create_new<R: Files>(rt: &R, path: &str) -> Result<R::File> {
    OpenOptions::new()
        .write(true)
        .create_new(true)
        .open(rt, path)
}

/// Makes an empty file in place of what stands at its name, which is taken away and not opened. The directories that
/// its path names behind its first `below` bytes are made where they are absent.
///
/// Where something stood there, a crash between the two steps leaves neither.
pub fn create<R: Files>(rt: &R, path: &str, below: usize) -> Result<R::File> {
    if !has_way(rt, path, below)? {
        make_below(rt, parent(path), below)?;
    }
    let file = match create_new(rt, path) {
        Err(error) if error.kind() == ErrorKind::AlreadyExists => {
            fs::remove_file(rt, path)?;
            create_new(rt, path)?
        }
        made => made?,
    };
    sync_directory(rt, parent(path))?;
    Ok(file)
}

/// Gives a file another name, in place of what had it. The directories that the other name's path names behind its first
/// `below` bytes are made where they are absent; all that either path names there are directories, and no links.
pub fn rename<R: Files>(rt: &R, from: &str, to: &str, below: usize) -> Result<()> {
    if !has_way(rt, from, below)? {
        return Err(Error::from(ErrorKind::NotFound));
    }
    if !has_way(rt, to, below)? {
        make_below(rt, parent(to), below)?;
    }
    fs::rename(rt, from, to)?;
    sync_directory(rt, parent(to))?;
    sync_directory(rt, parent(from))
}

/// Takes a name away, and not what a link there leads to. One that is absent is taken for one that an earlier call took
/// away, perhaps without a sync.
pub fn remove<R: Files>(rt: &R, path: &str, below: usize) -> Result<()> {
    if !has_way(rt, path, below)? {
        return Ok(());
    }
    match fs::remove_file(rt, path) {
        Err(error) if error.kind() != ErrorKind::NotFound => Err(error),
        _ => sync_directory(rt, parent(path)),
    }
}
