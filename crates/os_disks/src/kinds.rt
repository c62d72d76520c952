//! What stands at a name. No link is followed: a link to a file is no file, and one to a directory is no directory.
ghost use Rattle.std.specs.Prelude.{◌≡◌};

use std::fs;
use std::fs::{File, Files, Metadata};
use std::io::{Error, ErrorKind, Result};
use std::os::unix::fs::MetadataExt;

/// The fault of a name at which something else stands than is wanted, as a link, a FIFO or a device.
pub fn other_kind() -> Error {
    Error::from(ErrorKind::Unsupported)
}

/// What is known of the file of this name, or `None` where nothing stands there. All but a file is an error.
pub fn find_file<R: Files>(rt: &R, path: &str) -> Result<Option<Metadata>> {
    match fs::symlink_metadata(rt, path) {
        Ok(metadata) if metadata.is_file() => Ok(Some(metadata)),
        Ok(_) => Err(other_kind()),
        Err(error) if error.kind() == ErrorKind::NotFound => Ok(None),
        Err(error) => Err(error),
    }
}

/// Whether a directory of this name stands. All else at the name is an error.
pub fn has_directory<R: Files>(rt: &R, path: &str) -> Result<bool> {
    match fs::symlink_metadata(rt, path) {
        Ok(metadata) if metadata.is_dir() => Ok(true),
        Ok(_) => Err(other_kind()),
        Err(error) if error.kind() == ErrorKind::NotFound => Ok(false),
        Err(error) => Err(error),
    }
}

/// Whether the directories stand that a path names behind its first `below` bytes. All else at such a name is an error.
pub fn has_way<R: Files>(rt: &R, path: &str, below: usize) -> Result<bool> {
    for end in below..path.len() {
        match path.split_at_checked(end) {
            Some((above, rest)) if rest.starts_with('/') => {
                if !has_directory(rt, above)? {
                    return Ok(false);
                }
            }
            _ => {}
        }
    }
    Ok(true)
}

/// As `find_file`, over directories that stand behind the first `below` bytes of the path and are no links.
pub fn find_below<R: Files>(rt: &R, path: &str, below: usize) -> Result<Option<Metadata>> {
    if has_way(rt, path, below)? {
        find_file(rt, path)
    } else {
        Ok(None)
    }
}

/// Makes sure that an open file is the one that was found at its name.
pub fn is_the_one(file: &File, found: &Metadata) -> Result<()> {
    let opened = file.metadata()?;
    if opened.dev() == found.dev() && opened.ino() == found.ino() {
        Ok(())
    } else {
        Err(other_kind())
    }
}

/// Opens the file that `find_below` finds to read it.
///
/// The kit opens with no flags of the caller's (`O_NOFOLLOW`, `O_NONBLOCK`), so the kind is asked before the open.
/// Where another process, against the rule that nobody else changes these directories, puts a link or a FIFO there
/// between the two, the open follows the link or waits for the FIFO's writer. What was opened is compared with what was
/// found, so that no other file is read.
pub fn open_file<R: Files<File = File>>(rt: &R, path: &str, below: usize) -> Result<Option<File>> {
    let Some(found) = find_below(rt, path, below)? else {
        return Ok(None);
    };
    let file = File::open(rt, path)?;
    is_the_one(&file, &found)?;
    Ok(Some(file))
}
