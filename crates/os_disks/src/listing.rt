//! Directories that are listed.
use crate::kinds::has_directory;
use crate::listed_sizes::ListedFile;
use crate::ways::SeenWay;
use std::alloc::Global;
use std::fs;
use std::io::{ErrorKind, Result};

/// The files of a directory, in no order. All else, as directories and links, is passed over. An absent directory has
/// none. Neither it nor a directory that its path names behind its first `below` bytes is a link.
pub fn files_in(
    rt: &HostRuntime,
    alloc: Global,
    way: &mut SeenWay,
    dir: &str,
    below: usize,
) -> Result<Vec<ListedFile>> {
    let mut files = Vec::new(alloc);
    if !(way.reaches(rt, dir, below)? && has_directory(rt, dir)?) {
        return Ok(files);
    }
    let entries = match fs::read_dir(rt, dir) {
        Ok(entries) => entries,
        Err(error) if error.kind() == ErrorKind::NotFound => return Ok(files),
        Err(error) => return Err(error),
    };
    for entry in entries {
        let entry = entry?;
        let metadata = entry.metadata()?;
        if metadata.is_file() {
            files.push(ListedFile {
                name: String::from_str(alloc, entry.file_name())?,
                len: metadata.len(),
            })?;
        }
    }
    Ok(files)
}
