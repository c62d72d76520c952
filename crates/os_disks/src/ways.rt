//! Directories that were seen on the way to a file, so that the system isn't asked for them again.
use crate::kinds::{find_file, has_directory};
use std::alloc::{AllocError, Global};
use std::fs::{Files, Metadata};
use std::io::Result;

/// A path of which all directories behind those of the pool were seen to stand, and to be no links.
///
/// Nobody else changes the directories of a pool while its locks are held, so what was seen stands until a call changes
/// something. It is forgotten at each call but a listing and the question for a size.
#[derive(Drop)]
pub struct SeenWay {
    path: String,
}

impl SeenWay {
    /// Nothing was seen. There is room for a path of so many bytes.
    pub fn with_capacity(alloc: Global, bytes: usize) -> std::result::Result<SeenWay, AllocError> {
        Ok(SeenWay {
            path: String::with_capacity(alloc, bytes)?,
        })
    }

    /// Forgets what was seen.
    pub fn forget(&mut self) {
        self.path.clear();
    }

    /// Whether a directory is one of those that were seen.
    fn covers(&self, dir: &str) -> bool {
        match self.path.strip_prefix(dir) {
            Some(rest) => rest.is_empty() || rest.starts_with('/'),
            None => false,
        }
    }

    /// Whether a directory of this name stands. All else at the name is an error.
    fn has<R: Files>(&mut self, rt: &R, dir: &str) -> Result<bool> {
        if self.covers(dir) {
            return Ok(true);
        }
        if !has_directory(rt, dir)? {
            return Ok(false);
        }
        self.path.clear();
        self.path.push_str(dir)?;
        Ok(true)
    }

    /// Whether the directories stand that a path names behind its first `below` bytes. All else at such a name is an
    /// error.
    pub fn reaches<R: Files>(&mut self, rt: &R, path: &str, below: usize) -> Result<bool> {
        for end in below..path.len() {
            match path.split_at_checked(end) {
                Some((above, rest)) if rest.starts_with('/') => {
                    if !self.has(rt, above)? {
                        return Ok(false);
                    }
                }
                _ => {}
            }
        }
        Ok(true)
    }

    /// What is known of the file of this path, or `None` where nothing stands there. All but a file is an error, and all
    /// but a directory at a name on the way that the path names behind its first `below` bytes.
    pub fn find<R: Files>(&mut self, rt: &R, path: &str, below: usize) -> Result<Option<Metadata>> {
        if self.reaches(rt, path, below)? {
            find_file(rt, path)
        } else {
            Ok(None)
        }
    }
}
