//! One process a volume: the locks of the volumes' directories.
//!
//! A volume's lock is an exclusive lock on the whole of `in_use.lock`, the file that an HDFS DataNode locks, by std's
//! `File::try_lock` (`flock`). Of the system it is trusted that two such locks never stand together, and that this one
//! stands until the file that was opened here is closed. HDFS takes a lock of another kind (a record lock, `F_SETLK`),
//! and the two kinds don't see each other: the lock keeps further runs away, and no DataNode.
ghost use Rattle.std.specs.Prelude.{◌≡◌, ◌↔◌, ◌≤◌, IfOk, IsTrue, length};
ghost use Rattle.std.specs.Arc.{arc_value};

use crate::{durable, kinds};
use std::alloc::AllocError;
use std::fs::{File, OpenOptions};
use std::io;
use std::io::{Error, ErrorKind};
use std::os::fd::AsRawFd;
use std::sync::Arc;

/// The locks of a node's volumes. They are held until the last of those that share them is dropped.
#[derive(Drop)]
pub struct VolumeLocks {
    locked: Vec<File>,
    volumes: usize,
    standing_in: Vec<File>,
}

/// Opens a lock's file, which is made where it is absent. Nothing is read from it or written to it.
fn open_lock_file(rt: &HostRuntime, path: &str) -> io::Result<File> {
    match File::create_new(rt, path) {
        Err(error) if error.kind() == ErrorKind::AlreadyExists => {}
        made => return made,
    }
    if kinds::find_file(rt, path)?.is_none() {
        return Err(Error::from(ErrorKind::NotFound));
    }
    OpenOptions::new().read(true).write(true).open(rt, path)
}

/// Takes the lock of a volume's directory, which is made where it is absent, and answers the file that holds it.
fn lock_volume(rt: &HostRuntime, dir: &str) -> io::Result<File> {
    durable::make_directory(rt, dir)?;
    let path = format!(in rt.alloc(); "{dir}/in_use.lock")?;
    let file = open_lock_file(rt, path.as_str())?;
    file.try_lock()?;
    // a DataNode that ends in order removes its file, perhaps since it was opened here
    match kinds::find_file(rt, path.as_str())? {
        Some(found) => kinds::is_the_one(&file, &found)?,
        None => return Err(Error::from(ErrorKind::NotFound)),
    }
    Ok(file)
}

/// Opens directories at the numbers of standard streams that are closed, so that no file of a block gets such a number:
/// replies would be written into it. To write to a directory fails, and so does to read from it.
fn fill_standard_numbers(rt: &HostRuntime, standing_in: &mut Vec<File>) -> io::Result<()> {
    for _ in 0..3 {
        let open = File::open(rt, "/")?;
        if open.as_raw_fd() > 2 {
            break;
        }
        standing_in.push(open)?;
    }
    Ok(())
}

/// Takes the locks of the volumes, one after the other up to the first that can't be taken.
fn lock_each(rt: &HostRuntime, dirs: &[&str], locked: &mut Vec<File>) -> io::Result<()> {
    for dir in dirs {
        locked.push(lock_volume(rt, dir)?)?;
    }
    Ok(())
}

impl VolumeLocks {
    /// Takes the locks of the volumes in these directories, each of which is made where it is absent. Where one can't
    /// be taken, as another process has it, the locks aren't held, and no later one is asked for.
    pub fn take(rt: &HostRuntime, dirs: &[&str]) -> Result<Arc<VolumeLocks>, AllocError>
        ensures volumes { IfOk result (λ locks. (arc_value locks).volumes ≡ length dirs.now) }
    {
        let mut locked = Vec::new(rt.alloc());
        let mut standing_in = Vec::new(rt.alloc());
        let taken = match fill_standard_numbers(rt, &mut standing_in) {
            Ok(()) => lock_each(rt, dirs, &mut locked),
            failed => failed,
        };
        match taken {
            Err(error) if error.kind() == ErrorKind::OutOfMemory => Err(AllocError),
            _ => Ok(Arc::new(
                rt.alloc(),
                VolumeLocks {
                    locked,
                    volumes: dirs.len(),
                    standing_in,
                },
            )?),
        }
    }

    /// Whether the lock of each volume is held.
    pub(crate) fn are_held(&self) -> bool
        ensures { IsTrue result ↔ (length self.now.locked.items ≡ self.now.volumes) }
    {
        self.locked.len() == self.volumes
    }
}
