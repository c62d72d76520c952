//! The disks of a pool over real directories, one for each volume.
//!
//! The pool's files stand on a volume under `current/POOL`, and below that at the paths of the calls. Nothing is read,
//! made or removed there but while the locks of all volumes are held. No link below the volume's own directory is
//! followed, and no file is written but one that `create` made. Trusted is what `volume_locks`, `durable` and `os_files`
//! say of the system, and that nobody else changes these directories. Nothing is told of what they hold; each failed
//! call, and each file that was looked for and absent, is counted.
ghost use Rattle.std.specs.Prelude.{◌≡◌, ◌≤◌, None, IsOk, IsErr, IfOk, OnOk, IsTrue, All, length};
ghost use Rattle.std.specs.Arc.{arc_value};
ghost use Rattle.disk_model.specs.Names.{IsBelow, IsInOrder};
ghost use Rattle.disk_model.specs.Causes.{Rose, HasCause};
ghost use Rattle.disk_model.specs.Untold.{untold_is_disk, untold_stands_within, untold_leaves_nothing};

use crate::listed_sizes::{ListedFile, ListedSizes};
use crate::listing::files_in;
use crate::os_files::{OsDraft, OsReader, OsSealed};
use crate::volume_locks::VolumeLocks;
use crate::ways::SeenWay;
use crate::{durable, kinds};
use disk_model::{DiskError, Failed, Names, PoolDisks};
use std::alloc::{AllocError, Global};
use std::io::ErrorKind;
use std::mem;
use std::sync::Arc;

/// The longest path of a call, in bytes.
const LONGEST_PATH: usize = 96;

/// The disks of one pool.
#[derive(Drop)]
pub struct OsDisks {
    rt: HostRuntime,
    locks: Arc<VolumeLocks>,
    roots: Vec<String>,
    path: String,
    other: String,
    way: SeenWay,
    sizes: ListedSizes,
    next_number: u64,
    faults: u64,
    absences: u64,
    is_unmade: bool,
    ghost some: { 1 ≤ length roots.items },
    ghost limit: { length roots.items ≤ 64 },
}

/// The directories of a pool, one for each volume.
fn pool_roots(alloc: Global, pool: &str, dirs: &[&str]) -> Result<Vec<String>, AllocError>
    ensures { IfOk result (λ roots. length roots.items ≡ length dirs.now) }
{
    let mut roots = Vec::new(alloc);
    for dir in dirs {
        roots.push(format!(in alloc; "{dir}/current/{pool}")?)?;
    }
    Ok(roots)
}

/// Makes the pool's directories that are absent below those of the volumes, and answers whether all stand.
fn make_all(rt: &HostRuntime, roots: &[String], dirs: &[&str]) -> bool {
    let mut are_made = true;
    for (root, dir) in roots.iter().zip(dirs) {
        let below = dir.len().saturating_add(1);
        are_made = durable::make_below(rt, root.as_str(), below).is_ok() && are_made;
    }
    are_made
}

/// How many bytes the longest real path of these directories' files has.
fn longest_path(roots: &[String]) -> usize {
    let longest = roots.iter().map(|root| root.len()).max().unwrap_or(0);
    longest.saturating_add(LONGEST_PATH + 2)
}

/// Puts the real path of a pool's file into a buffer, and answers from which byte on the path is the pool's. It takes no
/// memory beyond that of the buffer. Where the locks aren't held there is no path.
fn join(
    buffer: &mut String,
    locks: &VolumeLocks,
    roots: &[String],
    vol: u8,
    path: &str,
) -> Result<usize, Failed>
    ensures held { IsOk result → length locks.now.locked.items ≡ locks.now.volumes }
{
    buffer.clear();
    let Some(root) = roots.get(usize::from(vol).wrapping_sub(1)) else {
        return Err(Failed);
    };
    if !locks.are_held()
        || path.len() > LONGEST_PATH
        || buffer.push_str(root.as_str()).is_err()
        || buffer.push('/').is_err()
        || buffer.push_str(path).is_err()
    {
        return Err(Failed);
    }
    Ok(root.len().saturating_add(1))
}

/// Whether a name comes after the last of these, and so after all.
#[tactic(auto, using(crate::proofs::NameOrder::after_last))]
fn is_after_last(names: &Names, name: &str) -> bool
    ensures { IsTrue result → IsInOrder names.now → All (λ earlier. IsBelow earlier name.now) names.now }
{
    match names.len().checked_sub(1) {
        Some(last) => names.get(last) < name,
        None => true,
    }
}

/// The names in order, each once.
fn in_order(alloc: Global, files: &[ListedFile]) -> Result<Names, AllocError>
    ensures { IfOk result (λ names. IsInOrder names) }
{
    let mut names = Names::make(alloc);
    for file in files {
        if is_after_last(&names, file.name.as_str()) {
            names.push(file.name.as_str())?;
        }
    }
    Ok(names)
}

impl OsDisks {
    /// The disks of a pool on volumes in these directories, whose locks are these. The pool's own directories are made
    /// where they are absent. Where one can't be made the first listing fails; where the locks aren't held none is made,
    /// and each call that names a file or a directory fails.
    pub fn open(
        rt: HostRuntime,
        pool: &str,
        dirs: &[&str],
        locks: &Arc<VolumeLocks>,
    ) -> Result<OsDisks, AllocError>
        requires some { 1 ≤ length dirs.now }
        requires limit { length dirs.now ≤ 64 }
        ensures volumes { IfOk result (λ disks. ⟦<OsDisks as PoolDisks>⟧.volume_count disks ≡ length dirs.now) }
    {
        let alloc = rt.alloc();
        let locks = locks.clone()?;
        let roots = pool_roots(alloc, pool, dirs)?;
        let longest = longest_path(roots.as_slice());
        let path = String::with_capacity(alloc, longest)?;
        let other = String::with_capacity(alloc, longest)?;
        let way = SeenWay::with_capacity(alloc, longest)?;
        let is_unmade = !(locks.are_held() && make_all(&rt, roots.as_slice(), dirs));
        Ok(OsDisks {
            rt,
            locks,
            roots,
            path,
            other,
            way,
            sizes: ListedSizes::none(alloc),
            next_number: 0,
            faults: 0,
            absences: 0,
            is_unmade,
        })
    }

    /// Forgets what listings saw.
    fn forget(&mut self)
        ensures rest { self.new ≡ record self.old { way = self.new.way; sizes = self.new.sizes } }
    {
        self.way.forget();
        self.sizes.forget();
    }

    /// Counts a call that failed.
    fn fail(&mut self) -> Failed
        ensures rose { Rose self.old.faults self.new.faults }
        ensures later { self.old.faults ≤ self.new.faults }
        ensures rest { self.new ≡ record self.old { faults = self.new.faults } }
    {
        self.faults = self.faults.saturating_add(1);
        Failed
    }

    /// Counts a call that failed, of those that may want memory too.
    fn fail_disk(&mut self) -> DiskError
        ensures rose { Rose self.old.faults self.new.faults }
        ensures later { self.old.faults ≤ self.new.faults }
        ensures rest { self.new ≡ record self.old { faults = self.new.faults } }
        ensures failed { result ≡ DiskError.Failed }
    {
        self.fail();
        DiskError::Failed
    }

    /// Puts the real path of a pool's file into `path`, and answers from which byte on the path is the pool's. It takes
    /// no memory beyond that of the buffer. Where there is no path, that is counted as a call that failed.
    fn locate(&mut self, vol: u8, path: &str) -> Result<usize, Failed>
        ensures cause { HasCause self.old.faults self.new.faults (IsErr result) }
        ensures ok { OnOk result (self.new.faults ≡ self.old.faults) }
        ensures held { OnOk result (length (arc_value self.old.locks).locked.items ≡ (arc_value self.old.locks).volumes) }
        ensures rest { self.new ≡ record self.old { path = self.new.path; faults = self.new.faults } }
    {
        let joined = join(
            &mut self.path,
            &self.locks,
            self.roots.as_slice(),
            vol,
            path,
        );
        match joined {
            Ok(below) => Ok(below),
            Err(Failed) => Err(self.fail()),
        }
    }
}

impl PoolDisks for OsDisks {
    type Sealed = OsSealed;

    type Draft = OsDraft;

    type Reader = OsReader;

    ghost worlds = { λ d. None };

    ghost moment = { λ d. 0 };

    ghost left_since = { λ d t image. ⊥ };

    ghost faults = { λ d. d.faults };

    ghost absences = { λ d. d.absences };

    ghost next_number = { λ d. d.next_number };

    ghost volume_count = { λ d. length d.roots.items };

    ghost is_disk = { λ d. untold_is_disk d.next_number };

    ghost within = { λ d. untold_stands_within (length d.roots.items) };

    ghost counts_now = { λ d t image early leaves. untold_leaves_nothing image leaves };

    ghost only_now = { λ d image left. absurd left };

    fn volumes(&self) -> u8 {
        self.roots.len() as u8
    }

    fn list(&mut self, alloc: Global, vol: u8, dir: &str) -> Result<Names, DiskError> {
        let is_unmade = mem::replace(&mut self.is_unmade, false);
        let Ok(below) = self.locate(vol, dir) else {
            return Err(DiskError::Failed);
        };
        if is_unmade {
            return Err(self.fail_disk());
        }
        match files_in(&self.rt, alloc, &mut self.way, self.path.as_str(), below) {
            Ok(mut files) => {
                files.sort_unstable();
                self.sizes.see(self.path.as_str(), files.as_slice())?;
                Ok(in_order(alloc, files.as_slice())?)
            }
            Err(error) if error.kind() == ErrorKind::OutOfMemory => Err(DiskError::Memory),
            Err(_) => Err(self.fail_disk()),
        }
    }

    fn size(&mut self, vol: u8, path: &str) -> Result<Option<u64>, Failed> {
        let below = self.locate(vol, path)?;
        if let Some(len) = self.sizes.size(self.path.as_str()) {
            return Ok(Some(len));
        }
        match self.way.find(&self.rt, self.path.as_str(), below) {
            Ok(Some(metadata)) => Ok(Some(metadata.len())),
            Ok(None) => {
                self.absences = self.absences.saturating_add(1);
                Ok(None)
            }
            Err(_) => Err(self.fail()),
        }
    }

    fn lend_reader(
        &mut self,
        _alloc: Global,
        vol: u8,
        path: &str,
    ) -> Result<Option<OsReader>, DiskError> {
        let number = self.next_number;
        self.forget();
        let Ok(below) = self.locate(vol, path) else {
            return Err(DiskError::Failed);
        };
        if number == u64::MAX {
            return Err(self.fail_disk());
        }
        match kinds::open_file(&self.rt, self.path.as_str(), below) {
            Ok(Some(file)) => {
                self.next_number += 1;
                Ok(Some(OsReader {
                    number,
                    file,
                    faults: 0,
                }))
            }
            Ok(None) => {
                self.absences = self.absences.saturating_add(1);
                Ok(None)
            }
            Err(_) => Err(self.fail_disk()),
        }
    }

    fn create(&mut self, alloc: Global, vol: u8, path: &str) -> Result<OsDraft, DiskError> {
        let number = self.next_number;
        self.forget();
        let Ok(below) = self.locate(vol, path) else {
            return Err(DiskError::Failed);
        };
        if number == u64::MAX {
            return Err(self.fail_disk());
        }
        let path = String::from_str(alloc, path)?;
        let Ok(file) = durable::create(&self.rt, self.path.as_str(), below) else {
            return Err(self.fail_disk());
        };
        self.next_number += 1;
        Ok(OsDraft {
            place: OsSealed { number, vol, path },
            file,
            faults: 0,
        })
    }

    fn publish(&mut self, sealed: OsSealed, path: &str) -> Result<(), Failed> {
        self.forget();
        let OsSealed {
            vol,
            path: from,
            ..
        } = sealed;
        let below = self.locate(vol, from.as_str())?;
        if join(
            &mut self.other,
            &self.locks,
            self.roots.as_slice(),
            vol,
            path,
        )
        .is_err()
            || durable::rename(&self.rt, self.path.as_str(), self.other.as_str(), below).is_err()
        {
            return Err(self.fail());
        }
        Ok(())
    }

    fn remove(&mut self, vol: u8, path: &str) -> Result<(), Failed> {
        self.forget();
        let below = self.locate(vol, path)?;
        if durable::remove(&self.rt, self.path.as_str(), below).is_err() {
            return Err(self.fail());
        }
        Ok(())
    }
}

#[cfg(test)]
mod tests;
