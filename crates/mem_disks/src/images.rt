//! What a crash leaves of disks in memory.
ghost use Rattle.std.specs.Prelude.{◌≡◌, ◌≤◌, ◌-◌, ℕ, List, true, false, Some, None, OnOk, IfOk, IfSome, MatchOption, option_map};
ghost use Rattle.disk_model.specs.Worlds.{World};
ghost use Rattle.mem_disks.specs.History.{fork_after, changed, volume_of, numbers_end, IsOnVolume};
ghost use Rattle.mem_disks.specs.Images.{left_of, counted_done, IsImageOf, TakesOver};

use crate::history::Change;
use crate::shelves::shelf_of;
use crate::standing::Standing;
use crate::store::Store;
use std::alloc::{AllocError, Global};

// What a change that was done leaves, where a crash leaves these bytes at the path of each draft.
fn left_by(alloc: Global, change: &Change, fill: &[u8]) -> Result<Change, AllocError>
    ensures volume { IfOk result (λ left. volume_of left ≡ volume_of change.now) }
    ensures number { IfOk result (λ left. numbers_end left ≡ 0) }
    ensures left { IfOk result (λ left. (world image : World) → IsImageOf world fill.now image → IsImageOf (changed world change.now) fill.now (changed image left)) }
{
    match change {
        Change::Created { vol, path, .. } => Ok(Change::Put {
            vol: *vol,
            path: path.clone()?,
            bytes: fill.to_vec(alloc)?,
        }),
        Change::Published {
            vol,
            path,
            bytes,
            target,
        } => Ok(Change::Published {
            vol: *vol,
            path: path.clone()?,
            bytes: bytes.to_vec(alloc)?,
            target: target.clone()?,
        }),
        Change::Removed { vol, path } => Ok(Change::Removed {
            vol: *vol,
            path: path.clone()?,
        }),
        Change::Put { vol, path, bytes } => Ok(Change::Put {
            vol: *vol,
            path: path.clone()?,
            bytes: bytes.to_vec(alloc)?,
        }),
    }
}

impl Store {
    // The bytes that a crash leaves at a place, where no open call was done and these bytes stand for a draft's.
    fn left_at<'a>(&'a self, vol: u8, path: &str, fill: &'a [u8]) -> Option<&'a [u8]>
        requires low { 1 ≤ vol }
        requires high { vol ≤ self.now.volume_count }
        ensures { option_map (λ bytes. bytes.now) result ≡ left_of (fork_after self.now.records.items).now fill.now vol path.now }
    {
        match self.find(vol, path) {
            Standing::Absent => None,
            Standing::Draft => Some(fill),
            Standing::File(bytes) => Some(bytes),
        }
    }

    // Settles in an image what a crash leaves on a volume.
    fn leave_volume(&self, vol: u8, fill: &[u8], image: &mut Store) -> Result<(), AllocError>
        requires low { 1 ≤ vol }
        requires high { vol ≤ self.now.volume_count }
        requires volumes { image.old.volume_count ≡ self.now.volume_count }
        requires before { TakesOver (left_of (fork_after self.now.records.items).now fill.now) (λ v path. (1 ≤ v) × (v ≤ vol - 1)) (fork_after image.old.records.items).now }
        ensures left { OnOk result (TakesOver (left_of (fork_after self.now.records.items).now fill.now) (λ v path. (1 ≤ v) × (v ≤ vol)) (fork_after image.new.records.items).now) }
        ensures closed { image.old.is_open ≡ false → image.new.is_open ≡ false }
        ensures numbers { image.new.next_number ≡ image.old.next_number }
        ensures volumes { image.new.volume_count ≡ image.old.volume_count }
    {
        for (path, _) in shelf_of(&self.shelves, vol) {
            match self.left_at(vol, path.as_str(), fill) {
                Some(bytes) => image.put(vol, path.as_str(), bytes)?,
                None => {}
            }
        }
        Ok(())
    }

    // What a crash leaves where no open call was done.
    fn leave_files(&self, alloc: Global, fill: &[u8]) -> Result<Store, AllocError>
        ensures left { IfOk result (λ image. IsImageOf (fork_after self.now.records.items).now fill.now (fork_after image.records.items).now) }
        ensures closed { IfOk result (λ image. image.is_open ≡ false) }
        ensures numbers { IfOk result (λ image. image.next_number ≡ 0) }
        ensures volumes { IfOk result (λ image. image.volume_count ≡ self.now.volume_count) }
    {
        let mut image = Store::make(alloc, self.volume_count)?;
        for index in 0..self.volume_count {
            self.leave_volume(index + 1, fill, &mut image)?;
        }
        Ok(image)
    }

    // The change of the open call.
    fn open_change(&self) -> Option<&Change>
        ensures placed { IfSome result (λ change. IsOnVolume self.now.volume_count change.now) }
        ensures does { MatchOption result
            (counted_done self.now.is_open (fork_after self.now.records.items) ≡ (fork_after self.now.records.items).now)
            (λ change. counted_done self.now.is_open (fork_after self.now.records.items) ≡ changed (fork_after self.now.records.items).now change.now) }
    {
        if !self.is_open {
            return None;
        }
        let last = self.records.last()?;
        if last.done {
            return None;
        }
        Some(&last.change)
    }

    /// What a crash leaves, where the open call was done or not and these bytes stand at the path of each draft.
    pub fn image(&self, alloc: Global, done: bool, fill: &[u8]) -> Result<Store, AllocError>
        ensures left { IfOk result (λ image. done ≡ false → IsImageOf (fork_after self.now.records.items).now fill.now (fork_after image.records.items).now) }
        ensures left_done { IfOk result (λ image. done ≡ true → IsImageOf (counted_done self.now.is_open (fork_after self.now.records.items)) fill.now (fork_after image.records.items).now) }
        ensures closed { IfOk result (λ image. image.is_open ≡ false) }
        ensures numbers { IfOk result (λ image. image.next_number ≡ 0) }
        ensures volumes { IfOk result (λ image. image.volume_count ≡ self.now.volume_count) }
    {
        let mut image = self.leave_files(alloc, fill)?;
        if !done {
            return Ok(image);
        }
        let Some(change) = self.open_change() else {
            return Ok(image);
        };
        image.carry_out(left_by(alloc, change, fill)?, 0)?;
        Ok(image)
    }
}
