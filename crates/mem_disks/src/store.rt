//! What disks in memory hold: the calls of names in their order, and the names of each volume.
ghost use Rattle.std.specs.Prelude.{◌≡◌, ◌+◌, ◌-◌, ◌^◌, ◌<◌, ◌≤◌, [], length, All, List, ℕ, Some, None, true, false, IfOk, OnOk, OnErr, IsOk, string_bytes};
ghost use Rattle.std.proofs.Props.{props};
ghost use Rattle.disk_model.specs.Worlds.{World, draft_at, created, removed, settled_at, published, has_draft, IsListing};
ghost use Rattle.disk_model.specs.Told.{CanLeave, PicksOne, StandsBeforeOrAfter};
ghost use Rattle.disk_model.specs.Moments.{Elapses};
ghost use Rattle.mem_disks.specs.Shelves.{held, Same};
ghost use Rattle.mem_disks.specs.History.{fork_after, changed, numbers_end, IsOnVolume, Records, Stays, Opens, told, moment_of, LeftSince};
ghost use Rattle.mem_disks.specs.Entries.{bytes_in, bytes_at, ShowsDrafts, ShowsFiles, ReadsWithin, Follows};
ghost use Rattle.mem_disks.specs.Standing.{StandsAs};

use crate::drafts::MemSealed;
use crate::history::{Change, Recorded};
use crate::listing::names_of;
use crate::shelves::{
    Entry, Shelf, empty_shelves, entry_at, move_entry, put_entry, shelf_of, take_entry,
};
use crate::standing::Standing;
use disk_model::Names;
use std::alloc::{AllocError, Global};

/// The disks of one block pool, in memory.
#[derive(Drop)]
pub struct Store {
    pub alloc: Global,
    pub volume_count: u8,
    pub records: Vec<Recorded>,
    pub is_open: bool,
    pub shelves: Vec<Shelf>,
    pub next_number: u64,
    ghost some: { 1 ≤ volume_count },
    ghost limit: { volume_count ≤ 64 },
    ghost numbered: { All (λ recorded. numbers_end recorded.change ≤ next_number) records.items },
    ghost placed: { All (λ recorded. IsOnVolume volume_count recorded.change) records.items },
    ghost each: { length shelves.items ≡ volume_count },
    ghost drafts: { ShowsDrafts volume_count records.items shelves.items },
    ghost files: { ShowsFiles volume_count records.items shelves.items } by { Prim.hlevel props },
    ghost reads: { ReadsWithin records.items shelves.items },
}

// The bytes that a change settles.
fn bytes_in(change: &Change) -> &[u8]
    ensures { result.now ≡ bytes_in change.now }
{
    match change {
        Change::Published { bytes, .. } | Change::Put { bytes, .. } => bytes.as_slice(),
        Change::Created { .. } | Change::Removed { .. } => &[],
    }
}

// The bytes that the record of an index settled.
fn bytes_at(records: &[Recorded], index: usize) -> &[u8]
    ensures { result.now ≡ bytes_at records.now index }
{
    if index < records.len() {
        bytes_in(&records[index].change)
    } else {
        &[]
    }
}

// The names follow a change, which is recorded at this index. Want of memory changes nothing.
fn follow(shelves: &mut [Shelf], change: &Change, index: usize) -> Result<(), AllocError>
    requires { IsOnVolume (length shelves.old) change.now }
    ensures ok { OnOk result (Follows change.now index shelves.old shelves.new) }
    ensures err { OnErr result (Same shelves.old shelves.new) }
{
    match change {
        Change::Created { vol, path, .. } => put_entry(shelves, *vol, path.clone()?, Entry::Draft),
        Change::Put { vol, path, .. } => put_entry(
            shelves,
            *vol,
            path.clone()?,
            Entry::File(index),
        ),
        Change::Published {
            vol,
            path,
            target,
            ..
        } => move_entry(
            shelves,
            *vol,
            path.as_str(),
            target.clone()?,
            Entry::File(index),
        ),
        Change::Removed { vol, path } => {
            take_entry(shelves, *vol, path.as_str());
            Ok(())
        }
    }
}

impl Store {
    /// Empty disks of 1 to 64 volumes.
    pub fn make(alloc: Global, volume_count: u8) -> Result<Store, AllocError>
        requires some { 1 ≤ volume_count }
        requires limit { volume_count ≤ 64 }
        ensures records { IfOk result (λ store. store.records.items ≡ []) }
        ensures is_open { IfOk result (λ store. store.is_open ≡ false) }
        ensures number { IfOk result (λ store. store.next_number ≡ 0) }
        ensures volumes { IfOk result (λ store. store.volume_count ≡ volume_count) }
    {
        let shelves = empty_shelves(alloc, volume_count)?;
        Ok(Store {
            alloc,
            volume_count,
            records: Vec::new(alloc),
            is_open: false,
            shelves,
            next_number: 0,
        })
    }

    /// What stands at a place, where open calls count as not done.
    pub fn find(&self, vol: u8, path: &str) -> Standing<'_>
        requires low { 1 ≤ vol }
        requires high { vol ≤ self.now.volume_count }
        ensures { StandsAs (fork_after self.now.records.items).now vol path.now result }
    {
        match entry_at(&self.shelves, vol, path) {
            None => Standing::Absent,
            Some(Entry::Draft) => Standing::Draft,
            Some(Entry::File(index)) => Standing::File(bytes_at(&self.records, index)),
        }
    }

    /// A call answered Ok: the open ones count as not done from now on.
    pub fn answer(&mut self)
        ensures records { self.new.records.items ≡ self.old.records.items }
        ensures is_open { self.new.is_open ≡ false }
        ensures number { self.new.next_number ≡ self.old.next_number }
        ensures volumes { self.new.volume_count ≡ self.old.volume_count }
    {
        self.is_open = false;
    }

    /// A change is done, and the numbers go on. Want of memory changes nothing.
    pub fn carry_out(&mut self, change: Change, next_number: u64) -> Result<(), AllocError>
        requires placed { IsOnVolume self.old.volume_count change }
        requires numbered { numbers_end change ≤ next_number }
        requires later { self.old.next_number ≤ next_number }
        ensures ok { OnOk result (Records true (λ world. changed world change) self.old.records.items self.new.records.items) }
        ensures closed { OnOk result (self.new.is_open ≡ false) }
        ensures picks { OnOk result (PicksOne (λ world. Unit {0}) (λ world. changed world change) (Some (told self.old.is_open self.old.records.items)) (Some (told self.new.is_open self.new.records.items))) }
        ensures worlds { StandsBeforeOrAfter (λ world. changed world change) (Some (told self.old.is_open self.old.records.items)) (Some (told self.new.is_open self.new.records.items)) }
        ensures time { Elapses (moment_of self.old.is_open (length self.old.records.items)) (moment_of self.new.is_open (length self.new.records.items))
            (λ t image. LeftSince self.old.records.items t image) (λ t image. LeftSince self.new.records.items t image) (CanLeave (Some (told self.new.is_open self.new.records.items))) }
        ensures number { OnOk result (self.new.next_number ≡ next_number) }
        ensures err { OnErr result (Stays self.old.records.items self.new.records.items self.old.is_open self.new.is_open self.old.next_number self.new.next_number) }
        ensures volumes { self.new.volume_count ≡ self.old.volume_count }
    {
        self.records.reserve(1)?;
        let index = self.records.len();
        follow(&mut self.shelves, &change, index)?;
        self.records.push(Recorded { change, done: true }).unwrap();
        self.is_open = false;
        self.next_number = next_number;
        Ok(())
    }

    /// Settles a file from outside. Want of memory changes nothing.
    pub fn put(&mut self, vol: u8, path: &str, bytes: &[u8]) -> Result<(), AllocError>
        requires low { 1 ≤ vol }
        requires high { vol ≤ self.old.volume_count }
        ensures ok { OnOk result (Records true (settled_at vol path.now bytes.now) self.old.records.items self.new.records.items) }
        ensures closed { OnOk result (self.new.is_open ≡ false) }
        ensures picks { OnOk result (PicksOne (λ world. Unit {0}) (settled_at vol path.now bytes.now) (Some (told self.old.is_open self.old.records.items)) (Some (told self.new.is_open self.new.records.items))) }
        ensures err { OnErr result (Stays self.old.records.items self.new.records.items self.old.is_open self.new.is_open self.old.next_number self.new.next_number) }
        ensures numbers { self.new.next_number ≡ self.old.next_number }
        ensures volumes { self.new.volume_count ≡ self.old.volume_count }
    {
        let path = String::from_str(self.alloc, path)?;
        let bytes = bytes.to_vec(self.alloc)?;
        let next_number = self.next_number;
        self.carry_out(Change::Put { vol, path, bytes }, next_number)
    }

    /// The call of a change failed: it is open, unless an earlier one is. Want of memory changes nothing.
    pub fn leave_open(&mut self, change: Change, next_number: u64) -> Result<(), AllocError>
        requires placed { IsOnVolume self.old.volume_count change }
        requires numbered { numbers_end change ≤ next_number }
        requires later { self.old.next_number ≤ next_number }
        ensures worlds { StandsBeforeOrAfter (λ world. changed world change) (Some (told self.old.is_open self.old.records.items)) (Some (told self.new.is_open self.new.records.items)) }
        ensures time { Elapses (moment_of self.old.is_open (length self.old.records.items)) (moment_of self.new.is_open (length self.new.records.items))
            (λ t image. LeftSince self.old.records.items t image) (λ t image. LeftSince self.new.records.items t image) (CanLeave (Some (told self.new.is_open self.new.records.items))) }
        ensures later_one { self.old.is_open ≡ true → Stays self.old.records.items self.new.records.items self.old.is_open self.new.is_open self.old.next_number self.new.next_number }
        ensures first { self.old.is_open ≡ false → OnOk result (Opens (λ world. changed world change) self.old.records.items self.new.records.items self.new.is_open self.new.next_number next_number) }
        ensures err { OnErr result (Stays self.old.records.items self.new.records.items self.old.is_open self.new.is_open self.old.next_number self.new.next_number) }
        ensures volumes { self.new.volume_count ≡ self.old.volume_count }
    {
        if self.is_open {
            return Ok(());
        }
        self.records.push(Recorded {
            change,
            done: false,
        })?;
        self.is_open = true;
        self.next_number = next_number;
        Ok(())
    }

    /// A reader was lent: the open calls count as not done from now on, and its number is used up.
    pub fn answer_with_number(&mut self)
        requires { self.old.next_number < 2 ^ 64 - 1 }
        ensures records { self.new.records.items ≡ self.old.records.items }
        ensures is_open { self.new.is_open ≡ false }
        ensures number { self.new.next_number ≡ self.old.next_number + 1 }
        ensures volumes { self.new.volume_count ≡ self.old.volume_count }
    {
        self.is_open = false;
        self.next_number += 1;
    }

    /// The names of the files and drafts of a directory, where open calls count as not done.
    pub fn names(&self, alloc: Global, vol: u8, dir: &str) -> Result<Names, AllocError>
        requires low { 1 ≤ vol }
        requires high { vol ≤ self.now.volume_count }
        ensures { IfOk result (λ names. IsListing (fork_after self.now.records.items).now vol dir.now names) }
    {
        names_of(alloc, shelf_of(&self.shelves, vol), dir)
    }
}
