//! The disks of one block pool, in memory.
ghost use Rattle.std.specs.Prelude.{◌≡◌, ◌+◌, ◌-◌, ◌^◌, ◌<◌, ◌≤◌, [], ◌∷◌, length, Some, None, List, ℕ, true, false, IfOk, OnOk, OnErr, option_map, string_bytes, replicate, min};
ghost use Rattle.disk_model.specs.Files.{Files};
ghost use Rattle.disk_model.specs.Worlds.{World, draft_at, created, removed, settled_at, published};
ghost use Rattle.disk_model.specs.Told.{CanLeave, IsFresh, PicksOne, StandsBeforeOrAfter};
ghost use Rattle.disk_model.specs.Moments.{Elapses};
ghost use Rattle.disk_model.specs.Causes.{Rose, GivesAtMostOne};
ghost use Rattle.mem_disks.specs.History.{empty_world, changed, told, HoldsFirst, moment_of, LeftSince, numbers_end, IsOnVolume, Opens};
ghost use Rattle.mem_disks.specs.Images.{left_of, only_files, counted};
ghost use Rattle.mem_disks.specs.HistoryLaws.{history_is_disk, history_within, history_counts_now, history_only_now};

use crate::drafts::{MemDraft, MemReader, MemSealed};
use crate::history::Change;
use crate::rules::{Call, FailRule, Rules};
use crate::standing::Standing;
use crate::store::Store;
use disk_model::{DiskError, Failed, Names, PoolDisks};
use std::alloc::{AllocError, Global};

/// The disks of one block pool, in memory.
///
/// They hold what was settled and drafted, fail where a rule says so, and show what a crash leaves of them. A call of
/// names that failed is open until a call answers Ok, which takes all open ones as not done.
#[derive(Drop)]
pub struct MemDisks {
    store: Store,
    rules: Rules,
    faults: u64,
    absences: u64,
    lacks: u64,
    ghost counted: { lacks ≤ faults },
}

// One more, where there was no memory.
fn more_if_err(count: u64, outcome: Result<(), AllocError>) -> u64
    ensures rose { OnErr outcome (Rose count result) }
    ensures most { OnErr outcome (result ≤ min (count + 1) (2 ^ 64 - 1)) }
    ensures same { OnOk outcome (result ≡ count) }
{
    match outcome {
        Ok(()) => count,
        Err(_) => count.saturating_add(1),
    }
}

impl MemDisks {
    /// Empty disks of 1 to 64 volumes, without rules.
    pub fn empty(alloc: Global, volumes: u8) -> Result<MemDisks, AllocError>
        requires some { 1 ≤ volumes }
        requires limit { volumes ≤ 64 }
        ensures empty { IfOk result (λ disks. ⟦<MemDisks as PoolDisks>⟧.worlds disks ≡ Some (empty_world ∷ [])) }
        ensures volumes { IfOk result (λ disks. ⟦<MemDisks as PoolDisks>⟧.volume_count disks ≡ volumes) }
        ensures fresh { IfOk result (λ disks. ⟦<MemDisks as PoolDisks>⟧.faults disks ≡ 0) }
    {
        Ok(MemDisks {
            store: Store::make(alloc, volumes)?,
            rules: Rules::none(alloc),
            faults: 0,
            absences: 0,
            lacks: 0,
        })
    }

    /// Settles a file from outside, in place of a file or a draft there. It is no call of the disks, so no rule names
    /// it. Open calls count as not done from then on. Want of memory changes nothing.
    pub fn put(&mut self, vol: u8, path: &str, bytes: &[u8]) -> Result<(), AllocError>
        requires low { 1 ≤ vol }
        requires high { vol ≤ ⟦<MemDisks as PoolDisks>⟧.volume_count self.old }
        ensures ok { OnOk result (PicksOne (λ world. Unit {0}) (settled_at vol path.now bytes.now)
            (⟦<MemDisks as PoolDisks>⟧.worlds self.old) (⟦<MemDisks as PoolDisks>⟧.worlds self.new)) }
        ensures err { OnErr result (⟦<MemDisks as PoolDisks>⟧.worlds self.new ≡ ⟦<MemDisks as PoolDisks>⟧.worlds self.old) }
        ensures faults { ⟦<MemDisks as PoolDisks>⟧.faults self.new ≡ ⟦<MemDisks as PoolDisks>⟧.faults self.old }
        ensures absences { ⟦<MemDisks as PoolDisks>⟧.absences self.new ≡ ⟦<MemDisks as PoolDisks>⟧.absences self.old }
        ensures numbers { ⟦<MemDisks as PoolDisks>⟧.next_number self.new ≡ ⟦<MemDisks as PoolDisks>⟧.next_number self.old }
        ensures volumes { ⟦<MemDisks as PoolDisks>⟧.volume_count self.new ≡ ⟦<MemDisks as PoolDisks>⟧.volume_count self.old }
    {
        self.store.put(vol, path, bytes)
    }

    /// One more rule, which counts calls since the disks were made. Drafts and readers that are made already don't
    /// follow it. Want of memory changes nothing.
    pub fn fail(&mut self, rule: FailRule) -> Result<(), AllocError>
        ensures worlds { ⟦<MemDisks as PoolDisks>⟧.worlds self.new ≡ ⟦<MemDisks as PoolDisks>⟧.worlds self.old }
        ensures faults { ⟦<MemDisks as PoolDisks>⟧.faults self.new ≡ ⟦<MemDisks as PoolDisks>⟧.faults self.old }
        ensures absences { ⟦<MemDisks as PoolDisks>⟧.absences self.new ≡ ⟦<MemDisks as PoolDisks>⟧.absences self.old }
        ensures numbers { ⟦<MemDisks as PoolDisks>⟧.next_number self.new ≡ ⟦<MemDisks as PoolDisks>⟧.next_number self.old }
        ensures volumes { ⟦<MemDisks as PoolDisks>⟧.volume_count self.new ≡ ⟦<MemDisks as PoolDisks>⟧.volume_count self.old }
    {
        self.rules.add(rule)
    }

    /// The bytes of a settled file, where open calls count as not done.
    pub fn bytes(&self, vol: u8, path: &str) -> Option<&[u8]>
        requires low { 1 ≤ vol }
        requires high { vol ≤ ⟦<MemDisks as PoolDisks>⟧.volume_count self.now }
        ensures { HoldsFirst (⟦<MemDisks as PoolDisks>⟧.worlds self.now) vol path.now (option_map (λ bytes. bytes.now) result) }
    {
        match self.store.find(vol, path) {
            Standing::File(bytes) => Some(bytes),
            Standing::Draft | Standing::Absent => None,
        }
    }

    /// Fresh disks without rules, as an image that is opened again: what a crash leaves of these disks, with `len` bytes
    /// of `fill` at the path of each draft. Where a call is open it counts as done or not, and each later call that failed
    /// since then as not done.
    pub fn image(
        &self,
        alloc: Global,
        done: bool,
        fill: u8,
        len: u64,
    ) -> Result<MemDisks, AllocError>
        // Of the worlds that are told, the first is the one where no open call was done.
        ensures image { IfOk result (λ disks. (world : World) (others : List World) → ⟦<MemDisks as PoolDisks>⟧.worlds self.now ≡ Some (world ∷ others)
            → ⟦<MemDisks as PoolDisks>⟧.worlds disks ≡ Some (only_files (left_of (counted done world others) (replicate len fill)))) }
        ensures can_leave { IfOk result (λ disks. (files : Files) → ⟦<MemDisks as PoolDisks>⟧.worlds disks ≡ Some (only_files files) → CanLeave (⟦<MemDisks as PoolDisks>⟧.worlds self.now) files) }
        ensures fresh { IfOk result (λ disks. IsFresh (⟦<MemDisks as PoolDisks>⟧.worlds disks)) }
        ensures faults { IfOk result (λ disks. ⟦<MemDisks as PoolDisks>⟧.faults disks ≡ 0) }
        ensures absences { IfOk result (λ disks. ⟦<MemDisks as PoolDisks>⟧.absences disks ≡ 0) }
        ensures numbers { IfOk result (λ disks. ⟦<MemDisks as PoolDisks>⟧.next_number disks ≡ 0) }
        ensures volumes { IfOk result (λ disks. ⟦<MemDisks as PoolDisks>⟧.volume_count disks ≡ ⟦<MemDisks as PoolDisks>⟧.volume_count self.now) }
    {
        let filling = vec![in alloc; fill; len as usize]?;
        Ok(MemDisks {
            store: self.store.image(alloc, done, &filling)?,
            rules: Rules::none(alloc),
            faults: 0,
            absences: 0,
            lacks: 0,
        })
    }

    /// How often the disks failed.
    pub fn faults(&self) -> u64
        ensures { result ≡ ⟦<MemDisks as PoolDisks>⟧.faults self.now }
    {
        self.faults
    }

    /// How often a call that has no answer for want of memory found none for its own record, and failed.
    pub fn lacks(&self) -> u64
        ensures { result ≤ ⟦<MemDisks as PoolDisks>⟧.faults self.now }
    {
        self.lacks
    }

    // A call of names failed, which is open from now on unless an earlier one is.
    fn leave_open(&mut self, change: Change, next_number: u64)
        requires placed { IsOnVolume self.old.store.volume_count change }
        requires numbered { numbers_end change ≤ next_number }
        requires later { self.old.store.next_number ≤ next_number }
        ensures worlds { StandsBeforeOrAfter (λ world. changed world change) (Some (told self.old.store.is_open self.old.store.records.items)) (Some (told self.new.store.is_open self.new.store.records.items)) }
        ensures time { Elapses (moment_of self.old.store.is_open (length self.old.store.records.items)) (moment_of self.new.store.is_open (length self.new.store.records.items))
            (λ t image. LeftSince self.old.store.records.items t image) (λ t image. LeftSince self.new.store.records.items t image) (CanLeave (Some (told self.new.store.is_open self.new.store.records.items))) }
        ensures opens { self.old.store.is_open ≡ false → self.old.lacks < 2 ^ 64 - 1 → self.new.lacks ≡ self.old.lacks
            → Opens (λ world. changed world change) self.old.store.records.items self.new.store.records.items self.new.store.is_open self.new.store.next_number next_number }
        ensures rose { Rose self.old.faults self.new.faults }
        ensures later { self.old.faults ≤ self.new.faults }
        ensures absences { self.new.absences ≡ self.old.absences }
        ensures number_later { self.old.store.next_number ≤ self.new.store.next_number }
        ensures number_within { self.new.store.next_number ≤ next_number }
        ensures volumes { self.new.store.volume_count ≡ self.old.store.volume_count }
    {
        let left = self.store.leave_open(change, next_number);
        self.lacks = more_if_err(self.lacks, left);
        self.faults = self.faults.saturating_add(1);
    }
}

impl MemDisks {
    // A creation failed.
    fn leave_created(&mut self, vol: u8, path: &str)
        requires low { 1 ≤ vol }
        requires high { vol ≤ self.old.store.volume_count }
        ensures worlds { StandsBeforeOrAfter (created (draft_at self.old.store.next_number vol path.now)) (Some (told self.old.store.is_open self.old.store.records.items)) (Some (told self.new.store.is_open self.new.store.records.items)) }
        ensures time { Elapses (moment_of self.old.store.is_open (length self.old.store.records.items)) (moment_of self.new.store.is_open (length self.new.store.records.items))
            (λ t image. LeftSince self.old.store.records.items t image) (λ t image. LeftSince self.new.store.records.items t image) (CanLeave (Some (told self.new.store.is_open self.new.store.records.items))) }
        ensures opens { self.old.store.is_open ≡ false → self.old.store.next_number < 2 ^ 64 - 1 → self.old.lacks < 2 ^ 64 - 1 → self.new.lacks ≡ self.old.lacks
            → Opens (created (draft_at self.old.store.next_number vol path.now)) self.old.store.records.items self.new.store.records.items self.new.store.is_open self.new.store.next_number (self.old.store.next_number + 1) }
        ensures rose { Rose self.old.faults self.new.faults }
        ensures later { self.old.faults ≤ self.new.faults }
        ensures absences { self.new.absences ≡ self.old.absences }
        ensures numbers { GivesAtMostOne self.old.store.next_number self.new.store.next_number }
        ensures volumes { self.new.store.volume_count ≡ self.old.store.volume_count }
    {
        let number = self.store.next_number;
        if number == u64::MAX {
            self.faults = self.faults.saturating_add(1);
            return;
        }
        match String::from_str(self.store.alloc, path) {
            Ok(path) => self.leave_open(Change::Created { number, vol, path }, number + 1),
            Err(_) => self.lack(),
        }
    }

    // A call failed that found no memory for its own record.
    fn lack(&mut self)
        ensures store { self.new.store ≡ self.old.store }
        ensures lacks { Rose self.old.lacks self.new.lacks }
        ensures rose { Rose self.old.faults self.new.faults }
        ensures later { self.old.faults ≤ self.new.faults }
        ensures absences { self.new.absences ≡ self.old.absences }
    {
        self.lacks = self.lacks.saturating_add(1);
        self.faults = self.faults.saturating_add(1);
    }

    // A publish failed.
    fn leave_published(&mut self, sealed: MemSealed, path: &str)
        requires low { 1 ≤ sealed.vol }
        requires high { sealed.vol ≤ self.old.store.volume_count }
        ensures worlds { StandsBeforeOrAfter (published (draft_at sealed.number sealed.vol (string_bytes sealed.path)) sealed.bytes.items path.now) (Some (told self.old.store.is_open self.old.store.records.items)) (Some (told self.new.store.is_open self.new.store.records.items)) }
        ensures time { Elapses (moment_of self.old.store.is_open (length self.old.store.records.items)) (moment_of self.new.store.is_open (length self.new.store.records.items))
            (λ t image. LeftSince self.old.store.records.items t image) (λ t image. LeftSince self.new.store.records.items t image) (CanLeave (Some (told self.new.store.is_open self.new.store.records.items))) }
        ensures opens { self.old.store.is_open ≡ false → self.old.lacks < 2 ^ 64 - 1 → self.new.lacks ≡ self.old.lacks
            → Opens (published (draft_at sealed.number sealed.vol (string_bytes sealed.path)) sealed.bytes.items path.now) self.old.store.records.items self.new.store.records.items self.new.store.is_open self.new.store.next_number self.old.store.next_number }
        ensures rose { Rose self.old.faults self.new.faults }
        ensures later { self.old.faults ≤ self.new.faults }
        ensures absences { self.new.absences ≡ self.old.absences }
        ensures numbers { self.new.store.next_number ≡ self.old.store.next_number }
        ensures volumes { self.new.store.volume_count ≡ self.old.store.volume_count }
    {
        let next_number = self.store.next_number;
        match String::from_str(self.store.alloc, path) {
            Ok(target) => self.leave_open(
                Change::Published {
                    vol: sealed.vol,
                    path: sealed.path,
                    bytes: sealed.bytes,
                    target,
                },
                next_number,
            ),
            Err(_) => self.lack(),
        }
    }

    // A removal failed.
    fn leave_removed(&mut self, vol: u8, path: &str)
        requires low { 1 ≤ vol }
        requires high { vol ≤ self.old.store.volume_count }
        ensures worlds { StandsBeforeOrAfter (removed vol path.now) (Some (told self.old.store.is_open self.old.store.records.items)) (Some (told self.new.store.is_open self.new.store.records.items)) }
        ensures time { Elapses (moment_of self.old.store.is_open (length self.old.store.records.items)) (moment_of self.new.store.is_open (length self.new.store.records.items))
            (λ t image. LeftSince self.old.store.records.items t image) (λ t image. LeftSince self.new.store.records.items t image) (CanLeave (Some (told self.new.store.is_open self.new.store.records.items))) }
        ensures opens { self.old.store.is_open ≡ false → self.old.lacks < 2 ^ 64 - 1 → self.new.lacks ≡ self.old.lacks
            → Opens (removed vol path.now) self.old.store.records.items self.new.store.records.items self.new.store.is_open self.new.store.next_number self.old.store.next_number }
        ensures rose { Rose self.old.faults self.new.faults }
        ensures later { self.old.faults ≤ self.new.faults }
        ensures absences { self.new.absences ≡ self.old.absences }
        ensures numbers { self.new.store.next_number ≡ self.old.store.next_number }
        ensures volumes { self.new.store.volume_count ≡ self.old.store.volume_count }
    {
        let next_number = self.store.next_number;
        match String::from_str(self.store.alloc, path) {
            Ok(path) => self.leave_open(Change::Removed { vol, path }, next_number),
            Err(_) => self.lack(),
        }
    }
}

impl PoolDisks for MemDisks {
    type Sealed = MemSealed;

    type Draft = MemDraft;

    type Reader = MemReader;

    ghost worlds = { λ d. Some (told d.store.is_open d.store.records.items) };

    ghost moment = { λ d. moment_of d.store.is_open (length d.store.records.items) };

    ghost left_since = { λ d t image. LeftSince d.store.records.items t image };

    ghost faults = { λ d. d.faults };

    ghost absences = { λ d. d.absences };

    ghost next_number = { λ d. d.store.next_number };

    ghost volume_count = { λ d. d.store.volume_count };

    ghost is_disk = { λ d. history_is_disk d.store.is_open d.store.records.items d.store.next_number d.store.numbered };

    ghost counts_now = { λ d t image early leaves. history_counts_now d.store.is_open d.store.records.items t image early leaves };

    ghost only_now = { λ d image left. history_only_now d.store.is_open d.store.records.items image left };

    ghost within = { λ d. history_within d.store.is_open d.store.records.items d.store.volume_count d.store.placed };

    fn volumes(&self) -> u8 {
        self.store.volume_count
    }

    fn list(&mut self, alloc: Global, vol: u8, dir: &str) -> Result<Names, DiskError> {
        if self.rules.begin(Call::List) {
            self.faults = self.faults.saturating_add(1);
            return Err(DiskError::Failed);
        }
        let names = self.store.names(alloc, vol, dir)?;
        self.store.answer();
        Ok(names)
    }

    fn size(&mut self, vol: u8, path: &str) -> Result<Option<u64>, Failed> {
        if self.rules.begin(Call::Size) {
            self.faults = self.faults.saturating_add(1);
            return Err(Failed);
        }
        match self.store.find(vol, path) {
            Standing::File(bytes) => {
                let len = bytes.len() as u64;
                self.store.answer();
                Ok(Some(len))
            }
            Standing::Draft => {
                self.store.answer();
                Ok(Some(0))
            }
            Standing::Absent => {
                self.store.answer();
                self.absences = self.absences.saturating_add(1);
                Ok(None)
            }
        }
    }

    fn lend_reader(
        &mut self,
        alloc: Global,
        vol: u8,
        path: &str,
    ) -> Result<Option<MemReader>, DiskError> {
        if self.rules.begin(Call::Lend) {
            self.faults = self.faults.saturating_add(1);
            return Err(DiskError::Failed);
        }
        let bytes = match self.store.find(vol, path) {
            Standing::File(bytes) => bytes.to_vec(alloc)?,
            Standing::Absent => {
                self.store.answer();
                self.absences = self.absences.saturating_add(1);
                return Ok(None);
            }
            Standing::Draft => {
                self.faults = self.faults.saturating_add(1);
                return Err(DiskError::Failed);
            }
        };
        let number = self.store.next_number;
        if number == u64::MAX {
            self.faults = self.faults.saturating_add(1);
            return Err(DiskError::Failed);
        }
        self.store.answer_with_number();
        let fails = self.rules.next_reader();
        Ok(Some(MemReader::make(number, bytes, fails)))
    }

    fn create(&mut self, alloc: Global, vol: u8, path: &str) -> Result<MemDraft, DiskError> {
        if self.rules.begin(Call::Create) {
            self.leave_created(vol, path);
            return Err(DiskError::Failed);
        }
        let draft_path = String::from_str(alloc, path)?;
        let number = self.store.next_number;
        if number == u64::MAX {
            self.faults = self.faults.saturating_add(1);
            return Err(DiskError::Failed);
        }
        let path = String::from_str(self.store.alloc, path)?;
        self.store
            .carry_out(Change::Created { number, vol, path }, number + 1)?;
        let (append_fails, seal_fails) = self.rules.next_draft();
        Ok(MemDraft::make(
            number,
            vol,
            draft_path,
            Vec::new(alloc),
            append_fails,
            seal_fails,
        ))
    }

    fn publish(&mut self, sealed: MemSealed, path: &str) -> Result<(), Failed> {
        if self.rules.begin(Call::Publish) {
            self.leave_published(sealed, path);
            return Err(Failed);
        }
        let next_number = self.store.next_number;
        let Ok(target) = String::from_str(self.store.alloc, path) else {
            self.lack();
            return Err(Failed);
        };
        let change = Change::Published {
            vol: sealed.vol,
            path: sealed.path,
            bytes: sealed.bytes,
            target,
        };
        match self.store.carry_out(change, next_number) {
            Ok(()) => Ok(()),
            Err(_) => {
                self.lack();
                Err(Failed)
            }
        }
    }

    fn remove(&mut self, vol: u8, path: &str) -> Result<(), Failed> {
        if self.rules.begin(Call::Remove) {
            self.leave_removed(vol, path);
            return Err(Failed);
        }
        let next_number = self.store.next_number;
        let Ok(path) = String::from_str(self.store.alloc, path) else {
            self.lack();
            return Err(Failed);
        };
        match self
            .store
            .carry_out(Change::Removed { vol, path }, next_number)
        {
            Ok(()) => Ok(()),
            Err(_) => {
                self.lack();
                Err(Failed)
            }
        }
    }
}
