//! Disks of one block pool, their drafts and their readers.
//!
//! Disks may tell what they hold: a list of worlds, one of which is the true one. A call that answers Ok picks one
//! world and leaves that one alone, changed by the call. A call that fails stands before or after. Disks that tell
//! nothing, as those over real directories, keep every clause that doesn't speak of content.
ghost use Rattle.std.specs.Prelude.{◌≡◌, ◌+◌, ◌<◌, ◌≤◌, ◌^◌, [], ◌++◌, List, ℕ, length, IsOk, IsErr, IsTrue, IfOk, IfErr, OnOk, OnErr, IsErrOf, Option, Some, None, Ok, option_map, IsSome, ◌↔◌};
ghost use Rattle.disk_model.specs.Files.{Files};
ghost use Rattle.disk_model.specs.Names.{IsInOrder};
ghost use Rattle.disk_model.specs.Worlds.{DraftPlace, World, draft_at, created, removed, published, IsAbsent, HasSize, IsListing};
ghost use Rattle.disk_model.specs.Told.{IsDisk, StandsWithin, CanLeave, PicksOne, StandsBeforeOrAfter, NoDraftAt, StillStands, told_bytes};
ghost use Rattle.disk_model.specs.Moments.{Elapses};
ghost use Rattle.disk_model.specs.Causes.{Rose, HasCause, GivesAtMostOne};
ghost use Rattle.disk_model.specs.Readers.{ReadsAt};
ghost use Rattle.disk_model.specs.declared.disks.DiskError.TheVariants.{Memory};

use crate::Names;
use std::alloc::{AllocError, AllocFailed, Global};

/// A call of the outside failed. The count of faults of the object that was called rose.
#[derive(Clone, Copy, Debug, PartialEq, Eq)]
pub struct Failed;

/// Why a call of a disk gave nothing.
#[derive(Clone, Copy, Debug, PartialEq, Eq)]
pub enum DiskError {
    /// The call failed, and the count of faults rose.
    Failed,
    /// There was no memory for the call.
    Memory,
}

impl From<AllocError> for DiskError {
    ghost from_gives = { λ _ e. e ≡ Memory };

    fn from(_: AllocError) -> Self {
        DiskError::Memory
    }
}

impl<T: Drop> From<AllocFailed<T>> for DiskError {
    ghost from_gives = { λ _ e. e ≡ Memory };

    fn from(_: AllocFailed<T>) -> Self {
        DiskError::Memory
    }
}

/// A draft that was sealed: its bytes are on the disk, and its file can be settled.
pub trait SealedDraft: Drop {
    /// Its number, and where it stands.
    ghost place: { Self → DraftPlace };

    /// Its bytes, where it tells them.
    ghost bytes: { Self → Option (List ℕ) };
}

/// A file that is being written. Until it was sealed and published a crash may leave any bytes at its path.
pub trait Draft: Sized + Drop {
    type Sealed: SealedDraft;

    /// Its number, and where it stands.
    ghost place: { Self → DraftPlace };

    /// Its bytes so far, where it tells them.
    ghost bytes: { Self → Option (List ℕ) };

    /// How often it failed.
    ghost faults: { Self → ℕ };

    /// The number that the disks gave it. No other draft or reader of these disks has it.
    fn number(&self) -> u64
        ensures { result ≡ (place self.now).number };

    /// Adds a piece at the end. An empty piece makes no call of the device. Want of memory changes nothing.
    fn append(&mut self, piece: &[u8]) -> Result<(), DiskError>
        ensures place { place self.new ≡ place self.old }
        ensures honest { IsSome (bytes self.old) ↔ IsSome (bytes self.new) }
        ensures empty { length piece.now ≡ 0 → IsOk result }
        ensures ok { OnOk result (bytes self.new ≡ option_map (λ b. b ++ piece.now) (bytes self.old)) }
        ensures memory { IsErrOf result DiskError.Memory → (bytes self.new ≡ bytes self.old) × (faults self.new ≡ faults self.old) }
        ensures cause { HasCause (faults self.old) (faults self.new) (IsErrOf result DiskError.Failed) };

    /// Makes sure that the bytes are on the disk. A draft that can't be sealed is given back, its count of faults raised.
    fn seal(self) -> Result<Self::Sealed, Self>
        ensures place { IfOk result (λ sealed. Self.Sealed.place sealed ≡ place self) }
        ensures bytes { IfOk result (λ sealed. Self.Sealed.bytes sealed ≡ bytes self) }
        ensures given_back { IfErr result (λ draft. place draft ≡ place self) }
        ensures honest { IfErr result (λ draft. IsSome (bytes draft) ↔ IsSome (bytes self)) }
        ensures cause { IfErr result (λ draft. HasCause (faults self) (faults draft) (IsErr result)) };
}

/// A settled file that was lent. It goes on giving the same bytes after its file was replaced or removed.
pub trait Reader: Drop {
    /// The number that the disks gave it.
    ghost number: { Self → ℕ };

    /// The bytes of the file, where it tells them.
    ghost bytes: { Self → Option (List ℕ) };

    /// How often it failed.
    ghost faults: { Self → ℕ };

    /// Reads from an offset in bytes on into the front of `out`, and answers how many bytes it gave. None means that the
    /// offset is at or past the end, or that `out` is empty.
    fn read(&mut self, at: u64, out: &mut [u8]) -> Result<usize, Failed>
        ensures number { number self.new ≡ number self.old }
        ensures bytes { bytes self.new ≡ bytes self.old }
        ensures room { IfOk result (λ n. n ≤ length out.new) }
        ensures read { IfOk result (λ n. ReadsAt (bytes self.old) at n out.new) }
        ensures cause { HasCause (faults self.old) (faults self.new) (IsErr result) };
}

/// The disks of one pool: files by volume and path.
///
/// A path is text relative to the pool's directory on its volume. Names of directories are separated by slashes.
pub trait PoolDisks: Drop {
    /// A draft of these disks that was sealed.
    type Sealed: Drop;

    /// A file of these disks that is being written.
    type Draft: Draft<Sealed = Self::Sealed>;

    /// A file of these disks that was lent.
    type Reader: Reader;

    /// What the disks may hold, where they tell it: one of these worlds.
    ghost worlds: { Self → Option (List World) };

    /// The moment, as a number that doesn't fall.
    ghost moment: { Self → ℕ };

    /// Which images some moment from that one on could have left.
    ghost left_since: { Self → ℕ → Files → Type 0 };

    /// How often the disks failed.
    ghost faults: { Self → ℕ };

    /// How often a file was absent.
    ghost absences: { Self → ℕ };

    /// The number that the next draft or reader gets.
    ghost next_number: { Self → ℕ };

    /// How many volumes there are.
    ghost volume_count: { Self → ℕ };

    /// How many volumes there are, 1 to 64. A volume is named by its number from 1 on.
    fn volumes(&self) -> u8
        ensures volumes { result ≡ volume_count self.now }
        ensures some { 1 ≤ result }
        ensures limit { result ≤ 64 };

    /// The names of the files of a directory, drafts too, sorted by bytes. An absent directory has none.
    fn list(&mut self, alloc: Global, vol: u8, dir: &str) -> Result<Names, DiskError>
        requires low { 1 ≤ vol }
        requires high { vol ≤ volume_count self.old }
        ensures order { IfOk result (λ names. IsInOrder names) }
        ensures ok { IfOk result (λ names. PicksOne (λ w. IsListing w vol dir.now names) (λ w. w)
            (worlds self.old) (worlds self.new)) }
        ensures err { OnErr result (worlds self.new ≡ worlds self.old) }
        ensures worlds { StandsBeforeOrAfter (λ w. w) (worlds self.old) (worlds self.new) }
        ensures time { Elapses (moment self.old) (moment self.new)
            (left_since self.old) (left_since self.new) (CanLeave (worlds self.new)) }
        ensures cause { HasCause (faults self.old) (faults self.new) (IsErrOf result DiskError.Failed) }
        ensures absences { absences self.old ≤ absences self.new }
        ensures numbers { next_number self.new ≡ next_number self.old }
        ensures volumes { volume_count self.new ≡ volume_count self.old };

    /// The length of a file in bytes, or `None` where there is none. Of a draft it is a number of which nothing is known.
    fn size(&mut self, vol: u8, path: &str) -> Result<Option<u64>, Failed>
        requires low { 1 ≤ vol }
        requires high { vol ≤ volume_count self.old }
        ensures some { (n : ℕ) → result ≡ Ok (Some n) → PicksOne (λ w. HasSize w vol path.now n) (λ w. w)
            (worlds self.old) (worlds self.new) }
        ensures none { result ≡ Ok None → PicksOne (λ w. IsAbsent w vol path.now) (λ w. w)
            (worlds self.old) (worlds self.new) }
        ensures err { OnErr result (worlds self.new ≡ worlds self.old) }
        ensures worlds { StandsBeforeOrAfter (λ w. w) (worlds self.old) (worlds self.new) }
        ensures time { Elapses (moment self.old) (moment self.new)
            (left_since self.old) (left_since self.new) (CanLeave (worlds self.new)) }
        ensures cause { HasCause (faults self.old) (faults self.new) (IsErr result) }
        ensures absent { HasCause (absences self.old) (absences self.new) (result ≡ Ok None) }
        ensures numbers { next_number self.new ≡ next_number self.old }
        ensures volumes { volume_count self.new ≡ volume_count self.old };

    /// A reader of a settled file, under the next number, or `None` where there is no file. Where no number is left it
    /// fails. A file has fewer than 2^64 bytes.
    fn lend_reader(
        &mut self,
        alloc: Global,
        vol: u8,
        path: &str,
    ) -> Result<Option<Self::Reader>, DiskError>
        requires low { 1 ≤ vol }
        requires high { vol ≤ volume_count self.old }
        requires settled { NoDraftAt (worlds self.old) vol path.now }
        ensures some { (r : _) → result ≡ Ok (Some r) → PicksOne (λ w. w.settled vol path.now ≡ Self.Reader.bytes r) (λ w. w)
            (worlds self.old) (worlds self.new) }
        ensures told { (r : _) → result ≡ Ok (Some r) → IsSome (worlds self.old) ↔ IsSome (Self.Reader.bytes r) }
        ensures limit { (r : _) (all : List ℕ) → result ≡ Ok (Some r) → Self.Reader.bytes r ≡ Some all → length all < 2 ^ 64 }
        ensures fresh { (r : _) → result ≡ Ok (Some r) → Self.Reader.faults r ≡ 0 }
        ensures number { (r : _) → result ≡ Ok (Some r) →
            (Self.Reader.number r ≡ next_number self.old) × (next_number self.new ≡ next_number self.old + 1) }
        ensures none { result ≡ Ok None → PicksOne (λ w. IsAbsent w vol path.now) (λ w. w)
            (worlds self.old) (worlds self.new) }
        ensures err { OnErr result (worlds self.new ≡ worlds self.old) }
        ensures worlds { StandsBeforeOrAfter (λ w. w) (worlds self.old) (worlds self.new) }
        ensures time { Elapses (moment self.old) (moment self.new)
            (left_since self.old) (left_since self.new) (CanLeave (worlds self.new)) }
        ensures cause { HasCause (faults self.old) (faults self.new) (IsErrOf result DiskError.Failed) }
        ensures absent { HasCause (absences self.old) (absences self.new) (result ≡ Ok None) }
        ensures numbers { GivesAtMostOne (next_number self.old) (next_number self.new) }
        ensures volumes { volume_count self.new ≡ volume_count self.old };

    /// Makes an empty draft under the next number. A settled file at the path is replaced. Where it fails the draft may
    /// stand all the same; where no number is left it fails.
    fn create(&mut self, alloc: Global, vol: u8, path: &str) -> Result<Self::Draft, DiskError>
        requires low { 1 ≤ vol }
        requires high { vol ≤ volume_count self.old }
        requires free { NoDraftAt (worlds self.old) vol path.now }
        ensures ok { OnOk result (PicksOne (λ w. Unit {0}) (created (draft_at (next_number self.old) vol path.now))
            (worlds self.old) (worlds self.new)) }
        ensures worlds { StandsBeforeOrAfter (created (draft_at (next_number self.old) vol path.now))
            (worlds self.old) (worlds self.new) }
        ensures memory { IsErrOf result DiskError.Memory → (worlds self.new ≡ worlds self.old) × (next_number self.new ≡ next_number self.old) }
        ensures place { IfOk result (λ draft. Self.Draft.place draft ≡ draft_at (next_number self.old) vol path.now) }
        ensures empty { IfOk result (λ draft. Self.Draft.bytes draft ≡ option_map (λ _. []) (worlds self.old)) }
        ensures fresh { IfOk result (λ draft. Self.Draft.faults draft ≡ 0) }
        ensures number { OnOk result (next_number self.new ≡ next_number self.old + 1) }
        ensures time { Elapses (moment self.old) (moment self.new)
            (left_since self.old) (left_since self.new) (CanLeave (worlds self.new)) }
        ensures cause { HasCause (faults self.old) (faults self.new) (IsErrOf result DiskError.Failed) }
        ensures absences { absences self.old ≤ absences self.new }
        ensures numbers { GivesAtMostOne (next_number self.old) (next_number self.new) }
        ensures volumes { volume_count self.new ≡ volume_count self.old };

    /// Settles a sealed draft's bytes at a path of its volume, in one step. A file or a draft there is replaced.
    fn publish(&mut self, sealed: Self::Sealed, path: &str) -> Result<(), Failed>
        requires stands { StillStands (worlds self.old) (Self.Sealed.place sealed) }
        ensures ok { OnOk result (PicksOne (λ w. Unit {0}) (published (Self.Sealed.place sealed) (told_bytes (Self.Sealed.bytes sealed)) path.now)
            (worlds self.old) (worlds self.new)) }
        ensures worlds { StandsBeforeOrAfter (published (Self.Sealed.place sealed) (told_bytes (Self.Sealed.bytes sealed)) path.now)
            (worlds self.old) (worlds self.new) }
        ensures time { Elapses (moment self.old) (moment self.new)
            (left_since self.old) (left_since self.new) (CanLeave (worlds self.new)) }
        ensures cause { HasCause (faults self.old) (faults self.new) (IsErr result) }
        ensures absences { absences self.old ≤ absences self.new }
        ensures numbers { next_number self.new ≡ next_number self.old }
        ensures volumes { volume_count self.new ≡ volume_count self.old };

    /// Takes a file or a draft away. Where none stands there it answers Ok.
    fn remove(&mut self, vol: u8, path: &str) -> Result<(), Failed>
        requires low { 1 ≤ vol }
        requires high { vol ≤ volume_count self.old }
        ensures ok { OnOk result (PicksOne (λ w. Unit {0}) (removed vol path.now)
            (worlds self.old) (worlds self.new)) }
        ensures worlds { StandsBeforeOrAfter (removed vol path.now)
            (worlds self.old) (worlds self.new) }
        ensures time { Elapses (moment self.old) (moment self.new)
            (left_since self.old) (left_since self.new) (CanLeave (worlds self.new)) }
        ensures cause { HasCause (faults self.old) (faults self.new) (IsErr result) }
        ensures absences { absences self.old ≤ absences self.new }
        ensures numbers { next_number self.new ≡ next_number self.old }
        ensures volumes { volume_count self.new ≡ volume_count self.old };

    /// What is told is a disk.
    ghost is_disk: { (disks : Self) → IsDisk (next_number disks) (worlds disks) };

    /// Files and drafts stand on the volumes alone.
    ghost within: { (disks : Self) → StandsWithin (volume_count disks) (worlds disks) };

    /// This moment is one of those since an earlier one.
    ghost counts_now: { (disks : Self) (t : ℕ) (image : Files) → t ≤ moment disks → CanLeave (worlds disks) image → left_since disks t image };

    /// Since this moment there is no other.
    ghost only_now: { (disks : Self) (image : Files) → left_since disks (moment disks) image → CanLeave (worlds disks) image };
}
