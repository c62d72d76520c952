//! The start of a read: readers of a replica's two files.
ghost use Rattle.std.specs.Prelude.{◌≡◌, ◌⊎◌, ◌≤◌, ◌<◌, ◌^◌, ℕ, List, length, Some, IfOk, IfErr, IfSome, IfNone, IsOk, IsErrOf};
ghost use Rattle.disk_model.specs.Causes.{Rose};
ghost use Rattle.disk_model.specs.Moments.{AddsOnly};
ghost use Rattle.disk_model.specs.Told.{NoDraftAt, CanLeave, PicksOne, StandsBeforeOrAfter};
ghost use Rattle.disk_model.specs.Marks.{GivenBetween, GoesOn};
ghost use Rattle.map_model.specs.Cells.{Cells};
ghost use Rattle.map_model.specs.Sound.{Knowledge, nothing};
ghost use Rattle.volume_layout.specs.BlockFiles.{path_of};
ghost use Rattle.map_model.specs.Steps.{Step, read};
ghost use Rattle.pool_state.specs.Answers.{start_fault, read_fault};
ghost use Rattle.pool_state.specs.Books.{block_books};
ghost use Rattle.pool_state.specs.Rooms.{room_of};
ghost use Rattle.pool_state.specs.Tenures.{Rests, GivesNumber, KeepsWhole, ChoosesAsBefore};
ghost use Rattle.pool_state.specs.Foreign.{LeavesForeign};
ghost use Rattle.pool_state.specs.Stands.{Stands, StandsForSome};
ghost use Rattle.pool_state.specs.Readers.{reader_bytes, file_of, IsLent, AreFilesOf, LooksForPair};

use crate::pool_record::Pool;
use crate::read_pair::ReadPair;
use crate::start_fault::StartFault;
use disk_model::{DiskError, PoolDisks};
use replica_map::State;
use std::alloc::Global;
use volume_layout::{BlockFile, BlockId};

/// Lends a reader of a file of a block, or none where the file is absent.
fn lend_file<D: PoolDisks>(
    disks: &mut D,
    alloc: Global,
    id: BlockId,
    vol: u8,
    file: BlockFile,
) -> Result<Option<D::Reader>, StartFault>
    requires low { 1 ≤ vol }
    requires high { vol ≤ D.volume_count disks.old }
    requires settled { NoDraftAt (D.worlds disks.old) vol (path_of id file) }
    ensures file { IfOk result (λ lent.
        PicksOne (λ w. w.settled vol (path_of id file) ≡ file_of D.Reader.bytes lent) (λ w. w)
        (D.worlds disks.old) (D.worlds disks.new)) }
    ensures limit { (all : List ℕ) →
        IfOk result (λ lent. reader_bytes D.Reader.bytes lent ≡ Some all → length all < 2 ^ 64) }
    ensures looked { StandsBeforeOrAfter (λ w. w) (D.worlds disks.old) (D.worlds disks.new) }
    ensures images { AddsOnly (D.left_since disks.old) (D.left_since disks.new) (CanLeave (D.worlds disks.new)) }
    ensures number { IfOk result (λ lent. IfSome lent (λ reader.
        GivenBetween (D.next_number disks.old) (D.next_number disks.new) (D.Reader.number reader))) }
    ensures absent { IfOk result (λ lent. IfNone lent (Rose (D.absences disks.old) (D.absences disks.new))) }
    ensures goes_on { GoesOn D.PoolDisks disks.old disks.new }
    ensures foreign { LeavesForeign D.PoolDisks disks.old disks.new }
    ensures fault { IfErr result (λ fault. (fault ≡ StartFault.Failed) ⊎ (fault ≡ StartFault.Memory)) }
    ensures failed { IsErrOf result StartFault.Failed → Rose (D.faults disks.old) (D.faults disks.new) }
{
    match disks.lend_reader(alloc, vol, file.path(id).as_str()) {
        Ok(lent) => Ok(lent),
        Err(DiskError::Failed) => Err(StartFault::Failed),
        Err(DiskError::Memory) => Err(StartFault::Memory),
    }
}

impl<D: PoolDisks> Pool<D> {
    /// Starts to read a block's replica: lends readers of its block file and of the meta file of its stamp. The books
    /// stay as they were.
    pub fn start_read(&mut self, alloc: Global, id: BlockId) -> Result<ReadPair<D>, StartFault>
        requires stands { StandsForSome self.old }
        ensures map { self.new.map ≡ self.old.map }
        ensures quiet { (cells : Cells) → Stands self.old nothing cells →
            Rests cells self.old self.new × KeepsWhole self.old self.new }
        ensures refused { (cells : Cells) → Stands self.old nothing cells →
            IfErr result (λ fault. Step (room_of self.old) (cells id) read (start_fault fault) (cells id)) }
        ensures lent { (known : Knowledge) (cells : Cells) → Stands self.old known cells →
            IfOk result (λ pair. IsLent known id self.old (cells id) pair) }
        ensures files { IfSome (block_books self.old.map id).entry (λ entry.
            IfOk result (λ pair. AreFilesOf self.new id entry pair)) }
        ensures block_number { IfOk result (λ pair. IfSome pair.block (λ reader. GivesNumber self.old self.new (D.Reader.number reader))) }
        ensures meta_number { IfOk result (λ pair. IfSome pair.meta (λ reader. GivesNumber self.old self.new (D.Reader.number reader))) }
        ensures goes_on { GoesOn D.PoolDisks self.old.disks self.new.disks }
        ensures foreign { LeavesForeign D.PoolDisks self.old.disks self.new.disks }
        ensures choosing { ChoosesAsBefore self.old self.new }
        ensures looked { IsOk result → LooksForPair self.old self.new }
        ensures failed { IsErrOf result StartFault.Failed → Rose (D.faults self.old.disks) (D.faults self.new.disks) }
    {
        let Some(entry) = self.map.find(id) else {
            return Err(StartFault::None);
        };
        match entry.state {
            State::Finalised => {}
            state => return Err(read_refusal(state)),
        }
        let block = lend_file(&mut self.disks, alloc, id, entry.vol, BlockFile::Block)?;
        let meta_file = BlockFile::Meta(entry.stamp);
        let meta = lend_file(&mut self.disks, alloc, id, entry.vol, meta_file)?;
        Ok(ReadPair {
            block,
            meta,
            stamp: entry.stamp,
            len: entry.len,
        })
    }
}

/// Why a block whose entry isn't that of a replica can't be read.
fn read_refusal(state: State) -> StartFault
    ensures { result ≡ read_fault state }
{
    match state {
        State::Finalised => StartFault::None,
        State::Writing => StartFault::Writing,
        State::Unsure => StartFault::Unsure,
        State::Waiting => StartFault::Waiting,
    }
}
