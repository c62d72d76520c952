//! A write as a whole, in three calls: its start and its end are tenures of the pool, and between them its bytes are written
//! without the pool.
ghost use Rattle.std.specs.Prelude.{◌≡◌, ◌≢◌, ◌-◌, ◌<◌, ℕ, [], List, None, Some, IfOk, IfSome, IsErrOf, IsTrue, Option, Err, is_some, length};
ghost use Rattle.disk_model.specs.Causes.{Rose};
ghost use Rattle.disk_model.specs.Worlds.{World};
ghost use Rattle.disk_model.specs.Marks.{GoesOn};
ghost use Rattle.map_model.specs.Cells.{Cells, growing};
ghost use Rattle.map_model.specs.Sound.{nothing};
ghost use Rattle.pair_draft.specs.Writers.{writer_of, FailedOf};
ghost use Rattle.map_model.specs.Stands.{BlockBooks};
ghost use Rattle.pool_state.specs.Books.{block_books};
ghost use Rattle.pool_state.specs.Foreign.{LeavesForeign};
ghost use Rattle.pool_state.specs.Stands.{Stands, StandsForSome};
ghost use Rattle.pool_state.specs.Tenures.{KeepsWhole, Starts, StartsBooks, ChoosesAsBefore, IsWriterOf, GivesNumber};
ghost use Rattle.pool_state.specs.Writers.{WriterStands};
ghost use Rattle.client_ops.specs.Writing.{op_writer, fill_fault, BooksEnded, FillStands, EndsWrite, EndsAsWrite, FilledBelongs};

use disk_model::PoolDisks;
use pool_state::{Pool, PushFault, SealFault, SealedPair, StartFault, Writing};
use std::alloc::Global;
use volume_layout::{BlockId, Stamp};

/// A write that has begun, as its start gave it.
#[derive(Drop)]
pub enum Op<D: PoolDisks> {
    /// Of a block that has no replica.
    Write(Writing<D>),
}

/// Why the bytes of a write were not made sure of.
#[derive(Clone, Copy, Debug, PartialEq, Eq)]
pub enum FillFault {
    /// A draft failed.
    Failed,
    /// There was no memory.
    Memory,
}

/// What became of the bytes of a write.
#[derive(Drop)]
pub enum Filled<D: PoolDisks> {
    /// They were made sure of.
    Sealed(SealedPair<D>),
    /// The first fault stopped the writer.
    Stopped(Writing<D>, FillFault),
}

/// The answer to a write.
#[derive(Clone, Copy, Debug, PartialEq, Eq)]
pub enum OpReply {
    /// The block has its replica.
    Ok,
    /// A draft or the disks failed.
    Failed,
    /// There was no memory.
    Memory,
}

/// A write for which there is room, answered so by its end, is one step of a block that was absent.
pub fn write_is_one_step()
    ensures { EndsAsWrite }
{}

/// Starts a write of a block that has no replica, of `len` bytes, as `start_write` of the pool does.
pub fn write_start<D: PoolDisks>(
    alloc: Global,
    pool: &mut Pool<D>,
    id: BlockId,
    stamp: Stamp,
    len: u64,
) -> Result<Op<D>, StartFault>
    requires stands { StandsForSome pool.old }
    ensures step { (cells : Cells) → Stands pool.old nothing cells →
        Starts id stamp len result cells pool.old pool.new × KeepsWhole pool.old pool.new }
    ensures others { (other : ℕ) → other ≢ id → block_books pool.new.map other ≡ block_books pool.old.map other }
    ensures books { StartsBooks id stamp len result pool.old pool.new }
    ensures writer { IfOk result (λ op. IsWriterOf pool.new (op_writer op) []) }
    ensures what { IfOk result (λ op. ((op_writer op).id ≡ id) × ((op_writer op).stamp ≡ stamp) × ((op_writer op).reserved ≡ len)) }
    ensures numbers { IfOk result (λ op. GivesNumber pool.old pool.new (D.Draft.place (op_writer op).block).number) }
    ensures meta_numbers { IfOk result (λ op. IfSome (op_writer op).meta (λ meta. GivesNumber pool.old pool.new (D.Draft.place meta).number)) }
    ensures goes_on { GoesOn D.PoolDisks pool.old.disks pool.new.disks }
    ensures foreign { LeavesForeign D.PoolDisks pool.old.disks pool.new.disks }
    ensures failed { IsErrOf result StartFault.Failed → Rose (D.faults pool.old.disks) (D.faults pool.new.disks) }
{
    match pool.start_write(alloc, id, stamp, len) {
        Ok(writer) => Ok(Op::Write(writer)),
        Err(fault) => Err(fault),
    }
}

/// Gives a write all its bytes, and makes sure of them. More bytes than its start was told count as want of memory. It makes no
/// call of the pool.
pub fn op_fill<D: PoolDisks>(op: Op<D>, bytes: &[u8]) -> Filled<D>
    requires whole { IsTrue (is_some (op_writer op).meta) }
    ensures stands { (told : Option (List World)) (books : ℕ → BlockBooks) →
        WriterStands told books (writer_of D.Draft.place D.Draft.bytes (op_writer op)) [] →
        FillStands D.Draft.place D.Draft.bytes D.Sealed.place D.Sealed.bytes told books (op_writer op).id (op_writer op).stamp bytes.now result }
    ensures failed { fill_fault result ≡ Some FillFault.Failed →
        FailedOf D.Draft.place D.Draft.faults (writer_of D.Draft.place D.Draft.bytes (op_writer op)) }
{
    match op {
        Op::Write(writer) => fill_writer(writer, bytes),
    }
}

/// Gives a writer its bytes, and seals it.
fn fill_writer<D: PoolDisks>(mut writer: Writing<D>, bytes: &[u8]) -> Filled<D>
    requires whole { IsTrue (is_some writer.meta) }
    ensures stands { (told : Option (List World)) (books : ℕ → BlockBooks) →
        WriterStands told books (writer_of D.Draft.place D.Draft.bytes writer) [] →
        FillStands D.Draft.place D.Draft.bytes D.Sealed.place D.Sealed.bytes told books writer.id writer.stamp bytes.now result }
    ensures failed { fill_fault result ≡ Some FillFault.Failed →
        FailedOf D.Draft.place D.Draft.faults (writer_of D.Draft.place D.Draft.bytes writer) }
{
    match writer.push(bytes) {
        Ok(()) => {}
        Err(PushFault::Failed) => return Filled::Stopped(writer, FillFault::Failed),
        Err(PushFault::Over { .. } | PushFault::Memory) => {
            return Filled::Stopped(writer, FillFault::Memory);
        }
    }
    match writer.seal() {
        Ok(pair) => Filled::Sealed(pair),
        Err((SealFault::Failed, writer)) => Filled::Stopped(writer, FillFault::Failed),
        Err((SealFault::Memory, writer)) => Filled::Stopped(writer, FillFault::Memory),
    }
}

/// Ends a write. Bytes that were made sure of become the block's replica; a writer that was stopped is given up where a draft
/// failed, and dropped where memory was wanting. The answer is the first fault, if there was one. It takes no memory.
pub fn op_end<D: PoolDisks>(pool: &mut Pool<D>, filled: Filled<D>) -> OpReply
    requires stands { StandsForSome pool.old }
    requires belongs { (id stamp : ℕ) × (bytes : List ℕ) × FilledBelongs pool.old id stamp bytes filled }
    ensures step { (cells : Cells) (id stamp left : ℕ) (bytes : List ℕ) → Stands pool.old nothing cells →
        FilledBelongs pool.old id stamp bytes filled → cells id ≡ growing stamp None bytes left →
        EndsWrite id stamp bytes (fill_fault filled) result cells pool.old pool.new × KeepsWhole pool.old pool.new }
    ensures others { (id stamp : ℕ) (bytes : List ℕ) → FilledBelongs pool.old id stamp bytes filled →
        (other : ℕ) → other ≢ id → block_books pool.new.map other ≡ block_books pool.old.map other }
    ensures books { (id stamp : ℕ) (bytes : List ℕ) → FilledBelongs pool.old id stamp bytes filled →
        BooksEnded (fill_fault filled) result (length bytes) (block_books pool.old.map id) (block_books pool.new.map id) }
    ensures goes_on { GoesOn D.PoolDisks pool.old.disks pool.new.disks }
    ensures foreign { LeavesForeign D.PoolDisks pool.old.disks pool.new.disks }
    ensures choosing { ChoosesAsBefore pool.old pool.new }
    ensures failed { result ≡ OpReply.Failed → fill_fault filled ≡ None → Rose (D.faults pool.old.disks) (D.faults pool.new.disks) }
{
    match filled {
        Filled::Sealed(pair) => match pool.finish(pair) {
            Ok(()) => OpReply::Ok,
            Err(_) => OpReply::Failed,
        },
        Filled::Stopped(writer, FillFault::Failed) => {
            pool.fail_write(writer);
            OpReply::Failed
        }
        Filled::Stopped(writer, FillFault::Memory) => match pool.drop_write(writer) {
            Ok(()) | Err(_) => OpReply::Memory,
        },
    }
}
