//! The end of a write.
ghost use Rattle.std.specs.Prelude.{◌≡◌, ◌≢◌, ℕ, List, None, Some, IsErr};
ghost use Rattle.disk_model.specs.Causes.{Rose};
ghost use Rattle.disk_model.specs.Marks.{GoesOn};
ghost use Rattle.map_model.specs.Cells.{Cells, growing, waiting};
ghost use Rattle.map_model.specs.Sound.{nothing};
ghost use Rattle.map_model.specs.Steps.{Command, Step, finish, drop_write, failed};
ghost use Rattle.pool_state.specs.Answers.{IsWritten};
ghost use Rattle.pool_state.specs.Books.{block_books};
ghost use Rattle.pool_state.specs.BookSteps.{BooksFinished, BooksDropped, given_up};
ghost use Rattle.pool_state.specs.Rooms.{room_of};
ghost use Rattle.pool_state.specs.Tenures.{Takes, PairBelongs, Finishes, Drops, KeepsWhole, ChoosesAsBefore};
ghost use Rattle.pool_state.specs.Foreign.{LeavesForeign};
ghost use Rattle.pool_state.specs.Stands.{Stands, StandsForSome};
ghost use Rattle.pool_state.specs.Writers.{meta_of};

use crate::bookkeeping::{give_up, give_up_meta, put, take_away};
use crate::pool_record::Pool;
use disk_model::{Failed, PoolDisks};
use pair_draft::{SealedPair, Writing};
use replica_map::{Entry, State};
use volume_layout::{block_path, meta_path, rbw_block, rbw_meta};

impl<D: PoolDisks> Pool<D> {
    /// Finishes a fresh write: publishes its meta file, then its block. Where that fails the block is in doubt. It takes no memory.
    pub fn finish(&mut self, pair: SealedPair<D>) -> Result<(), Failed>
        requires stands { StandsForSome self.old }
        requires belongs { (bytes : List ℕ) × PairBelongs self.old pair bytes }
        ensures step { (cells : Cells) (bytes : List ℕ) (left : ℕ) (belongs : PairBelongs self.old pair bytes) → Stands self.old nothing cells →
            cells pair.id ≡ growing pair.stamp None bytes left → Finishes pair.id pair.stamp result bytes (meta_of belongs) cells self.old self.new × KeepsWhole self.old self.new }
        ensures others { (other : ℕ) → other ≢ pair.id → block_books self.new.map other ≡ block_books self.old.map other }
        ensures books { BooksFinished result pair.len (block_books self.old.map pair.id) (block_books self.new.map pair.id) }
        ensures goes_on { GoesOn D.PoolDisks self.old.disks self.new.disks }
        ensures foreign { LeavesForeign D.PoolDisks self.old.disks self.new.disks }
        ensures choosing { ChoosesAsBefore self.old self.new }
        ensures failed { IsErr result → Rose (D.faults self.old.disks) (D.faults self.new.disks) }
    {
        let SealedPair {
            id,
            stamp,
            len,
            block,
            meta,
            ..
        } = pair;
        let Some(entry) = self.map.find(id) else {
            unreachable!();
        };
        match self.disks.publish(meta, meta_path(id, stamp).as_str()) {
            Ok(()) => {}
            Err(failed) => {
                put(
                    &mut self.map,
                    Entry {
                        state: State::Unsure,
                        ..entry
                    },
                );
                return Err(failed);
            }
        }
        match self.disks.publish(block, block_path(id).as_str()) {
            Ok(()) => {}
            Err(failed) => {
                put(
                    &mut self.map,
                    Entry {
                        state: State::Unsure,
                        ..entry
                    },
                );
                return Err(failed);
            }
        }
        put(
            &mut self.map,
            Entry {
                len,
                state: State::Finalised,
                ..entry
            },
        );
        Ok(())
    }

    /// Drops a fresh writer, whole or not: removes its two files under `current/rbw`. Where that fails its block waits to be
    /// deleted. It takes no memory.
    pub fn drop_write(&mut self, writer: Writing<D>) -> Result<(), Failed>
        requires stands { StandsForSome self.old }
        requires writes { IsWritten (block_books self.old.map writer.id).entry }
        ensures step { (cells : Cells) (bytes : List ℕ) (left : ℕ) → Stands self.old nothing cells →
            cells writer.id ≡ growing writer.stamp None bytes left → Drops writer.id result cells self.old self.new × KeepsWhole self.old self.new }
        ensures others { (other : ℕ) → other ≢ writer.id → block_books self.new.map other ≡ block_books self.old.map other }
        ensures books { BooksDropped result (block_books self.old.map writer.id) (block_books self.new.map writer.id) }
        ensures goes_on { GoesOn D.PoolDisks self.old.disks self.new.disks }
        ensures foreign { LeavesForeign D.PoolDisks self.old.disks self.new.disks }
        ensures choosing { ChoosesAsBefore self.old self.new }
        ensures failed { IsErr result → Rose (D.faults self.old.disks) (D.faults self.new.disks) }
    {
        let id = writer.id;
        let Some(entry) = self.map.find(id) else {
            unreachable!();
        };
        let _in_range = entry.stamp.get();
        match self.disks.remove(entry.vol, rbw_block(id).as_str()) {
            Ok(()) => {}
            Err(failed) => {
                give_up(&mut self.map, &entry);
                return Err(failed);
            }
        }
        match self
            .disks
            .remove(entry.vol, rbw_meta(id, entry.stamp).as_str())
        {
            Ok(()) => {}
            Err(failed) => {
                give_up_meta(&mut self.map, &entry);
                return Err(failed);
            }
        }
        take_away(&mut self.map, &entry);
        Ok(())
    }

    /// Gives a fresh writer up, whole or not, of which a command failed: its block waits to be deleted. It makes no device call
    /// and takes no memory.
    pub fn fail_write(&mut self, writer: Writing<D>)
        requires writes { IsWritten (block_books self.old.map writer.id).entry }
        ensures step { (cells : Cells) (command : Command) (stamp left : ℕ) (bytes : List ℕ) → Stands self.old nothing cells →
            cells writer.id ≡ growing stamp None bytes left → Step (room_of self.old) (growing stamp None bytes left) command failed waiting →
            Takes writer.id command failed (λ cell. cell ≡ waiting) cells self.old self.new × KeepsWhole self.old self.new }
        ensures others { (other : ℕ) → other ≢ writer.id → block_books self.new.map other ≡ block_books self.old.map other }
        ensures books { block_books self.new.map writer.id ≡ given_up (block_books self.old.map writer.id) }
        ensures disks { self.new.disks ≡ self.old.disks }
        ensures choosing { ChoosesAsBefore self.old self.new }
    {
        let Some(entry) = self.map.find(writer.id) else {
            unreachable!();
        };
        give_up(&mut self.map, &entry);
    }
}
