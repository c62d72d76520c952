//! The chunks of a block beside the checksums of its meta file.
ghost use Rattle.std.specs.Prelude.{◌≡◌, ◌+◌, ◌*◌, ◌/◌, ◌-◌, ◌<◌, ◌≤◌, List, ℕ, [], length, take, drop};
ghost use Rattle.meta_file.specs.Checksums.{chunk_count};
ghost use Rattle.meta_file.specs.Headers.{IsHeader};
ghost use Rattle.meta_file.specs.Sums.{polynomial};
ghost use Rattle.pair_draft.specs.Checking.{TakenIn, AreSums, IsUnderWay, IsSameCheck};

use meta_file::{Header, Summer};

/// How many checksums are compared at once, at most.
pub const BATCH: usize = 256;

/// Takes in the bytes of a block, and has of each chunk that ends in them its checksum.
#[derive(Drop)]
pub struct Checker {
    pub summer: Summer,
    /// How many bytes a checksum is of.
    pub step: u32,
    /// How many bytes were taken in.
    pub at: u64,
    /// How many bytes the block is to have.
    pub len: u64,
}

impl Checker {
    /// A check of so many bytes.
    pub fn new(header: Header, len: u64) -> Checker
        requires valid { IsHeader header }
        requires sums { 0 < header.kind }
        ensures under_way { IsUnderWay result }
        ensures kind { result.summer.kind ≡ header.kind }
        ensures step { result.step ≡ header.step }
        ensures len { result.len ≡ len }
        ensures at { result.at ≡ 0 }
        ensures taken { (block : List ℕ) → TakenIn result.summer result.at block }
    {
        Checker {
            summer: Summer::new(header),
            step: header.step,
            at: 0,
            len,
        }
    }

    /// Takes in the next piece, and writes to the front of `computed` the checksums of the chunks that end in it, so many
    /// bytes. The last chunk ends with the last byte.
    pub fn take_in(&mut self, piece: &[u8], computed: &mut [u8]) -> usize
        requires under_way { IsUnderWay self.old }
        requires fits { self.old.at + length piece.now ≤ self.old.len }
        requires few { length piece.now ≤ (BATCH - 1) * self.old.summer.step }
        requires room { length computed.old ≡ 4 * BATCH }
        ensures under_way { IsUnderWay self.new }
        ensures same { IsSameCheck self.old self.new }
        ensures at { self.new.at ≡ self.old.at + length piece.now }
        ensures within { result ≤ length computed.new }
        ensures offsets { 4 * (self.old.at / self.old.summer.step) + result ≤ 4 * chunk_count self.old.summer.step self.old.len }
        ensures taken { (block : List ℕ) → TakenIn self.old.summer self.old.at block →
            piece.now ≡ take (length piece.now) (drop self.old.at block) →
            TakenIn self.new.summer self.new.at block }
        ensures sums { (block : List ℕ) → TakenIn self.old.summer self.old.at block →
            piece.now ≡ take (length piece.now) (drop self.old.at block) →
            AreSums (polynomial self.old.summer.kind) self.old.summer.step self.old.len self.new.at (self.old.at / self.old.summer.step) block (take result computed.new) }
    {
        let count = self.summer.sum_into(piece, computed);
        self.at += piece.len() as u64;
        if self.at < self.len {
            return count;
        }
        count + self.summer.rest_into(&mut computed[count..])
    }
}
