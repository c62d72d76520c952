//! Reading a replica as a whole: its bytes are verified before they are given.
ghost use Rattle.std.specs.Prelude.{◌≡◌, ◌≢◌, ◌<◌, ◌≤◌, ℕ, List, length, take, Some, IfOk, OnOk, IsErr, IsErrOf};
ghost use Rattle.meta_file.specs.Checksums.{Matches};
ghost use Rattle.meta_file.specs.Verdicts.{verdict_of};
ghost use Rattle.meta_file.specs.declared.verdict.Verdict.TheVariants.{Whole, Short};
ghost use Rattle.pair_draft.specs.Checking.{IsOnLength};
ghost use Rattle.pool_state.specs.Readers.{reader_bytes, block_bytes, IsFaulty, FailedToRead};
ghost use Rattle.client_ops.specs.Reading.{Tells};

use disk_model::{Failed, PoolDisks, Reader};
use meta_file::Verdict;
use pair_draft::verify;
use pool_state::ReadPair;
use std::alloc::Global;

/// Why a replica was not read.
#[derive(Clone, Copy, Debug, PartialEq, Eq)]
pub enum ReadEnd {
    /// A reader failed.
    Failed,
    /// The replica isn't whole: what its meta file says of it.
    Bad(Verdict),
    /// There was no memory.
    Memory,
}

/// Reads a replica's bytes, all of them, into memory, after they were verified by its meta file. An absent file is read as
/// one without bytes. The verification reads the files through `buf`, of which a length of many chunks serves speed.
pub fn read_all<D: PoolDisks>(
    alloc: Global,
    pair: ReadPair<D>,
    buf: &mut [u8],
) -> Result<Vec<u8>, ReadEnd>
    requires buffer { 0 < length buf.old }
    ensures len { IfOk result (λ bytes. length bytes.items ≡ pair.len) }
    ensures bytes { (all : List ℕ) → block_bytes D.Reader.bytes pair ≡ Some all → IfOk result (λ bytes. bytes.items ≡ take pair.len all) }
    ensures verified { (all sums : List ℕ) → Tells D.Reader.bytes pair all sums → OnOk result (verdict_of sums all pair.len ≡ Whole) }
    ensures bad { (all sums : List ℕ) → Tells D.Reader.bytes pair all sums →
        (verdict : _) → IsErrOf result (ReadEnd.Bad verdict) → verdict ≡ verdict_of sums all pair.len }
    ensures not_whole { (verdict : _) → IsErrOf result (ReadEnd.Bad verdict) → verdict ≢ Whole }
    ensures on_length { (verdict : _) → IsErrOf result (ReadEnd.Bad verdict) → IsOnLength pair.len verdict }
    ensures whole { (all sums : List ℕ) → Tells D.Reader.bytes pair all sums → Matches sums all → length all ≡ pair.len →
        (verdict : _) → IsErrOf result (ReadEnd.Bad verdict) → ⊥ }
    ensures failed { IsErrOf result ReadEnd.Failed → FailedToRead D.Reader.number D.Reader.faults pair }
{
    let ReadPair {
        mut block,
        mut meta,
        len,
        ..
    } = pair;
    let Ok(verdict) = verify(&mut block, &mut meta, len, buf) else {
        return Err(ReadEnd::Failed);
    };
    if verdict != Verdict::Whole {
        return Err(ReadEnd::Bad(verdict));
    }
    read_block(alloc, block, len)
}

/// Reads so many bytes of a block file. Where it has fewer the answer is that it's short.
fn read_block<R: Reader>(alloc: Global, block: Option<R>, len: u64) -> Result<Vec<u8>, ReadEnd>
    ensures len { IfOk result (λ bytes. length bytes.items ≡ len) }
    ensures bytes { (all : List ℕ) → reader_bytes R.bytes block ≡ Some all → IfOk result (λ bytes. bytes.items ≡ take len all) }
    ensures bad { (verdict : _) → IsErrOf result (ReadEnd.Bad verdict) → verdict ≢ Whole }
    ensures on_length { (verdict : _) → IsErrOf result (ReadEnd.Bad verdict) → IsOnLength len verdict }
    ensures short { (all : List ℕ) → reader_bytes R.bytes block ≡ Some all →
        (verdict : _) → IsErrOf result (ReadEnd.Bad verdict) → length all < len }
    ensures failed { IsErrOf result ReadEnd.Failed → IsFaulty R.number R.faults block }
{
    let Ok(mut bytes) = vec![in alloc; 0u8; len as usize] else {
        return Err(ReadEnd::Memory);
    };
    let Ok(have) = read_file(block, &mut bytes) else {
        return Err(ReadEnd::Failed);
    };
    if have < bytes.len() {
        return Err(ReadEnd::Bad(Verdict::Short {
            want: len,
            have: have as u64,
        }));
    }
    Ok(bytes)
}

/// Reads the first bytes of a file, as many as fit or as there are, and answers how many.
fn read_file<R: Reader>(file: Option<R>, out: &mut [u8]) -> Result<usize, Failed>
    ensures within { IfOk result (λ count. count ≤ length out.new) }
    ensures bytes { (all : List ℕ) → reader_bytes R.bytes file ≡ Some all → IfOk result (λ count. take count out.new ≡ take count all) }
    ensures ended { (all : List ℕ) → reader_bytes R.bytes file ≡ Some all → IfOk result (λ count. count < length out.new → count ≡ length all) }
    ensures failed { IsErr result → IsFaulty R.number R.faults file }
{
    match file {
        Some(mut reader) => read_front(&mut reader, out),
        None => Ok(0),
    }
}

/// Reads the first bytes of a reader, as many as fit or as there are, and answers how many.
fn read_front<R: Reader>(reader: &mut R, out: &mut [u8]) -> Result<usize, Failed>
    ensures within { IfOk result (λ count. count ≤ length out.new) }
    ensures bytes { (all : List ℕ) → R.bytes reader.old ≡ Some all → IfOk result (λ count. take count out.new ≡ take count all) }
    ensures ended { (all : List ℕ) → R.bytes reader.old ≡ Some all → IfOk result (λ count. count < length out.new → count ≡ length all) }
    ensures number { R.number reader.new ≡ R.number reader.old }
    ensures failed { IsErr result → 0 < R.faults reader.new }
{
    let mut done = 0;
    'pieces: while done < out.len() {
        let count = reader.read(done as u64, &mut out[done..])?;
        if count == 0 {
            return Ok(done);
        }
        done += count;
    }
    Ok(done)
}
