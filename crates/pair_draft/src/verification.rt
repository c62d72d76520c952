//! Whether a block has the bytes that its meta file tells of.
ghost use Rattle.std.specs.Prelude.{◌≡◌, ◌+◌, ◌*◌, ◌^◌, ◌<◌, ◌≤◌, ◌⊎◌, List, ℕ, length, drop, Some, None, Ok, IfOk, IfErr, IfSome, IsErr};
ghost use Rattle.disk_model.specs.Causes.{Rose, HasCause};
ghost use Rattle.meta_file.specs.Checksums.{chunk_count};
ghost use Rattle.meta_file.specs.Headers.{IsHeader, IsHeaderFault, header_of};
ghost use Rattle.meta_file.specs.Sums.{polynomial};
ghost use Rattle.meta_file.specs.Verdicts.{length_verdict, sums_verdict, verdict_of};
ghost use Rattle.pair_draft.specs.Files.{file_bytes, file_faults, SameFile};
ghost use Rattle.pair_draft.specs.Checking.{IsUnderWay, IsSameCheck, Agrees, PieceAnswer, CountAnswer, IsOnLength};

use crate::checker::{BATCH, Checker};
use crate::files::{count_from, read_full};
use disk_model::{Failed, Reader};
use meta_file::{Header, MetaFault, Verdict, first_difference, read_header};

/// Where the checksums begin in a meta file.
const SUMS_AT: u64 = 7;

/// Reads the next piece of the block, and compares the chunks that end in it. It answers the verdict once one is known.
fn check_piece<R: Reader>(
    checker: &mut Checker,
    block: &mut Option<R>,
    meta: &mut Option<R>,
    buf: &mut [u8],
) -> Result<Option<Verdict>, Failed>
    requires under_way { IsUnderWay checker.old }
    requires left { checker.old.at < checker.old.len }
    requires buffer { 0 < length buf.old }
    requires step { checker.old.step ≤ 1048576 }
    requires offsets { 7 + 4 * chunk_count checker.old.summer.step checker.old.len < 2 ^ 64 }
    ensures under_way { IsUnderWay checker.new }
    ensures same { IsSameCheck checker.old checker.new }
    ensures further { result ≡ Ok None → checker.old.at < checker.new.at }
    ensures block { SameFile R.number R.bytes block.old block.new }
    ensures meta { SameFile R.number R.bytes meta.old meta.new }
    ensures block_later { file_faults R.faults block.old ≤ file_faults R.faults block.new }
    ensures meta_later { file_faults R.faults meta.old ≤ file_faults R.faults meta.new }
    ensures failed { IsErr result → Rose (file_faults R.faults block.old) (file_faults R.faults block.new)
        ⊎ Rose (file_faults R.faults meta.old) (file_faults R.faults meta.new) }
    ensures answer { (all sums : List ℕ) → file_bytes R.bytes block.old ≡ Some all → file_bytes R.bytes meta.old ≡ Some sums →
        length sums ≡ 7 + 4 * chunk_count checker.old.summer.step checker.old.len →
        Agrees checker.old (drop 7 sums) all →
        IfOk result (PieceAnswer checker.old checker.new (drop 7 sums) all) }
    ensures on_length { IfOk result (λ found. IfSome found (IsOnLength checker.old.len)) }
{
    let most = ((BATCH - 1) * checker.step as usize).min(buf.len());
    let want = most.min((checker.len - checker.at) as usize);
    let have = read_full(block, checker.at, &mut buf[..want])?;
    let chunk = checker.at / u64::from(checker.step);
    let mut computed = [0u8; 4 * BATCH];
    let count = checker.take_in(&buf[..have], &mut computed);
    let mut stored = [0u8; 4 * BATCH];
    read_full(meta, SUMS_AT + 4 * chunk, &mut stored[..count])?;
    if let Some(found) = first_difference(&stored[..count], &computed[..count]) {
        return Ok(Some(Verdict::BadChunk {
            chunk: chunk + found.place as u64,
            stored: found.stored,
            computed: found.computed,
        }));
    }
    if have < want {
        return Ok(Some(Verdict::Short {
            want: checker.len,
            have: checker.at,
        }));
    }
    Ok(None)
}

/// Compares the chunks of a block with the checksums of its meta file, in order.
fn check_chunks<R: Reader>(
    block: &mut Option<R>,
    meta: &mut Option<R>,
    header: Header,
    len: u64,
    buf: &mut [u8],
) -> Result<Verdict, Failed>
    requires header { IsHeader header }
    requires sums { 0 < header.kind }
    requires buffer { 0 < length buf.old }
    requires offsets { 7 + 4 * chunk_count header.step len < 2 ^ 64 }
    ensures block { SameFile R.number R.bytes block.old block.new }
    ensures meta { SameFile R.number R.bytes meta.old meta.new }
    ensures block_later { file_faults R.faults block.old ≤ file_faults R.faults block.new }
    ensures meta_later { file_faults R.faults meta.old ≤ file_faults R.faults meta.new }
    ensures failed { IsErr result → Rose (file_faults R.faults block.old) (file_faults R.faults block.new)
        ⊎ Rose (file_faults R.faults meta.old) (file_faults R.faults meta.new) }
    ensures verdict { (all sums : List ℕ) → file_bytes R.bytes block.old ≡ Some all → file_bytes R.bytes meta.old ≡ Some sums →
        length sums ≡ 7 + 4 * chunk_count header.step len →
        IfOk result (λ verdict. verdict ≡ sums_verdict (polynomial header.kind) header.step (drop 7 sums) all len) }
    ensures on_length { IfOk result (IsOnLength len) }
{
    let mut checker = Checker::new(header, len);
    'pieces: while checker.at < len {
        if let Some(verdict) = check_piece(&mut checker, block, meta, buf)? {
            return Ok(verdict);
        }
    }
    Ok(Verdict::Whole)
}

/// The verdict where not as many bytes of checksums stand as must.
fn check_count<R: Reader>(
    meta: &mut Option<R>,
    step: u32,
    len: u64,
    buf: &mut [u8],
) -> Result<Option<Verdict>, Failed>
    requires step { 1 ≤ step }
    requires buffer { 0 < length buf.old }
    ensures same { SameFile R.number R.bytes meta.old meta.new }
    ensures cause { HasCause (file_faults R.faults meta.old) (file_faults R.faults meta.new) (IsErr result) }
    ensures counted { result ≡ Ok None → 7 + 4 * chunk_count step len < 2 ^ 64 }
    ensures answer { (sums : List ℕ) → file_bytes R.bytes meta.old ≡ Some sums → length sums < 2 ^ 64 →
        IfOk result (CountAnswer (4 * chunk_count step len) (length (drop 7 sums))) }
    ensures on_length { IfOk result (λ found. IfSome found (IsOnLength len)) }
{
    let want = 4 * ((u128::from(len) + u128::from(step - 1)) / u128::from(step));
    let most = (want + 1).min(u128::from(u64::MAX - SUMS_AT)) as u64;
    let have = u128::from(count_from(meta, SUMS_AT, most, buf)?);
    if have == want {
        Ok(None)
    } else {
        Ok(Some(Verdict::Count { want, have }))
    }
}

/// Reads the header of a meta file.
fn read_meta_header<R: Reader>(meta: &mut Option<R>) -> Result<Result<Header, MetaFault>, Failed>
    ensures same { SameFile R.number R.bytes meta.old meta.new }
    ensures cause { HasCause (file_faults R.faults meta.old) (file_faults R.faults meta.new) (IsErr result) }
    ensures header { (sums : List ℕ) → file_bytes R.bytes meta.old ≡ Some sums → IfOk result (λ header. header ≡ header_of sums) }
    ensures valid { IfOk result (λ header. IfOk header IsHeader) }
    ensures fault { IfOk result (λ header. IfErr header IsHeaderFault) }
{
    let mut bytes = [0u8; 7];
    let have = read_full(meta, 0, &mut bytes)?;
    Ok(read_header(&bytes[..have]))
}

/// The verdict on a block whose meta file has no checksums.
fn check_length<R: Reader>(
    block: &mut Option<R>,
    len: u64,
    buf: &mut [u8],
) -> Result<Verdict, Failed>
    requires { 0 < length buf.old }
    ensures same { SameFile R.number R.bytes block.old block.new }
    ensures cause { HasCause (file_faults R.faults block.old) (file_faults R.faults block.new) (IsErr result) }
    ensures verdict { (all : List ℕ) → file_bytes R.bytes block.old ≡ Some all →
        IfOk result (λ verdict. verdict ≡ length_verdict len (length all)) }
    ensures on_length { IfOk result (IsOnLength len) }
{
    let have = count_from(block, 0, len, buf)?;
    if have < len {
        Ok(Verdict::Short { want: len, have })
    } else {
        Ok(Verdict::Whole)
    }
}

/// Reads a block's meta file and the first `len` bytes of the block, and answers the verdict on them. An absent file is
/// read as one without bytes. Files are read through `buf`, of which a length of many chunks serves speed; no memory is
/// taken.
pub fn verify<R: Reader>(
    block: &mut Option<R>,
    meta: &mut Option<R>,
    len: u64,
    buf: &mut [u8],
) -> Result<Verdict, Failed>
    requires { 0 < length buf.old }
    ensures verdict { (block_bytes meta_bytes : List ℕ) → file_bytes R.bytes block.old ≡ Some block_bytes →
        file_bytes R.bytes meta.old ≡ Some meta_bytes → length meta_bytes < 2 ^ 64 →
        IfOk result (λ verdict. verdict ≡ verdict_of meta_bytes block_bytes len) }
    ensures on_length { IfOk result (IsOnLength len) }
    ensures block { SameFile R.number R.bytes block.old block.new }
    ensures meta { SameFile R.number R.bytes meta.old meta.new }
    ensures block_later { file_faults R.faults block.old ≤ file_faults R.faults block.new }
    ensures meta_later { file_faults R.faults meta.old ≤ file_faults R.faults meta.new }
    ensures failed { IsErr result → Rose (file_faults R.faults block.old) (file_faults R.faults block.new)
        ⊎ Rose (file_faults R.faults meta.old) (file_faults R.faults meta.new) }
{
    let header = match read_meta_header(meta)? {
        Ok(header) => header,
        Err(fault) => return Ok(Verdict::Meta(fault)),
    };
    if header.kind == 0 {
        return check_length(block, len, buf);
    }
    if let Some(verdict) = check_count(meta, header.step, len, buf)? {
        return Ok(verdict);
    }
    check_chunks(block, meta, header, len, buf)
}
