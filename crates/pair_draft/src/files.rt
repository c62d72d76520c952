//! Reading of files that may be absent. An absent file is read as one without bytes.
ghost use Rattle.std.specs.Prelude.{◌≡◌, ◌+◌, ◌-◌, ◌^◌, ◌<◌, ◌≤◌, ℕ, List, length, take, drop, min, Some, IfOk, IsErr};
ghost use Rattle.disk_model.specs.Causes.{HasCause};
ghost use Rattle.disk_model.specs.Readers.{ReadsAt};
ghost use Rattle.pair_draft.specs.Files.{file_bytes, file_faults, SameFile};

use disk_model::{Failed, Reader};

/// Reads from an offset on into the front of `out`, and answers how many bytes.
fn read_at<R: Reader>(file: &mut Option<R>, at: u64, out: &mut [u8]) -> Result<usize, Failed>
    ensures same { SameFile R.number R.bytes file.old file.new }
    ensures within { IfOk result (λ n. n ≤ length out.new) }
    ensures read { IfOk result (λ n. ReadsAt (file_bytes R.bytes file.old) at n out.new) }
    ensures cause { HasCause (file_faults R.faults file.old) (file_faults R.faults file.new) (IsErr result) }
{
    match file {
        Some(reader) => reader.read(at, out),
        None => Ok(0),
    }
}

/// Reads from an offset on, as many bytes as fit or as there are, and answers how many.
pub fn read_full<R: Reader>(file: &mut Option<R>, at: u64, out: &mut [u8]) -> Result<usize, Failed>
    requires { at + length out.old < 2 ^ 64 }
    ensures same { SameFile R.number R.bytes file.old file.new }
    ensures within { IfOk result (λ n. n ≤ length out.new) }
    ensures count { (all : List ℕ) → file_bytes R.bytes file.old ≡ Some all →
        IfOk result (λ n. n ≡ min (length out.new) (length all - at)) }
    ensures read { (all : List ℕ) → file_bytes R.bytes file.old ≡ Some all →
        IfOk result (λ n. take n out.new ≡ take n (drop at all)) }
    ensures cause { HasCause (file_faults R.faults file.old) (file_faults R.faults file.new) (IsErr result) }
{
    let mut done = 0;
    'pieces: while done < out.len() {
        let count = read_at(file, at + done as u64, &mut out[done..])?;
        if count == 0 {
            return Ok(done);
        }
        done += count;
    }
    Ok(done)
}

/// How many bytes stand from an offset on, of at most so many. They are read through `buf`.
pub fn count_from<R: Reader>(
    file: &mut Option<R>,
    at: u64,
    most: u64,
    buf: &mut [u8],
) -> Result<u64, Failed>
    requires buffer { 0 < length buf.old }
    requires room { at + most < 2 ^ 64 }
    ensures same { SameFile R.number R.bytes file.old file.new }
    ensures within { IfOk result (λ n. n ≤ most) }
    ensures count { (all : List ℕ) → file_bytes R.bytes file.old ≡ Some all → IfOk result (λ n. n ≡ min most (length all - at)) }
    ensures cause { HasCause (file_faults R.faults file.old) (file_faults R.faults file.new) (IsErr result) }
{
    let mut count = 0;
    'pieces: while count < most {
        let piece = buf.len().min((most - count) as usize);
        let read = read_at(file, at + count, &mut buf[..piece])?;
        if read == 0 {
            return Ok(count);
        }
        count += read as u64;
    }
    Ok(count)
}
