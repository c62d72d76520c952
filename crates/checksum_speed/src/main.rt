//! `checksum_speed`: sums a buffer of 65,536 bytes in chunks of 512 as often as its one word says, and prints how many bytes
//! of checksums the last turn gave. What it takes is measured from outside, by `bench/checksum_speed.py`.
#![tactic(auto)]

ghost use Rattle.std.specs.Prelude.{◌≡◌, ◌≤◌, ◌*◌, ◌/◌, length};

use meta_file::{Header, Summer};
use std::alloc::AllocError;
use std::env;
use std::io::Write;
use std::process::ExitCode;

/// The bytes of the buffer, and of its checksums.
const BYTES: usize = 65_536;

const SUMS: usize = 512;

/// Sums the bytes so often, and answers how many bytes of checksums the last turn gave.
fn sum_often(summer: &mut Summer, bytes: &[u8], sums: &mut [u8], turns: u64) -> usize
    requires kind { summer.old.kind ≡ 1 }
    requires step { summer.old.step ≡ 512 }
    requires filled { summer.old.filled ≡ 0 }
    requires bytes { length bytes.now ≡ 65536 }
    requires sums { length sums.old ≡ 512 }
{
    let mut count = 0;
    for _ in 0..turns {
        count = summer.sum_into(bytes, sums);
    }
    count
}

/// How often to sum, by the word of the command line: 1,000 times where it says nothing.
fn turns_of(rt: &HostRuntime) -> u64 {
    let Ok(mut words) = env::args(rt) else {
        return 1_000;
    };
    match words.nth(1) {
        Some(word) => word.parse::<u64>().unwrap_or(1_000),
        None => 1_000,
    }
}

/// Sums, and makes the line that is printed.
fn run(rt: &HostRuntime) -> Result<String, AllocError> {
    let alloc = rt.alloc();
    let bytes = vec![in alloc; 0xa5u8; BYTES]?;
    let mut sums = vec![in alloc; 0u8; SUMS]?;
    let mut summer = Summer::new(Header { kind: 1, step: 512 });
    let count = sum_often(&mut summer, &bytes, &mut sums, turns_of(rt));
    format!(in alloc; "{count}\n")
}

fn main(rt: HostRuntime) -> ExitCode {
    let Ok(line) = run(&rt) else {
        return ExitCode::from(4);
    };
    match rt.stdout().write_all(line.as_bytes()) {
        Ok(()) => ExitCode::from(0),
        Err(_) => ExitCode::from(3),
    }
}
