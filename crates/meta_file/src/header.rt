//! The headers of meta files: seven bytes, numbers big-endian.
ghost use Rattle.std.specs.Prelude.{◌≡◌, ◌≤◌, ◌++◌, Ok, Some, IfOk, IfErr, length, take, drop};
ghost use Rattle.meta_file.specs.Checksums.{HeaderIs, big_endian};
ghost use Rattle.meta_file.specs.Headers.{IsHeader, IsHeaderFault, header_of, header_bytes};
ghost use Rattle.meta_file.specs.Texts.{fault_text};

use byteorder::{BigEndian, ByteOrder};
use std::fmt;

/// How many bytes a header has.
const HEADER_LEN: usize = 7;

/// The version that meta files have.
const VERSION: u16 = 1;

/// The most bytes a checksum.
const MOST_STEP: u32 = 1_048_576;

/// The header of a meta file: its version is 1.
#[derive(Clone, Copy, Debug, PartialEq, Eq)]
pub struct Header {
    /// The type of the checksums: 0 none, 1 CRC-32, 2 CRC-32C.
    pub kind: u8,
    /// How many bytes of the block each checksum is of: 1 to 1,048,576.
    pub step: u32,
}

/// Why a meta file has no header.
#[derive(Clone, Copy, Debug, PartialEq, Eq)]
pub enum MetaFault {
    /// `short HAVE`: it has HAVE bytes, which are fewer than seven.
    Short { have: u64 },
    /// `version V`: its version isn't 1.
    Version { v: u16 },
    /// `type T`: its type is none of 0, 1 and 2.
    Kind { t: u8 },
    /// `step N`: its number of bytes a checksum is 0 or above 1,048,576.
    Step { n: u32 },
}

impl fmt::Display for MetaFault {
    ghost output = { λ part. Some (fault_text part) };

    fn fmt<W: fmt::Write>(&self, f: &mut fmt::Formatter<W>) -> fmt::Result {
        match self {
            MetaFault::Short { have } => write!(f, "short {have}"),
            MetaFault::Version { v } => write!(f, "version {v}"),
            MetaFault::Kind { t } => write!(f, "type {t}"),
            MetaFault::Step { n } => write!(f, "step {n}"),
        }
    }
}

/// The big-endian number of two bytes.
fn version_of(bytes: &[u8]) -> u16
    requires { 7 ≤ length bytes.now }
    ensures { result ≡ big_endian 0 (take 2 bytes.now) }
{
    BigEndian::read_u16(bytes)
}

/// The big-endian number of the four bytes behind the third.
fn step_of(bytes: &[u8]) -> u32
    requires { 7 ≤ length bytes.now }
    ensures { result ≡ big_endian 0 (take 4 (drop 3 bytes.now)) }
{
    BigEndian::read_u32(&bytes[3..])
}

/// Reads the header of a meta file, of which at least the first seven bytes are given where it has so many. It takes no
/// memory.
pub fn read_header(bytes: &[u8]) -> Result<Header, MetaFault>
    ensures header { result ≡ header_of bytes.now }
    ensures stands { IfOk result (λ header. HeaderIs bytes.now header.kind header.step) }
    ensures in_range { IfOk result IsHeader }
    ensures out_of_range { IfErr result IsHeaderFault }
{
    if bytes.len() < HEADER_LEN {
        return Err(MetaFault::Short {
            have: bytes.len() as u64,
        });
    }
    let v = version_of(bytes);
    if v != VERSION {
        return Err(MetaFault::Version { v });
    }
    let kind = bytes[2];
    if kind > 2 {
        return Err(MetaFault::Kind { t: kind });
    }
    let step = step_of(bytes);
    if step == 0 || step > MOST_STEP {
        return Err(MetaFault::Step { n: step });
    }
    Ok(Header { kind, step })
}

/// Writes a header. It takes no memory.
pub fn write_header(header: Header) -> [u8; 7]
    ensures bytes { result ≡ header_bytes header }
    ensures reads_back { IsHeader header → header_of result ≡ Ok header }
{
    let mut out = [0u8; HEADER_LEN];
    BigEndian::write_u16(&mut out, VERSION);
    out[2] = header.kind;
    BigEndian::write_u32(&mut out[3..], header.step);
    out
}
