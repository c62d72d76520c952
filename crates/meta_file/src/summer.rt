//! The checksums of bytes that come in pieces.
ghost use Rattle.std.specs.Prelude.{◌≡◌, ◌≤◌, ◌<◌, ◌+◌, ◌*◌, ◌/◌, ◌%◌, ◌-◌, ◌^◌, [], ◌++◌, length, take, vec_len, IsOk, IfSome, IfNone, OnOk, OnErr};
ghost use Rattle.std.specs.Vec.{vec_capacity};
ghost use Rattle.byteorder.specs.Endian.{big_bytes};
ghost use Rattle.meta_file.specs.Checksums.{big_endian};
ghost use Rattle.meta_file.specs.Headers.{IsHeader};
ghost use Rattle.meta_file.specs.Sums.{polynomial, Summed, Gives, Ends, Adds, Completes};

use crate::crc::Tables;
use crate::header::Header;
use byteorder::{BigEndian, ByteOrder};
use std::alloc::AllocError;
use std::marker::Model;

/// The reflected polynomial of CRC-32.
const ETHERNET: u32 = 0xedb8_8320;

/// The reflected polynomial of CRC-32C.
const CASTAGNOLI: u32 = 0x82f6_3b78;

/// How many checksums are gathered before they are appended.
const BATCH: usize = 256;

/// Computes the checksums of a block's chunks from its bytes, which come in pieces of any lengths. It holds tables of
/// 8 KiB and takes no memory of its own.
#[derive(Drop)]
pub struct Summer {
    header: Header,
    tables: Tables,
    filled: u32,
    register: u32,
}

impl Model for Summer {
    ghost use Rattle.std.specs.Prelude.{◌≡◌, ◌<◌, ◌≤◌};
    ghost use Rattle.meta_file.specs.Sums.{Progress, polynomial};

    ghost Value = { Progress };

    ghost view = { λ s. record { kind = s.header.kind; step = s.header.step; filled = s.filled; register = s.register } };

    ghost invariant = { λ s. (s.filled < s.header.step) × (s.header.step ≤ 1048576) × (s.tables.poly ≡ polynomial s.header.kind) };
}

/// The polynomial of a type.
fn polynomial(kind: u8) -> u32
    ensures { result ≡ polynomial kind }
{
    match kind {
        0 => 0,
        1 => ETHERNET,
        _ => CASTAGNOLI,
    }
}

/// Writes a checksum, big-endian, to the front of `out`.
fn put_sum(out: &mut [u8], sum: u32)
    requires { 4 ≤ length out.old }
    ensures front { take 4 out.new ≡ big_bytes 4 sum }
    ensures value { big_endian 0 (big_bytes 4 sum) ≡ sum }
{
    BigEndian::write_u32(out, sum);
}

/// How many bytes were taken in, and how many bytes of checksums they completed.
#[derive(Clone, Copy)]
struct Taken {
    bytes: usize,
    sums: usize,
}

impl Summer {
    /// A summer for a meta file with this header.
    pub fn new(header: Header) -> Summer
        requires { IsHeader header }
        ensures kind { result.kind ≡ header.kind }
        ensures step { result.step ≡ header.step }
        ensures filled { result.filled ≡ 0 }
        ensures start { Summed result [] [] }
    {
        Summer {
            header,
            tables: Tables::new(polynomial(header.kind)),
            filled: 0,
            register: u32::MAX,
        }
    }

    /// Takes in the front of a piece that isn't empty, up to the end of the chunk at most.
    fn take_chunk(&mut self, piece: &[u8], out: &mut [u8]) -> Taken
        requires some { 0 < length piece.now }
        requires sums { 0 < self.old.kind }
        requires room { self.old.step ≤ self.old.filled + length piece.now → 4 ≤ length out.old }
        ensures kind { self.new.kind ≡ self.old.kind }
        ensures step { self.new.step ≡ self.old.step }
        ensures within { self.new.filled < self.new.step }
        ensures some { 0 < result.bytes }
        ensures few { result.bytes ≤ length piece.now }
        ensures fits { result.sums ≤ length out.new }
        ensures gives { Gives self.old self.new (take result.bytes piece.now) (take result.sums out.new) }
        ensures count { result.sums + 4 * ((self.new.filled + (length piece.now - result.bytes)) / self.old.step)
            ≡ 4 * ((self.old.filled + length piece.now) / self.old.step) }
        ensures filled { (self.new.filled + (length piece.now - result.bytes)) % self.old.step
            ≡ (self.old.filled + length piece.now) % self.old.step }
    {
        let left = (self.header.step - self.filled) as usize;
        let bytes = piece.len().min(left);
        let register = self.tables.update(self.register, &piece[..bytes]);
        if bytes < left {
            self.filled += bytes as u32;
            self.register = register;
            return Taken { bytes, sums: 0 };
        }
        put_sum(out, register ^ u32::MAX);
        self.filled = 0;
        self.register = u32::MAX;
        Taken { bytes, sums: 4 }
    }

    /// Takes in two whole chunks, side by side.
    fn take_two(&mut self, piece: &[u8], out: &mut [u8]) -> Taken
        requires two { 2 * self.old.step ≤ length piece.now }
        requires start { self.old.filled ≡ 0 }
        requires sums { 0 < self.old.kind }
        requires room { 8 ≤ length out.old }
        ensures kind { self.new.kind ≡ self.old.kind }
        ensures step { self.new.step ≡ self.old.step }
        ensures filled { self.new.filled ≡ 0 }
        ensures bytes { result.bytes ≡ 2 * self.old.step }
        ensures sums { result.sums ≡ 8 }
        ensures some { 0 < result.bytes }
        ensures gives { Gives self.old self.new (take result.bytes piece.now) (take result.sums out.new) }
    {
        let step = self.header.step as usize;
        let start = u32::MAX;
        let (one, other) = self.tables.update_two(
            self.register,
            start,
            &piece[..step],
            &piece[step..2 * step],
        );
        put_sum(out, one ^ u32::MAX);
        put_sum(&mut out[4..], other ^ u32::MAX);
        self.filled = 0;
        self.register = start;
        Taken {
            bytes: 2 * step,
            sums: 8,
        }
    }

    /// Takes in the front of a piece that isn't empty: two chunks where it has them, else up to the end of the chunk.
    fn take_next(&mut self, piece: &[u8], out: &mut [u8]) -> Taken
        requires some { 0 < length piece.now }
        requires sums { 0 < self.old.kind }
        requires room { 4 * ((self.old.filled + length piece.now) / self.old.step) ≤ length out.old }
        ensures kind { self.new.kind ≡ self.old.kind }
        ensures step { self.new.step ≡ self.old.step }
        ensures within { self.new.filled < self.new.step }
        ensures some { 0 < result.bytes }
        ensures few { result.bytes ≤ length piece.now }
        ensures fits { result.sums ≤ length out.new }
        ensures gives { Gives self.old self.new (take result.bytes piece.now) (take result.sums out.new) }
        ensures count { result.sums + 4 * ((self.new.filled + (length piece.now - result.bytes)) / self.old.step)
            ≡ 4 * ((self.old.filled + length piece.now) / self.old.step) }
        ensures filled { (self.new.filled + (length piece.now - result.bytes)) % self.old.step
            ≡ (self.old.filled + length piece.now) % self.old.step }
    {
        if self.filled == 0 && piece.len() >= 2 * self.header.step as usize {
            self.take_two(piece, out)
        } else {
            self.take_chunk(piece, out)
        }
    }

    /// Takes in a piece, and writes to the front of `out` the checksums of the chunks that it fills, four bytes each,
    /// big-endian: so many bytes. It takes no memory.
    pub fn sum_into(&mut self, piece: &[u8], out: &mut [u8]) -> usize
        requires sums { 0 < self.old.kind }
        requires room { 4 * ((self.old.filled + length piece.now) / self.old.step) ≤ length out.old }
        ensures kind { self.new.kind ≡ self.old.kind }
        ensures step { self.new.step ≡ self.old.step }
        ensures filled { self.new.filled ≡ (self.old.filled + length piece.now) % self.old.step }
        ensures count { result ≡ 4 * ((self.old.filled + length piece.now) / self.old.step) }
        ensures gives { Gives self.old self.new piece.now (take result out.new) }
    {
        let count = 4 * ((self.filled as usize + piece.len()) / self.header.step as usize);
        let mut at = 0;
        let mut place = 0;
        while at < piece.len() {
            let taken = self.take_next(&piece[at..], &mut out[place..]);
            at += taken.bytes;
            place += taken.sums;
        }
        count
    }

    /// Writes the checksum of the last chunk to the front of `out`, where it isn't full and isn't empty: so many bytes.
    pub fn rest_into(&self, out: &mut [u8]) -> usize
        requires room { 4 ≤ length out.old }
        ensures few { result ≤ 4 }
        ensures none { self.now.filled ≡ 0 → result ≡ 0 }
        ensures ends { Ends self.now (take result out.new) }
    {
        if self.header.kind == 0 || self.filled == 0 {
            return 0;
        }
        put_sum(out, self.register ^ u32::MAX);
        4
    }

    /// Takes in the front of a piece that isn't empty, and appends its checksums: so many bytes.
    fn take_some(&mut self, piece: &[u8], out: &mut Vec<u8>) -> usize
        requires some { 0 < length piece.now }
        requires sums { 0 < self.old.kind }
        requires room { vec_len out.old + 4 * ((self.old.filled + length piece.now) / self.old.step)
            ≤ vec_capacity out.old }
        ensures kind { self.new.kind ≡ self.old.kind }
        ensures step { self.new.step ≡ self.old.step }
        ensures some { 0 < result }
        ensures few { result ≤ length piece.now }
        ensures adds { Adds self.old self.new (take result piece.now) out.old.items out.new.items }
        ensures room { vec_len out.new + 4 * ((self.new.filled + (length piece.now - result)) / self.old.step)
            ≤ vec_len out.old + 4 * ((self.old.filled + length piece.now) / self.old.step) }
        ensures capacity { vec_capacity out.old ≤ vec_capacity out.new }
    {
        let mut sums = [0u8; 4 * BATCH];
        let taken = piece.len().min((BATCH - 1) * self.header.step as usize);
        let count = self.sum_into(&piece[..taken], &mut sums);
        out.extend_from_slice(&sums[..count]).unwrap();
        taken
    }

    /// Takes in a piece, where there is room for its checksums.
    fn take_all(&mut self, piece: &[u8], out: &mut Vec<u8>)
        requires sums { 0 < self.old.kind }
        requires stepped { 0 < self.old.step }
        requires room { vec_len out.old + 4 * ((self.old.filled + length piece.now) / self.old.step)
            ≤ vec_capacity out.old }
        ensures kind { self.new.kind ≡ self.old.kind }
        ensures step { self.new.step ≡ self.old.step }
        ensures adds { Adds self.old self.new piece.now out.old.items out.new.items }
    {
        let mut at = 0;
        while at < piece.len() {
            at += self.take_some(&piece[at..], out);
        }
    }

    /// How many bytes of checksums a piece completes, unless they are too many to be counted.
    pub fn room_for(&self, piece: &[u8]) -> Option<usize>
        ensures some { IfSome result (λ n. n ≡ 4 * ((self.now.filled + length piece.now) / self.now.step)) }
        ensures none { IfNone result (2 ^ 64 ≤ 4 * ((self.now.filled + length piece.now) / self.now.step)) }
    {
        let chunks = (self.filled as usize + piece.len()) / self.header.step as usize;
        chunks.checked_mul(4)
    }

    /// Takes in a piece, and appends to `out` the checksums of the chunks that it fills, four bytes each, big-endian;
    /// of type 0 none. It finds no memory only where `out` has no room for them; then nothing has changed but the
    /// capacity of `out`.
    pub fn push(&mut self, piece: &[u8], out: &mut Vec<u8>) -> Result<(), AllocError>
        ensures kind { self.new.kind ≡ self.old.kind }
        ensures step { self.new.step ≡ self.old.step }
        ensures ok { OnOk result (Adds self.old self.new piece.now out.old.items out.new.items) }
        ensures err { OnErr result ((self.new ≡ self.old) × (out.new.items ≡ out.old.items)) }
        ensures room { vec_len out.old + 4 * ((self.old.filled + length piece.now) / self.old.step)
            ≤ vec_capacity out.old → IsOk result }
    {
        if self.header.kind == 0 {
            return Ok(());
        }
        let room = self.room_for(piece).ok_or(AllocError)?;
        out.reserve(room)?;
        self.take_all(piece, out);
        Ok(())
    }

    /// Appends the checksum of the last chunk, where it isn't full and isn't empty. It finds no memory only where `out`
    /// has no room for it.
    pub fn finish(self, out: &mut Vec<u8>) -> Result<(), AllocError>
        ensures ok { OnOk result (Completes self out.old.items out.new.items) }
        ensures err { OnErr result (out.new.items ≡ out.old.items) }
        ensures room { vec_len out.old + 4 ≤ vec_capacity out.old → IsOk result }
    {
        let mut sum = [0u8; 4];
        let count = self.rest_into(&mut sum);
        out.extend_from_slice(&sum[..count])
    }
}
