//! Checksums of 32 bits by tables of eight bytes ("slicing by eight").
ghost use Rattle.std.specs.Prelude.{◌≡◌, ◌≤◌, length, take};
ghost use Rattle.meta_file.specs.Tables.{after, bit_step, bit_steps, AreTables};

use byteorder::{ByteOrder, LittleEndian};

/// One bit.
#[tactic(auto, unfolding(crate::specs::Tables::bit_step))]
fn bit_step(poly: u32, x: u32) -> u32
    ensures { result ≡ bit_step poly x }
{
    if x & 1 == 1 { (x >> 1) ^ poly } else { x >> 1 }
}

/// What eight bits make of a number.
fn eight_steps(poly: u32, x: u32) -> u32
    ensures { result ≡ bit_steps poly 8 x }
{
    let mut state = x;
    for bit in 0..8u32 {
        state = bit_step(poly, state);
    }
    state
}

/// A reflected polynomial with its tables of eight bytes.
#[derive(Drop)]
pub struct Tables {
    pub poly: u32,
    entries: [u32; 2048],
    ghost filled: { AreTables poly entries },
}

fn tables_of(poly: u32) -> [u32; 2048]
    ensures { AreTables poly result }
{
    let mut tables = [0u32; 2048];
    for k in 0..256usize {
        tables[k] = eight_steps(poly, k as u32);
    }
    for i in 256..2048usize {
        let before = tables[i - 256];
        tables[i] = (before >> 8) ^ tables[(before & 0xff) as usize];
    }
    tables
}

impl Tables {
    /// The tables of a polynomial.
    pub fn new(poly: u32) -> Tables
        ensures { result.poly ≡ poly }
    {
        Tables {
            poly,
            entries: tables_of(poly),
        }
    }

    /// The register after the first eight bytes.
    #[inline]
    fn eight_bytes(&self, state: u32, bytes: &[u8]) -> u32
        requires { 8 ≤ length bytes.now }
        ensures { result ≡ after self.now.poly state (take 8 bytes.now) }
    {
        let word = u64::from(state) ^ LittleEndian::read_u64(bytes);
        self.entries[(word >> 56) as usize]
            ^ self.entries[256 + (word >> 48 & 0xff) as usize]
            ^ self.entries[512 + (word >> 40 & 0xff) as usize]
            ^ self.entries[768 + (word >> 32 & 0xff) as usize]
            ^ self.entries[1024 + (word >> 24 & 0xff) as usize]
            ^ self.entries[1280 + (word >> 16 & 0xff) as usize]
            ^ self.entries[1536 + (word >> 8 & 0xff) as usize]
            ^ self.entries[1792 + (word & 0xff) as usize]
    }

    /// The register after some more bytes.
    pub fn update(&self, state: u32, bytes: &[u8]) -> u32
        ensures { result ≡ after self.now.poly state bytes.now }
    {
        let mut state = state;
        let mut at = 0;
        while bytes.len() - at >= 8 {
            state = self.eight_bytes(state, &bytes[at..]);
            at += 8;
        }
        for byte in &bytes[at..] {
            let low = (state ^ u32::from(*byte)) & 0xff;
            state = (state >> 8) ^ self.entries[low as usize];
        }
        state
    }

    /// The registers after two pieces of the same length, side by side.
    pub fn update_two(&self, first: u32, second: u32, one: &[u8], other: &[u8]) -> (u32, u32)
        requires { length one.now ≡ length other.now }
        ensures first { result.0 ≡ after self.now.poly first one.now }
        ensures second { result.1 ≡ after self.now.poly second other.now }
    {
        let mut first = first;
        let mut second = second;
        let mut at = 0;
        while one.len() - at >= 8 {
            first = self.eight_bytes(first, &one[at..]);
            second = self.eight_bytes(second, &other[at..]);
            at += 8;
        }
        (
            self.update(first, &one[at..]),
            self.update(second, &other[at..]),
        )
    }
}
