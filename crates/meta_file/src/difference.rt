//! Stored checksums beside computed ones.
ghost use Rattle.std.specs.Prelude.{◌≡◌, ◌<◌, ◌≤◌, ◌+◌, ◌*◌, ℕ, None, length, IfSome, IfNone};
ghost use Rattle.meta_file.specs.Verdicts.{stored_sum, SameSums, IsFirstDifference};

use byteorder::{BigEndian, ByteOrder};

/// Two checksums that differ.
#[derive(Clone, Copy, Debug, PartialEq, Eq)]
pub struct Difference {
    /// Whose they are: how many checksums stand before them.
    pub place: usize,
    pub stored: u32,
    pub computed: u32,
}

/// The checksum that stands behind so many others.
#[inline]
fn sum_at(sums: &[u8], place: usize) -> u32
    requires { 4 * place + 4 ≤ length sums.now }
    ensures { result ≡ stored_sum sums.now place }
{
    BigEndian::read_u32(&sums[4 * place..])
}

/// The first checksums that differ, of two lists of the same length.
pub fn first_difference(stored: &[u8], computed: &[u8]) -> Option<Difference>
    requires { length stored.now ≡ length computed.now }
    ensures none { IfNone result (SameSums stored.now computed.now) }
    ensures some { IfSome result (λ d. IsFirstDifference stored.now computed.now d.place d.stored d.computed) }
{
    for place in 0..stored.len() / 4 {
        let one = sum_at(stored, place);
        let other = sum_at(computed, place);
        if one != other {
            return Some(Difference {
                place,
                stored: one,
                computed: other,
            });
        }
    }
    None
}
