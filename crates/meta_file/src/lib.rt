//! Meta files: the checksums of a block's chunks behind a header, as the HDFS on-disk format has them.
#![tactic(auto)]

mod checksums;
mod crc;
mod difference;
mod header;
mod summer;
mod verdict;

pub use checksums::{has_check_values, some_do_not_match, some_match};
pub use difference::{Difference, first_difference};
pub use header::{Header, MetaFault, read_header, write_header};
pub use summer::Summer;
pub use verdict::{Verdict, whole_is_match};

#[cfg(test)]
mod tests;
