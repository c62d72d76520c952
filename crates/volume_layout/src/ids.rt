// Block ids and generation stamps.
ghost use Rattle.std.specs.Prelude.{◌≡◌};
ghost use Rattle.std.specs.Option.{SomeIff};
ghost use Rattle.volume_layout.specs.Paths as paths;

use std::marker::Model;

/// The id of a block, from 1 to 2^63 - 1: the positive half of the 64-bit ids that the HDFS on-disk format gives to
/// blocks.
#[derive(Clone, Copy, Debug, PartialEq, Eq, PartialOrd, Ord)]
pub struct BlockId(pub(crate) u64);

impl Model for BlockId {
    ghost use Rattle.std.specs.Prelude.{ℕ};
    ghost use Rattle.volume_layout.specs.Paths.{IsBlockId};

    ghost Value = { ℕ };

    ghost view = { λ id. id.0 };

    ghost invariant = { λ id. IsBlockId id.0 };

    ghost inverse = { λ n. record { 0 = n } };
}

impl BlockId {
    /// The id `n`, where it is in the range.
    pub fn new(n: u64) -> Option<BlockId>
        ensures { SomeIff result (paths.IsBlockId n) n }
    {
        if n >= 1 && n < 1 << 63 {
            Some(BlockId(n))
        } else {
            None
        }
    }

    /// The number.
    pub fn get(self) -> u64
        ensures value { result ≡ self }
        ensures in_range { paths.IsBlockId self }
    {
        self.0
    }
}

/// The generation stamp of a replica, from 1 to 2^63 - 1. A write that begins draws a greater one than all before it.
#[derive(Clone, Copy, Debug, PartialEq, Eq, PartialOrd, Ord)]
pub struct Stamp(pub(crate) u64);

impl Model for Stamp {
    ghost use Rattle.std.specs.Prelude.{ℕ};
    ghost use Rattle.volume_layout.specs.Paths.{IsStamp};

    ghost Value = { ℕ };

    ghost view = { λ stamp. stamp.0 };

    ghost invariant = { λ stamp. IsStamp stamp.0 };

    ghost inverse = { λ n. record { 0 = n } };
}

impl Stamp {
    /// The stamp `n`, where it is in the range.
    pub fn new(n: u64) -> Option<Stamp>
        ensures { SomeIff result (paths.IsStamp n) n }
    {
        if n >= 1 && n < 1 << 63 {
            Some(Stamp(n))
        } else {
            None
        }
    }

    /// The number.
    pub fn get(self) -> u64
        ensures value { result ≡ self }
        ensures in_range { paths.IsStamp self }
    {
        self.0
    }
}
