// The order in which the replicas of a volume are gone over.
ghost use Rattle.std.specs.Prelude.{◌≡◌, ℕ, ◌<◌, ◌≢◌};
ghost use Rattle.std.specs.Bool.{Decides};
ghost use Rattle.volume_layout.specs.Paths as paths;
ghost use Rattle.volume_layout.specs.Places.{IsBefore, StartIsFirst, PlacesApart};

use crate::ids::BlockId;

/// A place in the order in which the replicas of a volume are gone over: by the two numbers of a directory of finalised
/// files, each 0 to 31, and then by the block's id.
#[derive(Clone, Copy, Debug, PartialEq, Eq, PartialOrd, Ord)]
pub struct Place {
    /// The number of the outer directory.
    pub d1: u8,
    /// The number of the inner directory.
    pub d2: u8,
    /// The block's id, or 0 before the first block of the directory.
    pub id: u64,
}

impl Place {
    /// Whether this place comes before the other.
    pub fn is_before(self, other: Place) -> bool
        ensures { Decides result (IsBefore self other) }
    {
        self < other
    }
}

/// The place before every block.
pub const START: Place = Place {
    d1: 0,
    d2: 0,
    id: 0,
};

/// The place of a block: bits 16 to 20 and bits 8 to 12 of its id number its directory, as in the HDFS on-disk format.
pub fn place_of(id: BlockId) -> Place
    ensures { result ≡ record { d1 = paths.outer_dir id; d2 = paths.inner_dir id; id = id } }
{
    let n = id.get();
    Place {
        d1: (n / 65536 % 32) as u8,
        d2: (n / 256 % 32) as u8,
        id: n,
    }
}

/// `START` comes before the place of every block.
pub fn start_is_first()
    ensures { StartIsFirst }
{}

/// Of the places of two different blocks, one comes before the other.
pub fn places_are_apart()
    ensures { PlacesApart }
{}
