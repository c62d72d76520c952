//! What the calls of names did with disks in memory, in the order of the calls.

/// A change of names.
#[derive(Drop)]
pub enum Change {
    /// A draft was made.
    Created {
        number: u64,
        vol: u8,
        path: String,
    },
    /// A sealed draft of a volume and path was settled at a target.
    Published {
        vol: u8,
        path: String,
        bytes: Vec<u8>,
        target: String,
    },
    /// What stood at a path was taken away.
    Removed {
        vol: u8,
        path: String,
    },
    /// A file was settled at a path from outside.
    Put {
        vol: u8,
        path: String,
        bytes: Vec<u8>,
    },
}

/// A change, and whether it was done or its call failed.
#[derive(Drop)]
pub struct Recorded {
    pub change: Change,
    pub done: bool,
}
