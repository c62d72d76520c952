//! Why a start was refused.
/// Why a write or a read was not started.
#[derive(Clone, Copy, Debug, PartialEq, Eq)]
pub enum StartFault {
    /// A write of a block that has a replica.
    Exists,
    /// A read of a block that has none.
    None,
    /// The block is being written.
    Writing,
    /// Files of the block wait to be deleted.
    Waiting,
    /// The block is in doubt.
    Unsure,
    /// No volume has room for the length: `need` bytes are asked for, and `free` is the most that a volume has.
    Full { need: u64, free: u64 },
    /// The length passes the limit of a block, in bytes.
    TooLong { limit: u64 },
    /// No revision is left: the next one has reached 2^63.
    Worn,
    /// The disks failed.
    Failed,
    /// There was no memory.
    Memory,
}
