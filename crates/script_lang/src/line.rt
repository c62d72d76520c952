//! The lines of a script, by what they are about.
use crate::bytes::Bytes;
use crate::text::Text;
use volume_layout::{BlockId, Stamp};

/// A line of a script. Its words are parted by one space. Numbers are decimal digits without a sign or leading zeros.
/// ID and STAMP are 1 to 2^63 - 1, but in `execute` and `cancel` ID is a text of UTF-8 that isn't empty, and so is
/// POOL. VOL is 1 to 64, D1 and D2 are 0 to 31, T is 0 to 100, COUNT is at most 1,000,000, and other numbers are 0 to
/// 2^64 - 1. HEX is an even number of hexadecimal digits, in either case; where it is empty, its space is there all the
/// same. FORCE is 0 or 1. JSON is the rest of the line, and may be empty.
#[derive(Drop)]
pub enum Line {
    /// Passed over: it is empty, or begins with `#`.
    Blank,
    /// About the whole node.
    Node(NodeLine),
    /// A client's, about a block.
    Client(ClientLine),
    /// About the move of a replica from one volume to another.
    Move(MoveLine),
    /// About the disk balancer's plan.
    Balancer(BalancerLine),
    /// About the directory scanner and the volume scanner.
    Scan(ScanLine),
}

/// A line about the whole node.
#[derive(Drop)]
pub enum NodeLine {
    /// `at MS` sets the moment.
    At { ms: u64 },
    /// `use POOL` names the pool of the lines behind it.
    Use { pool: Text },
    /// `reopen` closes all pools and opens them again.
    Reopen,
    /// `report` gives the use of the volumes.
    Report,
    /// `fill COUNT SEED` writes COUNT blocks.
    Fill { count: u64, seed: u64 },
}

/// A client's line about a block.
#[derive(Drop)]
pub enum ClientLine {
    /// `open ID STAMP NEED` starts the write of a block of NEED bytes.
    Open {
        id: BlockId,
        stamp: Stamp,
        need: u64,
    },
    /// `grow ID STAMP MORE` starts an append of MORE bytes to a block.
    Grow {
        id: BlockId,
        stamp: Stamp,
        more: u64,
    },
    /// `push ID HEX` goes on with a write or an append.
    Push {
        id: BlockId,
        hex: Bytes,
    },
    /// `finish ID` ends it.
    Finish {
        id: BlockId,
    },
    /// `drop ID` gives it up.
    Drop {
        id: BlockId,
    },
    /// `write ID STAMP HEX` writes a whole block.
    Write {
        id: BlockId,
        stamp: Stamp,
        hex: Bytes,
    },
    /// `append ID STAMP HEX` appends bytes to a block.
    Append {
        id: BlockId,
        stamp: Stamp,
        hex: Bytes,
    },
    /// `read ID` gives the bytes of a block.
    Read {
        id: BlockId,
    },
    /// `delete ID` deletes a block.
    Delete {
        id: BlockId,
    },
}

/// A line about the move of a replica from one volume to another.
#[derive(Drop)]
pub enum MoveLine {
    /// `mbegin ID VOL` begins the move of a block to a volume.
    Begin { id: BlockId, vol: u8 },
    /// `mcopy ID N` copies at most N bytes of what is left.
    Copy { id: BlockId, n: u64 },
    /// `mseal ID` seals the copy.
    Seal { id: BlockId },
    /// `mpublish ID` publishes it.
    Publish { id: BlockId },
    /// `mdrop ID` gives the move up.
    Drop { id: BlockId },
    /// `sweep` removes a leftover.
    Sweep,
}

/// A line about the disk balancer's plan.
#[derive(Drop)]
pub enum BalancerLine {
    /// `balance T` plans with threshold T and submits the plan.
    Balance {
        t: u8,
    },
    /// `execute ID VERSION FORCE JSON` submits a plan.
    Execute {
        id: Text,
        version: u64,
        force: bool,
        json: Bytes,
    },
    /// `query` gives the submitted plan.
    Query,
    /// `cancel ID` cancels it.
    Cancel {
        id: Text,
    },
    /// `mover` makes one step of the plan's job.
    Mover,
}

/// A line about the directory scanner and the volume scanner.
#[derive(Drop)]
pub enum ScanLine {
    /// `dirlist VOL D1 D2` lists a directory.
    DirList { vol: u8, d1: u8, d2: u8 },
    /// `dirdiff` compares the listing with the books.
    DirDiff,
    /// `dirfix` settles a difference.
    DirFix,
    /// `volload VOL` loads the cursor of a volume's scan.
    VolLoad { vol: u8 },
    /// `volnext VOL` goes on to the next block.
    VolNext { vol: u8 },
    /// `volcheck VOL` checks it.
    VolCheck { vol: u8 },
    /// `volreport VOL` reports what came of it.
    VolReport { vol: u8 },
    /// `cursor VOL` saves the cursor of a volume's scan.
    Cursor { vol: u8 },
}
