//! What an opening makes of one block.

use dup_resolve::CopyRow;

/// What an opening makes of a block.
#[derive(Clone, Copy)]
pub enum Outcome {
    /// A replica: this copy of it is kept.
    Final(CopyRow),
    /// Files that wait to be deleted.
    Waiting,
    /// Nothing.
    Absent,
}
