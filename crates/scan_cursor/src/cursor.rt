//! A cursor.
use volume_layout::Place;

/// Where the scan of a volume stands. Times are in milliseconds since 1970.
#[derive(Clone, Copy, Debug, PartialEq, Eq)]
pub struct Cursor {
    /// When the cursor was saved.
    pub last_saved_ms: u64,
    /// When the pass over the volume began.
    pub iter_start_ms: u64,
    /// The place of the block that the pass was at last, behind which it goes on; zeros before the first block.
    pub place: Place,
    /// Whether the pass has come to its end.
    pub at_end: bool,
}
