//! What stands at a place.

/// What stands at a place: nothing, a draft, or a settled file with its bytes.
#[derive(Clone, Copy)]
pub enum Standing<'a> {
    Absent,
    Draft,
    File(&'a [u8]),
}
