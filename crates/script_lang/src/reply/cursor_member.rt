//! A member of a stored cursor.
ghost use Rattle.std.specs.Prelude.{Some};
ghost use Rattle.script_lang.specs.CursorMember.{cursor_member_text};

use std::fmt;

/// A member of a stored cursor.
#[derive(Clone, Copy, Debug, PartialEq, Eq)]
pub enum CursorMember {
    /// `atEnd`.
    AtEnd,
    /// `d1`.
    D1,
    /// `d2`.
    D2,
    /// `id`.
    Id,
    /// `iterStartMs`.
    IterStartMs,
    /// `lastSavedMs`.
    LastSavedMs,
}

impl fmt::Display for CursorMember {
    ghost output = { λ part. Some (cursor_member_text part) };

    fn fmt<W: fmt::Write>(&self, f: &mut fmt::Formatter<W>) -> fmt::Result {
        f.write_str(match self {
            CursorMember::AtEnd => "atEnd",
            CursorMember::D1 => "d1",
            CursorMember::D2 => "d2",
            CursorMember::Id => "id",
            CursorMember::IterStartMs => "iterStartMs",
            CursorMember::LastSavedMs => "lastSavedMs",
        })
    }
}
