//! Cursors are read.
ghost use Rattle.std.specs.Prelude.{◌≡◌, ◌⊎◌, Some, None, Err, IfOk, IfErr};
ghost use Rattle.serde_json.specs.View.{view};
ghost use Rattle.scan_cursor.specs.Forms.{IsInForm};
ghost use Rattle.scan_cursor.specs.Reading.{reading};
ghost use Rattle.scan_cursor.specs.Cursors.{cursor_of, cursor_in};

use crate::cursor::Cursor;
use crate::fault::{CursorFault, MemberName};
use crate::members::{bool_at, number_at, number_to};
use serde_json::Value;
use std::alloc::Global;
use volume_layout::Place;

/// The most bytes that a cursor may have.
const MOST_BYTES: usize = 4_096;

/// The greatest number of a directory.
const LAST_DIRECTORY: u64 = 31;

/// The greatest id of a block.
const LAST_ID: u64 = 9_223_372_036_854_775_807;

/// The fault of a member that is absent or out of form.
fn member(name: MemberName) -> CursorFault
    ensures { result ≡ CursorFault.Member name }
{
    CursorFault::Member { name }
}

/// The value of a text.
fn parse(alloc: Global, text: &[u8]) -> Result<Value, CursorFault>
    ensures ok { IfOk result (λ value. reading text.now ≡ Some (view value)) }
    ensures err { IfErr result (λ fault. (fault ≡ CursorFault.Memory)
        ⊎ ((fault ≡ CursorFault.Syntax) × (reading text.now ≡ None))) }
{
    match Value::from_slice(alloc, text) {
        Ok(value) => Ok(value),
        Err(error) if error.is_memory() => Err(CursorFault::Memory),
        Err(_) => Err(CursorFault::Syntax),
    }
}

/// The cursor that a value is.
fn cursor_at(value: &Value) -> Result<Cursor, CursorFault>
    ensures cursor { result ≡ cursor_of (view value.now) }
    ensures in_form { IfOk result IsInForm }
{
    if !value.is_object() {
        return Err(CursorFault::Syntax);
    }
    let at_end = bool_at(value, "atEnd").ok_or(member(MemberName::AtEnd))?;
    let d1 = number_to(value, "d1", LAST_DIRECTORY).ok_or(member(MemberName::D1))?;
    let d2 = number_to(value, "d2", LAST_DIRECTORY).ok_or(member(MemberName::D2))?;
    let id = number_to(value, "id", LAST_ID).ok_or(member(MemberName::Id))?;
    let iter_start_ms = number_at(value, "iterStartMs").ok_or(member(MemberName::IterStartMs))?;
    let last_saved_ms = number_at(value, "lastSavedMs").ok_or(member(MemberName::LastSavedMs))?;
    let place = Place {
        d1: d1 as u8,
        d2: d2 as u8,
        id,
    };
    Ok(Cursor {
        last_saved_ms,
        iter_start_ms,
        place,
        at_end,
    })
}

/// Reads a cursor: a JSON object (RFC 8259) with the members `atEnd` (a truth value), `d1` and `d2` (0 to 31), `id` (0 to
/// 2^63 - 1), `iterStartMs` and `lastSavedMs` (0 to 2^64 - 1). A text of more than 4,096 bytes is refused unread, as
/// `Syntax`. Members that aren't used are passed over, and of a member that stands twice the last one counts.
pub fn read_cursor(alloc: Global, text: &[u8]) -> Result<Cursor, CursorFault>
    ensures cursor { (result ≡ Err CursorFault.Memory) ⊎ (result ≡ cursor_in text.now) }
    ensures in_form { IfOk result IsInForm }
{
    if text.len() > MOST_BYTES {
        return Err(CursorFault::Syntax);
    }
    let value = parse(alloc, text)?;
    cursor_at(&value)
}
