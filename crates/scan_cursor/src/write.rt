//! Cursors are written.
ghost use Rattle.std.specs.Prelude.{◌≡◌, ◌<◌, ◌^◌, Ok, IfOk};
ghost use Rattle.serde_json.specs.View.{view};
ghost use Rattle.scan_cursor.specs.Forms.{IsInForm};
ghost use Rattle.scan_cursor.specs.Cursors.{cursor_in};
ghost use Rattle.scan_cursor.specs.Written.{cursor_value, cursor_text};

use crate::cursor::Cursor;
use serde_json::{Map, Value, json};
use std::alloc::{AllocError, Global};

/// The value of a cursor.
fn cursor_value(alloc: Global, cursor: &Cursor) -> Result<Value, AllocError>
    ensures value { IfOk result (λ value. view value ≡ cursor_value cursor.now) }
    ensures start { IfOk result (λ _. cursor.now.iter_start_ms < 2 ^ 64) }
    ensures saved { IfOk result (λ _. cursor.now.last_saved_ms < 2 ^ 64) }
{
    json!(in alloc; {
        "atEnd": cursor.at_end,
        "d1": cursor.place.d1,
        "d2": cursor.place.d2,
        "id": cursor.place.id,
        "iterStartMs": cursor.iter_start_ms,
        "lastSavedMs": cursor.last_saved_ms
    })
}

/// Writes a cursor as JSON: all members, without blanks, in the order of their bytes; at most 4,096 bytes. Its place is
/// one of the layout: both directories are at most 31, and the id is below 2^63, or 0 before the first block.
pub fn write_cursor(alloc: Global, cursor: &Cursor) -> Result<Vec<u8>, AllocError>
    requires { IsInForm cursor.now }
    ensures text { IfOk result (λ bytes. bytes.items ≡ cursor_text cursor.now) }
    ensures reads_back { IfOk result (λ bytes. cursor_in bytes.items ≡ Ok cursor.now) }
{
    let value = cursor_value(alloc, cursor)?;
    let bytes = value.to_vec(alloc)?;
    Ok(bytes)
}
