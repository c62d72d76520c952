//! Texts and the cursors that they are.
use super::*;
use std::alloc::{AllocError, Global};
use std::test::Fail;
use volume_layout::Place;

/// What is read, in one line: the members in their order, or the fault.
fn read(alloc: Global, text: &[u8]) -> Result<String, AllocError> {
    match read_cursor(alloc, text) {
        Ok(cursor) => {
            let Cursor {
                last_saved_ms,
                iter_start_ms,
                place,
                at_end,
            } = cursor;
            let Place { d1, d2, id } = place;
            format!(in alloc; "{at_end} {d1} {d2} {id} {iter_start_ms} {last_saved_ms}")
        }
        Err(CursorFault::Member { name }) => format!(in alloc; "{name:?}"),
        Err(fault) => format!(in alloc; "{fault:?}"),
    }
}

/// Texts, and what they are: the members of each in the order in which they are looked at.
const TEXTS: [(&str, &str); 24] = [
    (
        "{\"atEnd\":false,\"d1\":0,\"d2\":0,\"id\":5,\"iterStartMs\":0,\"lastSavedMs\":0}",
        "false 0 0 5 0 0",
    ),
    ("{\"atEnd\":fal", "Syntax"),
    ("[]", "Syntax"),
    ("", "Syntax"),
    ("null", "Syntax"),
    ("{} {}", "Syntax"),
    ("{\"atEnd\":true,\"d1\":32}", "D1"),
    ("{}", "AtEnd"),
    ("{\"atEnd\":null}", "AtEnd"),
    ("{\"atEnd\":0}", "AtEnd"),
    ("{\"d1\":32,\"atEnd\":\"true\"}", "AtEnd"),
    ("{\"atEnd\":true}", "D1"),
    ("{\"atEnd\":true,\"d1\":1.0}", "D1"),
    ("{\"atEnd\":true,\"d1\":-1}", "D1"),
    ("{\"atEnd\":true,\"d1\":31}", "D2"),
    ("{\"atEnd\":true,\"d1\":31,\"d2\":32}", "D2"),
    ("{\"atEnd\":true,\"d1\":31,\"d2\":31}", "Id"),
    (
        "{\"atEnd\":true,\"d1\":0,\"d2\":0,\"id\":9223372036854775808}",
        "Id",
    ),
    (
        "{\"atEnd\":true,\"d1\":0,\"d2\":0,\"id\":0,\"lastSavedMs\":0}",
        "IterStartMs",
    ),
    (
        "{\"atEnd\":true,\"d1\":0,\"d2\":0,\"id\":0,\"iterStartMs\":18446744073709551616}",
        "IterStartMs",
    ),
    (
        "{\"atEnd\":true,\"d1\":0,\"d2\":0,\"id\":0,\"iterStartMs\":1}",
        "LastSavedMs",
    ),
    (
        "{\"atEnd\":true,\"d1\":0,\"d2\":0,\"id\":0,\"iterStartMs\":1,\"lastSavedMs\":1e3}",
        "LastSavedMs",
    ),
    (
        " { \"lastSavedMs\" : 18446744073709551615, \"iterStartMs\" : 7, \"id\" : 9223372036854775807, \"d2\" : 31, \"d1\" : 3, \"atEnd\" : true, \"more\" : [ ] } ",
        "true 3 31 9223372036854775807 7 18446744073709551615",
    ),
    (
        "{\"atEnd\":true,\"d1\":32,\"d1\":1,\"d2\":0,\"id\":0,\"iterStartMs\":0,\"lastSavedMs\":0}",
        "true 1 0 0 0 0",
    ),
];

#[test]
fn texts_are_read(rt: HostRuntime) -> Result<(), Fail> {
    let alloc = rt.alloc();
    for (text, want) in TEXTS {
        let got = read(alloc, text.as_bytes())?;
        assert_eq!(rt; got.as_str(), want, "{text}");
    }
    Ok(())
}

#[test]
fn long_texts_are_refused(rt: HostRuntime) -> Result<(), Fail> {
    let alloc = rt.alloc();
    let mut text = Vec::new(alloc);
    text.extend_from_slice(b"{}")?;
    text.resize(4096, b' ')?;
    assert_eq!(rt; read(alloc, text.as_slice())?.as_str(), "AtEnd");
    text.push(b' ')?;
    assert_eq!(rt; read(alloc, text.as_slice())?.as_str(), "Syntax");
    let mut spaces = Vec::new(alloc);
    spaces.resize(4097, b' ')?;
    assert_eq!(rt; read(alloc, spaces.as_slice())?.as_str(), "Syntax");
    Ok(())
}

#[test]
fn a_cursor_is_written_and_read(rt: HostRuntime) -> Result<(), Fail> {
    let alloc = rt.alloc();
    let place = Place {
        d1: 0,
        d2: 0,
        id: 5,
    };
    let cursor = Cursor {
        last_saved_ms: 0,
        iter_start_ms: 0,
        place,
        at_end: false,
    };
    let text = write_cursor(alloc, &cursor)?;
    let want: &[u8] =
        b"{\"atEnd\":false,\"d1\":0,\"d2\":0,\"id\":5,\"iterStartMs\":0,\"lastSavedMs\":0}";
    assert!(rt; text.as_slice() == want);
    assert_eq!(rt; read_cursor(alloc, text.as_slice()), Ok(cursor));
    Ok(())
}
