//! Lines of bytes that are no text, and lines of a million bytes.
ghost use Rattle.std.specs.Prelude.{◌≡◌};

use super::columns::column;
use crate::{ClientLine, Line, read_line};
use std::alloc::{AllocError, Global};
use std::process::Abort;
use std::test::Fail;

// A line of hostile bytes whose first word fits, and the column that is answered, or 0.
fn behind_a_word(n: usize) -> (&'static [u8], u64) {
    match n {
        0 => (b"use \xff", 5),
        1 => (b"use bp\xc3", 5),
        2 => (b"use \xed\xa0\x80", 5),
        3 => (b"cancel \xc0\x80", 8),
        4 => (b"execute \x80 1 0 {}", 9),
        5 => (b"execute x 1 0 \xff\x00", 0),
        6 => (b"read 5\x00", 6),
        7 => (b"read \x00", 6),
        8 => (b"push 5 6\x00", 8),
        9 => (b"push 5 \xc3\xa9", 8),
        _ => (b"read 5\r", 6),
    }
}

// A line of hostile bytes whose first word doesn't fit.
fn at_the_start(n: usize) -> &'static [u8] {
    match n {
        0 => b"\xff",
        1 => b"\x00",
        2 => b"read\x005",
        _ => b"read\t5",
    }
}

// Whether that column is answered.
fn is_column_answered(alloc: Global, n: usize) -> bool {
    if n >= 11 {
        return column(alloc, at_the_start(n - 11)) == 1;
    }
    let (text, want) = behind_a_word(n);
    column(alloc, text) == want
}

#[test]
fn hostile_bytes(rt: HostRuntime) {
    let alloc = rt.alloc();
    for n in 0..15 {
        assert!(rt; is_column_answered(alloc, n), "at {n}");
    }
}

// A line of so many bytes that begins so and goes on with one byte.
fn long_line(alloc: Global, start: &str, byte: u8, len: usize) -> Result<Vec<u8>, AllocError> {
    let mut line = Vec::new(alloc);
    line.extend_from_slice(start.as_bytes())?;
    line.resize(len, byte)?;
    Ok(line)
}

// How a long line begins, the byte that it goes on with, its length, and the column that is answered.
fn long_row(n: usize) -> (&'static str, u8, usize, u64) {
    match n {
        0 => ("push 5 ", b'a', 1_048_576, 8),
        1 => ("at ", b'7', 1_048_576, 4),
        2 => ("", b'7', 1_048_577, 1),
        _ => ("read 5", b' ', 1_048_577, 8),
    }
}

// Whether that column is answered.
fn is_long_line_refused(alloc: Global, n: usize) -> bool {
    let (start, byte, len, want) = long_row(n);
    match long_line(alloc, start, byte, len) {
        Ok(line) => column(alloc, line.as_slice()) == want,
        Err(_) => false,
    }
}

#[test]
fn long_lines(rt: HostRuntime) {
    let alloc = rt.alloc();
    for n in 0..4 {
        assert!(rt; is_long_line_refused(alloc, n), "at {n}");
    }
}

// Whether a line pushes so many bytes, each of them 0xaa, to block 5.
fn pushes(line: &Line, count: usize) -> bool {
    match line {
        Line::Client(ClientLine::Push { id, hex }) => {
            id.get() == 5 && hex.len() == count && hex.as_slice().iter().all(|b| *b == 0xaa)
        }
        _ => false,
    }
}

// Whether a line of 1,048,577 bytes pushes 524,285 of them.
fn is_longest_push_read(alloc: Global) -> bool {
    let Ok(text) = long_line(alloc, "push 5 ", b'a', 1_048_577) else {
        return false;
    };
    match read_line(alloc, text.as_slice()) {
        Ok(line) => pushes(&line, 524_285),
        Err(_) => false,
    }
}

#[test]
fn a_long_push_is_read(rt: HostRuntime) {
    let alloc = rt.alloc();
    assert!(rt; is_longest_push_read(alloc));
}
