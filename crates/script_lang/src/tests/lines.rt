//! Lines of a script, as they are read.
ghost use Rattle.std.specs.Prelude.{◌≡◌};

use super::said::said_by;
use crate::read_line;
use std::alloc::{AllocError, Global};
use std::process::Abort;
use std::test::Fail;

// The line again, or nothing where it isn't read.
fn told(alloc: Global, text: &str) -> Result<String, AllocError> {
    match read_line(alloc, text.as_bytes()) {
        Ok(line) => said_by(&line).printed(alloc),
        Err(_) => Ok(String::new(alloc)),
    }
}

// Whether a line is printed as expected.
fn is_told(alloc: Global, text: &str, want: &str) -> bool {
    match told(alloc, text) {
        Ok(told) => told.as_str() == want,
        Err(_) => false,
    }
}

// Whether a row is printed as it should be.
fn is_row_read(alloc: Global, row: &str) -> bool {
    match row.split_once('|') {
        Some((text, want)) => is_told(alloc, text, want),
        None => is_told(alloc, row, row),
    }
}

// Lines that are printed as they are read, and then lines before what they print otherwise.
const LINES: &str = "\
    at 0\n\
    at 18446744073709551615\n\
    use bp1\n\
    use caf\u{e9}\n\
    open 5 1001 42\n\
    open 9223372036854775807 1 18446744073709551615\n\
    grow 5 1002 3\n\
    push 5 00ffa1\n\
    push 5 \n\
    finish 5\n\
    drop 5\n\
    write 5 1001 6f6c64\n\
    write 5 1001 \n\
    append 5 1002 6e6577\n\
    append 5 1002 \n\
    read 5\n\
    delete 5\n\
    reopen\n\
    mbegin 5 64\n\
    mcopy 5 0\n\
    mseal 5\n\
    mpublish 5\n\
    mdrop 5\n\
    sweep\n\
    report\n\
    balance 0\n\
    balance 100\n\
    query\n\
    cancel x\n\
    mover\n\
    dirlist 1 0 31\n\
    dirdiff\n\
    dirfix\n\
    volload 1\n\
    volnext 64\n\
    volcheck 1\n\
    volreport 1\n\
    cursor 1\n\
    fill 0 0\n\
    fill 1000000 18446744073709551615\n\
    |blank\n\
    #|blank\n\
    #open 5|blank\n\
    push 5 00fFA1|push 5 00ffa1\n\
    write 5 1 AbCdEf|write 5 1 abcdef\n\
    execute bf21 1 0 {}|execute bf21 1 0 7b7d\n\
    execute X 0 1 |execute X 0 1 \n\
    execute x 2 1  {\"a\": 1} |execute x 2 1 207b2261223a20317d20";

#[test]
fn lines_are_read(rt: HostRuntime) {
    let alloc = rt.alloc();
    for row in LINES.split('\n') {
        assert!(rt; is_row_read(alloc, row), "at {row}");
    }
}
