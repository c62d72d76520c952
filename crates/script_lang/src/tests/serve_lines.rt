//! Lines of a script of jobs and clients, and columns of words that don't fit.
ghost use Rattle.std.specs.Prelude.{◌≡◌};

use super::said::said_by_serve_line;
use crate::{LineFault, read_serve_line};
use std::alloc::{AllocError, Global};
use std::process::Abort;
use std::test::Fail;

// The line again, or nothing where it isn't read.
fn told(alloc: Global, text: &str) -> Result<String, AllocError> {
    match read_serve_line(alloc, text.as_bytes()) {
        Ok(line) => said_by_serve_line(&line).printed(alloc),
        Err(_) => Ok(String::new(alloc)),
    }
}

// Whether a line is printed as expected.
fn is_told(alloc: Global, text: &str, want: &str) -> bool {
    match told(alloc, text) {
        Ok(told) => told.as_str() == want,
        Err(_) => false,
    }
}

// The column that `read_serve_line` answers, or 0.
fn column(alloc: Global, text: &str) -> u64 {
    match read_serve_line(alloc, text.as_bytes()) {
        Err(LineFault::Bad { column }) => column,
        _ => 0,
    }
}

// Whether the column is that before the line.
fn is_refused(alloc: Global, row: &str) -> bool {
    match row.split_once(' ') {
        Some((want, text)) => want.parse::<u64>() == Ok(column(alloc, text)),
        None => false,
    }
}

// Whether a row is printed as it should be.
fn is_row_read(alloc: Global, row: &str) -> bool {
    match row.split_once('|') {
        Some((text, want)) => is_told(alloc, text, want),
        None => is_told(alloc, row, row),
    }
}

// Lines that are printed as they are read, and then lines before what they print otherwise.
const LINES: &str = "\
    end\n\
    report\n\
    fill 1000000 7\n\
    job balance 0\n\
    job balance 100\n\
    job dirscan\n\
    job volscan 64\n\
    use bp1\n\
    write 5 1001 61\n\
    write 5 1001 \n\
    append 5 1002 62\n\
    read 5\n\
    delete 5\n\
    query\n\
    cancel x\n\
    |blank\n\
    #end|blank\n\
    job execute bf21 1 1 {}|job execute bf21 1 1 7b7d\n\
    job execute X 2 0 |job execute X 2 0 \n\
    write 5 1 AbCdEf|write 5 1 abcdef";

// Lines, each behind the column of its first word that does not fit.
const COLUMNS: &str = "\
    1 job5\n\
    1 jobs balance 1\n\
    1 End\n\
    1 balance 1\n\
    1 execute x 1 0 {}\n\
    1 dirscan\n\
    1 volscan 1\n\
    1 open 5 1 1\n\
    1 grow 5 1 1\n\
    1 push 5 61\n\
    1 finish 5\n\
    1 drop 5\n\
    1 at 1\n\
    1 reopen\n\
    1 mbegin 5 1\n\
    1 sweep\n\
    1 mover\n\
    1 dirlist 1 0 0\n\
    1 cursor 1\n\
    5 end \n\
    5 end 1\n\
    8 report \n\
    8 report 1\n\
    6 fill 1000001 1\n\
    8 fill 1 x\n\
    10 fill 1 1 1\n\
    4 job\n\
    5 job \n\
    5 job x\n\
    5 job mover\n\
    5 job  balance 1\n\
    12 job balance\n\
    13 job balance \n\
    13 job balance 101\n\
    15 job balance 1 \n\
    12 job execute\n\
    13 job execute  1 0 {}\n\
    14 job execute x\n\
    15 job execute x y 0 {}\n\
    17 job execute x 1 2 {}\n\
    18 job execute x 1 0\n\
    13 job dirscan \n\
    13 job dirscan 1\n\
    12 job volscan\n\
    13 job volscan 0\n\
    13 job volscan 65\n\
    15 job volscan 1 1\n\
    5 use \n\
    11 write 5 1 6\n\
    14 write 5 1 61 \n\
    10 append 5 x 61\n\
    6 read 0\n\
    8 read 5 6\n\
    8 delete x\n\
    7 query 1\n\
    8 cancel \n\
    10 cancel x ";

#[test]
fn lines_are_read(rt: HostRuntime) {
    let alloc = rt.alloc();
    for row in LINES.split('\n') {
        assert!(rt; is_row_read(alloc, row), "at {row}");
    }
}

#[test]
fn columns_of_words_that_do_not_fit(rt: HostRuntime) {
    let alloc = rt.alloc();
    for row in COLUMNS.split('\n') {
        assert!(rt; is_refused(alloc, row), "at {row}");
    }
}
