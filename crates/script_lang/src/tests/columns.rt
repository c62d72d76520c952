//! Columns of words that don't fit.
ghost use Rattle.std.specs.Prelude.{◌≡◌};

use crate::{LineFault, read_line};
use std::alloc::Global;
use std::process::Abort;
use std::test::Fail;

/// The column that `read_line` answers, or 0.
pub fn column(alloc: Global, text: &[u8]) -> u64 {
    match read_line(alloc, text) {
        Err(LineFault::Bad { column }) => column,
        _ => 0,
    }
}

// Whether the column is that before the line.
fn is_refused(alloc: Global, row: &str) -> bool {
    match row.split_once(' ') {
        Some((want, text)) => want.parse::<u64>() == Ok(column(alloc, text.as_bytes())),
        None => false,
    }
}

// Lines, each behind the column of its first word that does not fit.
const COLUMNS: &str = "\
    1 raed 5\n\
    1 Read 5\n\
    1  open 5 1 1\n\
    1 \r\n\
    1 job balance 10\n\
    1 end\n\
    1 writes 5 1 61\n\
    1 rea\n\
    1 ats 5\n\
    1 dirlists 1 0 0\n\
    1  \n\
    1   \n\
    3 at\n\
    4 at \n\
    4 at x\n\
    4 at -1\n\
    4 at 01\n\
    4 at 18446744073709551616\n\
    6 at 1 \n\
    6 at 1 1\n\
    4 use\n\
    5 use \n\
    9 use bp1 \n\
    5 use  bp1\n\
    9 use bp1 bp2\n\
    8 reopen \n\
    8 reopen now\n\
    8 report \n\
    8 report 1\n\
    5 fill\n\
    7 fill 1\n\
    8 fill 1 \n\
    6 fill 1000001 1\n\
    6 fill x 1\n\
    8 fill 1 x\n\
    8 fill 1 18446744073709551616\n\
    10 fill 1 1 \n\
    10 fill 1 1 1\n\
    5 open\n\
    6 open \n\
    6 open 9223372036854775808 1 1\n\
    6 open 0 1 1\n\
    6 open 05 1 1\n\
    6 open +5 1 1\n\
    7 open 5\n\
    8 open 5 0 1\n\
    8 open 5 9223372036854775808 1\n\
    12 open 5 1001\n\
    13 open 5 1001 x\n\
    13 open 5 1001 18446744073709551616\n\
    13 open 5 1001  1\n\
    15 open 5 1001 1 \n\
    15 open 5 1001 1 1\n\
    5 grow\n\
    6 grow \n\
    6 grow 9223372036854775808 1 1\n\
    6 grow 0 1 1\n\
    6 grow 05 1 1\n\
    6 grow +5 1 1\n\
    7 grow 5\n\
    8 grow 5 0 1\n\
    8 grow 5 9223372036854775808 1\n\
    12 grow 5 1001\n\
    13 grow 5 1001 x\n\
    13 grow 5 1001 18446744073709551616\n\
    13 grow 5 1001  1\n\
    15 grow 5 1001 1 \n\
    15 grow 5 1001 1 1\n\
    5 push\n\
    6 push x 61\n\
    7 push 5\n\
    8 push 5 6\n\
    8 push 5 6g\n\
    8 push 5 0x61\n\
    9 push 5  61\n\
    11 push 5 61 \n\
    7 finish\n\
    8 finish \n\
    8 finish  5\n\
    8 finish x\n\
    10 finish 5 \n\
    10 finish 5 6\n\
    7 delete\n\
    8 delete \n\
    8 delete  5\n\
    8 delete x\n\
    10 delete 5 \n\
    10 delete 5 6\n\
    5 drop\n\
    6 drop \n\
    6 drop  5\n\
    6 drop 0\n\
    8 drop 5 \n\
    8 drop 5 6\n\
    5 read\n\
    6 read \n\
    6 read  5\n\
    6 read 0\n\
    8 read 5 \n\
    8 read 5 6\n\
    6 write\n\
    7 write x 1 61\n\
    8 write 5\n\
    9 write 5 0 61\n\
    13 write 5 1001\n\
    11 write 5 1 6\n\
    14 write 5 1 61 \n\
    9 write 5  61\n\
    7 append\n\
    8 append x 1 61\n\
    9 append 5\n\
    10 append 5 x 61\n\
    14 append 5 1001\n\
    12 append 5 1 6\n\
    15 append 5 1 61 62\n\
    7 mbegin\n\
    8 mbegin 0 1\n\
    9 mbegin 5\n\
    10 mbegin 5 0\n\
    10 mbegin 5 65\n\
    10 mbegin 5 256\n\
    10 mbegin 5 257\n\
    12 mbegin 5 1 \n\
    6 mcopy\n\
    7 mcopy x 1\n\
    8 mcopy 5\n\
    9 mcopy 5 x\n\
    11 mcopy 5 1 1\n\
    6 mseal\n\
    7 mseal x\n\
    9 mseal 5 \n\
    6 mdrop\n\
    7 mdrop x\n\
    9 mdrop 5 \n\
    9 mpublish\n\
    10 mpublish x\n\
    12 mpublish 5 \n\
    7 sweep \n\
    7 sweep 1\n\
    8 balance\n\
    9 balance \n\
    9 balance 101\n\
    9 balance 256\n\
    9 balance 010\n\
    12 balance 10 \n\
    8 execute\n\
    9 execute \n\
    9 execute  1 0 {}\n\
    10 execute x\n\
    11 execute x y 0 {}\n\
    11 execute x 18446744073709551616 0 {}\n\
    12 execute x 1\n\
    13 execute x 1 2 {}\n\
    13 execute x 1 00 {}\n\
    13 execute x 1 true {}\n\
    13 execute x 1  {}\n\
    14 execute x 1 0\n\
    7 query \n\
    7 query x\n\
    7 cancel\n\
    8 cancel \n\
    8 cancel  x\n\
    10 cancel x \n\
    10 cancel x y\n\
    7 mover \n\
    7 mover 1\n\
    8 dirlist\n\
    9 dirlist 0 0 0\n\
    9 dirlist 65 0 0\n\
    10 dirlist 1\n\
    11 dirlist 1 32 0\n\
    11 dirlist 1 -1 0\n\
    12 dirlist 1 0\n\
    13 dirlist 1 0 32\n\
    13 dirlist 1 0 256\n\
    15 dirlist 1 0 0 \n\
    15 dirlist 1 0 0 0\n\
    9 dirdiff \n\
    9 dirdiff 1\n\
    8 dirfix \n\
    8 dirfix 1\n\
    8 volload\n\
    9 volload 0\n\
    9 volload 65\n\
    9 volload x\n\
    11 volload 1 \n\
    11 volload 1 1\n\
    8 volnext\n\
    9 volnext 0\n\
    9 volnext 65\n\
    9 volnext x\n\
    11 volnext 1 \n\
    11 volnext 1 1\n\
    9 volcheck\n\
    10 volcheck 0\n\
    10 volcheck 65\n\
    10 volcheck x\n\
    12 volcheck 1 \n\
    12 volcheck 1 1\n\
    10 volreport\n\
    11 volreport 0\n\
    11 volreport 65\n\
    11 volreport x\n\
    13 volreport 1 \n\
    13 volreport 1 1\n\
    7 cursor\n\
    8 cursor 0\n\
    8 cursor 65\n\
    8 cursor x\n\
    10 cursor 1 \n\
    10 cursor 1 1";

#[test]
fn columns_of_words_that_do_not_fit(rt: HostRuntime) {
    let alloc = rt.alloc();
    for row in COLUMNS.split('\n') {
        assert!(rt; is_refused(alloc, row), "at {row}");
    }
}
