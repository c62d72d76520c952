//! `dbplan`: makes the disk balancer's plan over rows from standard input, and writes it and its id to standard output.
#![tactic(auto)]

use disk_model::Sink;
use line_io::write_all;
use os_disks::{StandardSink, StandardSource};
use plan_tool::plan_main;
use std::alloc::AllocError;
use std::env;
use std::io::ErrorKind;
use std::process::ExitCode;

const USAGE: &[u8] = b"usage: dbplan --node UUID --at MS [OPTION VALUE]...
Reads lines UUID CAPACITY USED from standard input, and writes the plan over these volumes and its id.

--node UUID    the name of the node
--at MS        the moment of the plan, in milliseconds since 1970
--threshold T  0 to 100 percent, 10 by default
--bandwidth W  1 to 1048576 MiB per second, 10 by default
--tolerance P  1 to 100 percent, 10 by default
--errors E     1 to 4294967295, 5 by default
--help         prints this text
--version      prints the version
";

/// The words of the command line, behind the program's name. Where one isn't UTF-8 there are none, which is of no form.
fn command_words(rt: &HostRuntime) -> Result<Vec<String>, AllocError> {
    let mut words = Vec::new(rt.alloc());
    match env::args(rt) {
        Ok(args) => {
            for word in args.skip(1) {
                words.push(word)?;
            }
        }
        Err(error) if error.kind() == ErrorKind::OutOfMemory => return Err(AllocError),
        Err(_) => {}
    }
    Ok(words)
}

/// Makes the plan, and answers the exit status.
fn run<K: Sink>(rt: &HostRuntime, sink: &mut K) -> Result<u8, AllocError> {
    let words = command_words(rt)?;
    if let [word] = words.as_slice() {
        if word.as_str() == "--help" {
            return Ok(write_last(sink, USAGE, 0));
        }
        if word.as_str() == "--version" {
            return Ok(write_last(sink, b"dbplan 0.1\n", 0));
        }
    }
    let mut source = StandardSource::new(rt.stdin());
    Ok(plan_main(rt.alloc(), words.as_slice(), &mut source, sink))
}

/// Writes the last text of the program, and answers its exit status: that of a sink that failed, or this one.
fn write_last<K: Sink>(sink: &mut K, text: &[u8], status: u8) -> u8 {
    match write_all(sink, text) {
        Ok(()) => status,
        Err(_) => 3,
    }
}

fn main(rt: HostRuntime) -> ExitCode {
    let mut sink = StandardSink::new(rt.stdout());
    let status = match run(&rt, &mut sink) {
        Ok(status) => status,
        Err(AllocError) => write_last(&mut sink, b"end memory\n", 4),
    };
    ExitCode::from(status)
}
