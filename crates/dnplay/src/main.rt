//! `dnplay`: plays a script from standard input over the directories of the volumes, and writes the replies to standard
//! output.
#![tactic(auto)]

ghost use Rattle.std.specs.Prelude.{◌≡◌, ◌≤◌, IfOk, length};

use disk_model::Sink;
use dn_play::play;
use line_io::write_all;
use os_disks::{OsDisks, StandardSink, StandardSource, VolumeLocks};
use script_lang::node_words::{NodeWords, VolumeWord, WordsFault, read_words};
use std::alloc::{AllocError, Global};
use std::env;
use std::io::ErrorKind;
use std::process::ExitCode;

const USAGE: &[u8] = b"usage: dnplay POOLS NODE VOLUME...
Plays a script from standard input, one command a line, and writes the replies to standard output.

POOLS   1 to 16 names of pools, joined by commas
NODE    the name of the node
VOLUME  UUID:SHARE:DIR, a volume with the bytes that each pool may use on it and its directory

--help     prints this text
--version  prints the version
";

/// The words of the command line, behind the program's name. Where one isn't UTF-8 there are none, which is of no form.
fn command_words(rt: &HostRuntime) -> Result<Vec<String>, AllocError> {
    let mut words = Vec::new(rt.alloc());
    match env::args(rt) {
        Ok(args) => {
            for word in args.skip(1) {
                words.push(word)?;
            }
        }
        Err(error) if error.kind() == ErrorKind::OutOfMemory => return Err(AllocError),
        Err(_) => {}
    }
    Ok(words)
}

/// The directories of the volumes.
fn directories(alloc: Global, volumes: &[VolumeWord]) -> Result<Vec<&str>, AllocError>
    ensures { IfOk result (λ dirs. length dirs.items ≡ length volumes.now) }
{
    let mut dirs = Vec::new(alloc);
    for volume in volumes {
        dirs.push(volume.dir.as_str())?;
    }
    Ok(dirs)
}

/// The disks of each pool, which share the locks of the volumes.
fn open_disks(rt: &HostRuntime, words: &NodeWords) -> Result<Vec<OsDisks>, AllocError>
    requires some { 1 ≤ length words.now.volumes }
    requires limit { length words.now.volumes ≤ 64 }
{
    let dirs = directories(rt.alloc(), words.volumes.as_slice())?;
    let locks = VolumeLocks::take(rt, dirs.as_slice())?;
    let mut disks = Vec::new(rt.alloc());
    for pool in words.pools.as_slice() {
        disks.push(OsDisks::open(rt.clone()?, pool.as_str(), dirs.as_slice(), &locks)?)?;
    }
    Ok(disks)
}

/// The disks that the words name. Where the words aren't of the form there are none.
#[tactic(auto, using(crate::proofs::VolumeCount::volumes_counted))]
fn disks_of_words(rt: &HostRuntime, words: &[String]) -> Result<Vec<OsDisks>, AllocError> {
    match read_words(rt.alloc(), words) {
        Ok(words) => open_disks(rt, &words),
        Err(WordsFault::Usage) => Ok(Vec::new(rt.alloc())),
        Err(WordsFault::Memory) => Err(AllocError),
    }
}

/// Plays the script, and answers the exit status.
///
/// The top call asks that on disks that tell their content each draft stands aside. These disks tell nothing.
#[tactic(auto, using(disk_model::specs::Untold::untold_in_each_world))]
fn run<K: Sink>(rt: &HostRuntime, sink: &mut K) -> Result<u8, AllocError> {
    let words = command_words(rt)?;
    if let [word] = words.as_slice() {
        if word.as_str() == "--help" {
            return Ok(write_last(sink, USAGE, 0));
        }
        if word.as_str() == "--version" {
            return Ok(write_last(sink, b"dnplay 0.1\n", 0));
        }
    }
    let disks = disks_of_words(rt, words.as_slice())?;
    let mut source = StandardSource::new(rt.stdin());
    Ok(play(rt.alloc(), words.as_slice(), disks, &mut source, sink).status)
}

/// Writes the last text of the program, and answers its exit status: that of a sink that failed, or this one.
fn write_last<K: Sink>(sink: &mut K, text: &[u8], status: u8) -> u8 {
    match write_all(sink, text) {
        Ok(()) => status,
        Err(_) => 3,
    }
}

fn main(rt: HostRuntime) -> ExitCode {
    let mut sink = StandardSink::new(rt.stdout());
    let status = match run(&rt, &mut sink) {
        Ok(status) => status,
        Err(AllocError) => write_last(&mut sink, b"end memory\n", 4),
    };
    ExitCode::from(status)
}
