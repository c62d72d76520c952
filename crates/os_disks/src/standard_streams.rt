//! The source and the sink of a program, over a reader and a writer of std.
//!
//! Trusted of the system: that a read gives the bytes of the input in order, and that a write hands on the bytes that it
//! counts. They tell what the reader and the writer tell, which of standard input and output is nothing.
ghost use Rattle.std.specs.Prelude.{◌≡◌};

use disk_model::{Failed, Sink, Source};
use std::io::{Read, Write};

/// The bytes of a reader.
#[derive(Drop)]
pub struct StandardSource<R: Read + Drop> {
    reader: R,
    faults: u64,
}

impl<R: Read + Drop> StandardSource<R> {
    /// A source of which no call has failed.
    pub fn new(reader: R) -> StandardSource<R> {
        StandardSource { reader, faults: 0 }
    }
}

impl<R: Read + Drop> Source for StandardSource<R> {
    ghost left = { λ s. R.remaining s.reader };

    ghost faults = { λ s. s.faults };

    fn read(&mut self, out: &mut [u8]) -> Result<usize, Failed> {
        match self.reader.read(out) {
            Ok(count) => Ok(count),
            Err(_) => {
                self.faults = self.faults.saturating_add(1);
                Err(Failed)
            }
        }
    }
}

/// Hands on bytes to a writer, each piece at once.
#[derive(Drop)]
pub struct StandardSink<W: Write + Drop> {
    writer: W,
    faults: u64,
}

impl<W: Write + Drop> StandardSink<W> {
    /// A sink of which no call has failed.
    pub fn new(writer: W) -> StandardSink<W> {
        StandardSink { writer, faults: 0 }
    }
}

impl<W: Write + Drop> Sink for StandardSink<W> {
    ghost taken = { λ s. W.contents s.writer };

    ghost faults = { λ s. s.faults };

    fn write(&mut self, piece: &[u8]) -> Result<usize, Failed> {
        match self.writer.write(piece) {
            Ok(0) if !piece.is_empty() => {
                self.faults = self.faults.saturating_add(1);
                Ok(0)
            }
            Ok(count) => Ok(count),
            Err(_) => {
                self.faults = self.faults.saturating_add(1);
                Err(Failed)
            }
        }
    }
}
