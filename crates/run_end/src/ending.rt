//! How a run ends.
ghost use Rattle.std.specs.Prelude.{◌≡◌, IfOk, string_bytes};
ghost use Rattle.line_io.specs.declared.lines.ReadFault.TheVariants.{Source};
ghost use Rattle.run_end.specs.Ending.{status_of, last_line, ending_at, IsOfReading};

use line_io::ReadFault;
use std::alloc::{AllocError, Global};

/// Why a run ended.
#[derive(Clone, Copy, Debug, PartialEq, Eq)]
pub enum Ending {
    /// The input was read to its end.
    Complete,
    /// The words of the command line are not of their form.
    Usage,
    /// The source failed.
    SourceFault,
    /// The sink failed.
    SinkFault,
    /// There was no memory.
    NoMemory,
    /// This line is outside the language, from a column on. Both are counted from 1.
    Outside { line: u64, column: u64 },
    /// The disks failed while the pool was opened.
    OpenFault,
    /// This line, counted from 1, passes a limit.
    Limit { line: u64 },
    /// This line, counted from 1, isn't carried out yet.
    Later { line: u64 },
    /// What the words or the pool's files ask for isn't carried out yet.
    NotCarriedOut,
}

impl Ending {
    /// How the lines end of which this one can't be read.
    pub fn of_read(fault: ReadFault, line: u64) -> Ending
        ensures ending { result ≡ ending_at fault line }
        ensures reading { IsOfReading result }
        ensures source { result ≡ Ending.SourceFault → fault ≡ Source }
    {
        match fault {
            ReadFault::Source => Ending::SourceFault,
            ReadFault::Limit => Ending::Limit { line },
            ReadFault::Memory => Ending::NoMemory,
        }
    }

    /// The status that the program ends with.
    pub fn status(self) -> u8
        ensures status { result ≡ status_of self }
        ensures complete { result ≡ 0 → self ≡ Ending.Complete }
        ensures usage { result ≡ 1 → self ≡ Ending.Usage }
        ensures source { result ≡ 2 → self ≡ Ending.SourceFault }
        ensures sink { result ≡ 3 → self ≡ Ending.SinkFault }
        ensures open { result ≡ 6 → self ≡ Ending.OpenFault }
    {
        match self {
            Ending::Complete => 0,
            Ending::Usage => 1,
            Ending::SourceFault => 2,
            Ending::SinkFault => 3,
            Ending::NoMemory => 4,
            Ending::Outside { .. } => 5,
            Ending::OpenFault => 6,
            Ending::Limit { .. } => 7,
            Ending::Later { .. } | Ending::NotCarriedOut => 8,
        }
    }

    /// The last line of the output.
    pub fn last_line(self, alloc: Global) -> Result<String, AllocError>
        ensures { IfOk result (λ line. string_bytes line ≡ last_line self) }
    {
        match self {
            Ending::Complete | Ending::SinkFault => Ok(String::new(alloc)),
            Ending::Usage => format!(in alloc; "end usage\n"),
            Ending::SourceFault => format!(in alloc; "end source\n"),
            Ending::NoMemory => format!(in alloc; "end memory\n"),
            Ending::Outside { line, column } => format!(in alloc; "end line {line} {column}\n"),
            Ending::OpenFault => format!(in alloc; "end open\n"),
            Ending::Limit { line } => format!(in alloc; "end limit {line}\n"),
            Ending::Later { line } => format!(in alloc; "end later {line}\n"),
            Ending::NotCarriedOut => format!(in alloc; "end later 0\n"),
        }
    }
}
