//! Why the words of a command line were not read.
ghost use Rattle.std.specs.Prelude.{◌≡◌};
ghost use Rattle.script_lang.specs.declared.words_fault.WordsFault.TheVariants.{Memory};

use std::alloc::{AllocError, AllocFailed};

/// Why the words of a command line were not read.
#[derive(Clone, Copy, Debug, PartialEq, Eq)]
pub enum WordsFault {
    /// They are not of the form.
    Usage,
    /// There is no memory for them.
    Memory,
}

impl From<AllocError> for WordsFault {
    ghost from_gives = { λ _ fault. fault ≡ Memory };

    fn from(_no_memory: AllocError) -> WordsFault {
        WordsFault::Memory
    }
}

impl<T: Drop> From<AllocFailed<T>> for WordsFault {
    ghost from_gives = { λ _ fault. fault ≡ Memory };

    fn from(_no_memory: AllocFailed<T>) -> WordsFault {
        WordsFault::Memory
    }
}
