//! Why a command line has no job.
use std::alloc::{AllocError, Global};
use std::fmt::Display;

/// Why a command line has no job.
#[derive(Drop)]
pub enum WordsFault {
    /// A wrong command line, or a request for help: the text to print.
    Usage(String),
    /// Out of memory.
    Memory,
}

impl WordsFault {
    /// A wrong command line with this text; out of memory if there was none for the text.
    pub(crate) fn usage(text: Result<String, AllocError>) -> WordsFault {
        match text {
            Ok(text) => WordsFault::Usage(text),
            Err(_) => WordsFault::Memory,
        }
    }

    /// A wrong command line. The text says what is wrong with it, and then where there is help.
    pub(crate) fn wrong<T: Display + Drop>(alloc: Global, what: T) -> WordsFault {
        WordsFault::usage(format!(in alloc; "{what}\n\nFor more information, try '--help'.\n"))
    }
}

impl From<AllocError> for WordsFault {
    ghost use Rattle.std.specs.Prelude.{◌≡◌};
    ghost use Rattle.adf_cli.specs.declared.fault.WordsFault.TheVariants.{Memory};

    ghost from_gives = { λ _ fault. fault ≡ Memory };

    fn from(_error: AllocError) -> WordsFault {
        WordsFault::Memory
    }
}
