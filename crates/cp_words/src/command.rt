ghost use Rattle.std.specs.Prelude.{◌≡◌};

use cp_io::Bytes;
use cp_list::ListOf;
use std::alloc::AllocError;

/// The words after the program's name.
pub type Words = ListOf<Bytes>;

/// A command, with the defaults filled in.
#[derive(Drop)]
pub enum Command {
    /// Load a file.
    Check {
        file: Bytes,
    },
    /// Run a file on one thread: at most so many steps for each goal (1 to 10,000,000), so many engines (1 to 32), the seed
    /// of the schedule, and whether the log of the run is written.
    Sim {
        file: Bytes,
        steps: u32,
        engines: u32,
        seed: u64,
        log: bool,
    },
    /// Write the generated program with so many items (1 to 100,000).
    Gen {
        items: u32,
    },
}

/// Why words give no command.
#[derive(Clone, Copy, PartialEq, Eq, Debug)]
pub enum WordsError {
    /// They are no command of the grammar.
    Usage,
    NoMemory,
}

impl From<AllocError> for WordsError {
    ghost use Rattle.cp_words.specs.declared.command.WordsError.TheVariants.{NoMemory};

    ghost from_gives = { λ _ e. e ≡ NoMemory };

    fn from(_: AllocError) -> WordsError {
        WordsError::NoMemory
    }
}
