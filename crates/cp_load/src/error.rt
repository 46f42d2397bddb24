ghost use Rattle.std.specs.Prelude.{◌≡◌};

use cp_io::Bytes;
use cp_module::Refusal;
use std::alloc::AllocError;

/// Why there is no program. A file is named by its name.
#[derive(Debug, Drop)]
pub enum LoadError {
    Refused(Refusal),
    Missing(Bytes),
    FileTooBig(Bytes),
    FileFault(Bytes),
    NoMemory,
}

impl From<AllocError> for LoadError {
    ghost use Rattle.cp_load.specs.declared.error.LoadError.TheVariants.{NoMemory};

    ghost from_gives = { λ _ e. e ≡ NoMemory };

    fn from(_error: AllocError) -> LoadError {
        LoadError::NoMemory
    }
}
