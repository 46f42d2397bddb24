ghost use Rattle.std.specs.Prelude.{◌≡◌};

use std::alloc::AllocError;

/// Why a term is not exported.
#[derive(Debug, Clone, Copy, PartialEq, Eq, Drop)]
pub enum ExportError {
    /// It has more than 4,096 cells.
    TooLarge,
    NoMemory,
}

impl From<AllocError> for ExportError {
    ghost use Rattle.cp_heap.specs.declared.export_error.ExportError.TheVariants.{NoMemory};

    ghost from_gives = { λ _ e. e ≡ NoMemory };

    fn from(_error: AllocError) -> ExportError {
        ExportError::NoMemory
    }
}
