ghost use Rattle.std.specs.Prelude.{◌≡◌};

use crate::error_kind::ErrorKind;
use cp_heap::ExportError;
use std::alloc::AllocError;

/// Why nothing is asked.
#[derive(Debug, Drop)]
pub enum Refusal {
    /// An error of this kind is raised.
    Raised(ErrorKind),
    NoMemory,
}

impl From<AllocError> for Refusal {
    ghost use Rattle.cp_request.specs.declared.refusal.Refusal.TheVariants.{NoMemory};

    ghost from_gives = { λ _ e. e ≡ NoMemory };

    fn from(_error: AllocError) -> Refusal {
        Refusal::NoMemory
    }
}

impl From<ExportError> for Refusal {
    ghost use Rattle.cp_request.specs.Refused.{refusal_of};

    ghost from_gives = { λ error e. e ≡ refusal_of error };

    fn from(error: ExportError) -> Refusal {
        match error {
            ExportError::TooLarge => Refusal::Raised(ErrorKind::TooLarge),
            ExportError::NoMemory => Refusal::NoMemory,
        }
    }
}

impl From<ErrorKind> for Refusal {
    ghost use Rattle.cp_request.specs.declared.refusal.Refusal.TheVariants.{Raised};

    ghost from_gives = { λ kind e. e ≡ Raised kind };

    fn from(kind: ErrorKind) -> Refusal {
        Refusal::Raised(kind)
    }
}
