ghost use Rattle.std.specs.Prelude.{◌≡◌};

use std::alloc::AllocError;

/// Why clauses are not those of a regular type.
#[derive(Debug, Clone, Copy, PartialEq, Eq, Drop)]
pub enum TypeError {
    /// The clause with this number, from 0, is the first that the rules of regular types do not admit.
    NotRegular { clause: u32 },
    NoMemory,
}

impl From<AllocError> for TypeError {
    ghost use Rattle.cp_assertion.specs.declared.type_error.TypeError.TheVariants.{NoMemory};

    ghost from_gives = { λ _ e. e ≡ NoMemory };

    fn from(_error: AllocError) -> TypeError {
        TypeError::NoMemory
    }
}
