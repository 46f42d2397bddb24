ghost use Rattle.std.specs.Prelude.{◌≡◌};

use std::alloc::AllocError;

/// Why a declaration is no assertion of a program.
#[derive(Debug, Clone, Copy, PartialEq, Eq, Drop)]
pub enum AssertionError {
    /// It is not of the form `Kind Body` or `Status Kind Body`.
    NotAssertion,
    /// Its head is no atom or compound whose arguments are distinct variables, or no predicate that its module defines.
    BadHead,
    /// One of its formulas is none, or names what is no property.
    BadProperty,
    /// Its predicate is declared `concurrent` or `data`.
    OnShared,
    NoMemory,
}

impl From<AllocError> for AssertionError {
    ghost use Rattle.cp_assertion.specs.declared.assertion_error.AssertionError.TheVariants.{NoMemory};

    ghost from_gives = { λ _ e. e ≡ NoMemory };

    fn from(_error: AllocError) -> AssertionError {
        AssertionError::NoMemory
    }
}
