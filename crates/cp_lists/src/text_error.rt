ghost use Rattle.std.specs.Prelude.{◌≡◌};

use cp_heap::Ref;
use std::alloc::AllocError;

/// Why a term is no text: the error that it raises, with the place of the culprit.
#[derive(Debug, Clone, Copy, Drop)]
pub enum TextError {
    /// A tail or an element is a variable that is not bound.
    Unbound,
    /// This term is no list.
    NotList(Ref),
    /// This element is no integer.
    NotInteger(Ref),
    /// An element is an integer that is the number of no character.
    NotCode,
    NoMemory,
}

impl From<AllocError> for TextError {
    ghost use Rattle.cp_lists.specs.declared.text_error.TextError.TheVariants.{NoMemory};

    ghost from_gives = { λ _ e. e ≡ NoMemory };

    fn from(_error: AllocError) -> TextError {
        TextError::NoMemory
    }
}
