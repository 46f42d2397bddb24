use cp_term::{Cells, Name, Term};
use std::alloc::{AllocError, Global};

/// The name with these bytes, which are few and UTF-8.
pub(crate) fn named(alloc: Global, bytes: &[u8]) -> Result<Name, AllocError> {
    match Name::of(alloc, bytes) {
        Ok(name) => Ok(name),
        Err(_) => Err(AllocError),
    }
}

/// The term with these cells, which are one.
pub(crate) fn term_of(cells: Cells) -> Result<Term, AllocError> {
    match Term::from_cells(cells) {
        Ok(term) => Ok(term),
        Err(_) => Err(AllocError),
    }
}
