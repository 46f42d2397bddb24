ghost use Rattle.std.specs.Prelude.{◌≡◌, IfOk};
ghost use Rattle.cp_counted.specs.Keys.{term_key, keys_agree};

use cp_term::{Cell, Name, Term};
use std::alloc::AllocError;

/// The key of a term: the first cell of the first argument of a compound term, where that is no variable. Else the key
/// is missing.
#[derive(Debug, PartialEq, Eq, PartialOrd, Ord, Drop)]
pub enum Key {
    Missing,
    Int(i64),
    Atom(Name),
    Func(Name, u16),
}

impl Clone for Key {
    ghost is_clone = { λ key copy. copy ≡ key };

    fn clone(&self) -> Result<Key, AllocError> {
        match self {
            Key::Missing => Ok(Key::Missing),
            Key::Int(i) => Ok(Key::Int(*i)),
            Key::Atom(name) => Ok(Key::Atom(name.clone()?)),
            Key::Func(name, arity) => Ok(Key::Func(name.clone()?, *arity)),
        }
    }
}

/// The key of a term.
pub fn key_of(term: &Term) -> Result<Key, AllocError>
    ensures { IfOk result (λ key. key ≡ term_key term.now) }
{
    match term.cells() {
        [Cell::Func(_, _), Cell::Int(i), ..] => Ok(Key::Int(*i)),
        [Cell::Func(_, _), Cell::Atom(name), ..] => Ok(Key::Atom(name.clone()?)),
        [Cell::Func(_, _), Cell::Func(name, arity), ..] => Ok(Key::Func(name.clone()?, *arity)),
        _ => Ok(Key::Missing),
    }
}

/// Whether one of the keys is missing or they are the same.
pub fn agrees(a: &Key, b: &Key) -> bool
    ensures { result ≡ keys_agree a.now b.now }
{
    match (a, b) {
        (Key::Missing, _) => true,
        (_, Key::Missing) => true,
        (a, b) => a == b,
    }
}
