ghost use Rattle.std.specs.Prelude.{◌≡◌, IfOk};
ghost use Rattle.cp_counted.specs.declared.key.Key.{Key as KeySeen};
ghost use Rattle.cp_counted.specs.Keys.{term_key};

use cp_counted::{Key, key_of};
use cp_term::Term;
use std::alloc::AllocError;

/// A key and the number of a row that has it.
pub type Spot = (Key, i64);

/// What has a key.
pub trait Keyed {
    ghost key: { Self → KeySeen };

    fn key(&self) -> Result<Key, AllocError>
        ensures { IfOk result (λ key. key ≡ Self.key self.now) };
}

impl Keyed for Term {
    ghost key = { term_key };

    fn key(&self) -> Result<Key, AllocError> {
        key_of(self)
    }
}
