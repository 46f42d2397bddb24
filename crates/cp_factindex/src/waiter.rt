ghost use Rattle.cp_factindex.specs.Waiting.{waiter_key};

use cp_call::ParkedRow;
use cp_counted::{Key, key_of};
use cp_keyed::Keyed;
use std::alloc::AllocError;

/// A parked caller, who is found by the key of the pattern.
#[derive(Drop)]
pub struct Waiter {
    pub row: ParkedRow,
}

impl Keyed for Waiter {
    ghost key = { waiter_key };

    fn key(&self) -> Result<Key, AllocError> {
        key_of(&self.row.pattern)
    }
}
