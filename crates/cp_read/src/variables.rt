ghost use Rattle.std.specs.Prelude.{◌≡◌, IfOk, OnOk};
ghost use Rattle.cp_read.specs.SeenNames.{nothing_seen, number_of, seen_with};

use indexmap::IndexMap;
use std::alloc::{AllocError, Global};
use std::marker::Model;

/// The variables of a clause, which are numbered from 0 by first occurrence. Each `_` is a new one.
#[derive(Drop)]
pub(crate) struct Variables<'a> {
    numbers: IndexMap<&'a [u8], u32>,
    count: u32,
}

impl<'a> Model for Variables<'a> {
    ghost use Rattle.cp_read.specs.SeenNames.{Seen};

    ghost Value = { Seen };

    ghost use Rattle.cp_read.specs.Seen.{seen_in};

    ghost view = { seen_in };
}

impl<'a> Variables<'a> {
    pub(crate) fn new(alloc: Global) -> Self
        ensures { result ≡ nothing_seen }
    {
        Variables {
            numbers: IndexMap::new(alloc),
            count: 0,
        }
    }

    /// The number of the variable with this name.
    pub(crate) fn number(&mut self, name: &'a [u8]) -> Result<u32, AllocError>
        ensures number { IfOk result (λ n. n ≡ number_of self.old name.entry.now) }
        ensures names { OnOk result (self.new ≡ seen_with self.old name.entry.now) }
    {
        let number = self.count;
        let Some(count) = number.checked_add(1) else {
            return Err(AllocError);
        };
        if name == b"_".as_slice() {
            self.count = count;
            return Ok(number);
        }
        if let Some(known) = self.numbers.get(&name) {
            return Ok(*known);
        }
        self.numbers.insert(name, number)?;
        self.count = count;
        Ok(number)
    }
}
