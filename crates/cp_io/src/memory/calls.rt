ghost use Rattle.std.specs.Prelude.{◌≡◌, IfOk, take};
ghost use Rattle.cp_io.specs.Calls.{counted, failure_in, failure_of};

use super::{Fail, Fails};
use std::alloc::{AllocError, Global};

/// The calls of a device: those that are to fail, and how many were made.
#[derive(Debug, Drop)]
pub struct Calls {
    pub fails: Fails,
    pub made: u32,
}

impl Calls {
    pub fn new(fails: Fails) -> Calls
        ensures fails { result.fails ≡ fails }
        ensures made { result.made ≡ 0 }
    {
        Calls { fails, made: 0 }
    }

    /// Counts a call. Where it is to fail, it says how many bytes of its piece go out before it does.
    pub fn next(&mut self) -> Option<u32>
        ensures failure { result ≡ failure_of self.old }
        ensures counted { self.new ≡ counted self.old }
    {
        self.made = self.made.saturating_add(1);
        failure_at(self.fails.as_slice(), self.made)
    }

    /// The same calls that are to fail, with none made.
    pub fn anew(&self, alloc: Global) -> Result<Calls, AllocError>
        ensures fails { IfOk result (λ calls. calls.fails ≡ self.now.fails) }
        ensures made { IfOk result (λ calls. calls.made ≡ 0) }
    {
        let mut fails = Fails::new(alloc);
        for fail in self.fails.as_slice() {
            fails.push(*fail)?;
        }
        Ok(Calls::new(fails))
    }
}

fn failure_at(fails: &[Fail], call: u32) -> Option<u32>
    ensures { result ≡ failure_in fails.now call }
{
    for fail in fails {
        if fail.call == call {
            return Some(fail.taken);
        }
    }
    None
}
