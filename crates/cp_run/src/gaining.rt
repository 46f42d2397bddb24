ghost use Rattle.std.specs.Prelude.{◌≡◌, ◌<◌, [], length, get_or, IfOk, OnOk};
ghost use Rattle.cp_run.specs.Shown.{here_of, instance_in};
ghost use Rattle.cp_run.specs.Stands.{Holds};
ghost use Rattle.cp_run.specs.Gaining.{IsGained};

use crate::run::Run;
use cp_heap::Ref;
use std::alloc::AllocError;

impl Run {
    /// The instance of a term, as a term that stands by itself.
    pub fn instance(&mut self, at: Ref) -> Result<Ref, AllocError>
        requires holds { Holds self.old }
        requires at { at.at < length self.old.heap.terms }
        ensures place { IfOk result (λ r. r.at < length self.new.heap.terms) }
        ensures term { IfOk result (λ r. get_or self.new.heap.terms r.at [] ≡ instance_in (here_of self.old) at.at) }
        ensures instance { IfOk result (λ r. instance_in (here_of self.new) r.at ≡ instance_in (here_of self.old) at.at) }
        ensures gained { OnOk result (IsGained self.old self.new) }
    {
        let _mark = self.heap.mark();
        let instance = self.heap.instance(at)?;
        Ok(instance)
    }
}
