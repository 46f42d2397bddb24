ghost use Rattle.std.specs.Prelude.{◌<◌, length, IfOk};
ghost use Rattle.cp_run.specs.declared.goal.Goal.TheVariants as goal;
ghost use Rattle.cp_run.specs.Shown.{goal_shown};
ghost use Rattle.cp_run.specs.Stands.{HasGoal, Holds};
ghost use Rattle.cp_run.specs.Starting.{IsStarted};

use crate::run::Run;
use cp_control::{Control, Seen};
use cp_heap::Ref;
use cp_term::Name;
use std::alloc::AllocError;

/// What became of a goal that was next.
#[derive(Debug, Drop)]
pub enum Started {
    /// It was run, or no unit was left for it.
    Moved,
    /// It was charged, and is still to be run: it is no control over its parts.
    Due(Seen),
}

impl Run {
    /// Runs the goal at a place as far as it is control over its parts. A conjunction costs no unit, every other goal one.
    pub fn start_term(
        &mut self,
        seer: Name,
        at: Ref,
        own: u64,
        rest: u32,
        level: u64,
    ) -> Result<Started, AllocError>
        requires holds { Holds self.old }
        requires rest { rest < length self.old.goals }
        requires goal { HasGoal self.old.heap.terms (goal.Term seer at) }
        ensures { IfOk result (λ started. IsStarted self.old self.new (goal_shown self.old.heap.terms (goal.Term seer at)) own rest level started) }
    {
        let seen = Seen::of(&self.heap, seer, at)?;
        if let Control::Both(a, b) = seen.control {
            self.both_at(&seen.seer, a, b, own, rest, level)?;
            return Ok(Started::Moved);
        }
        if !self.charge() {
            return Ok(Started::Moved);
        }
        let ran = self.run_control(&seen.seer, seen.at, seen.control, own, rest, level)?;
        if ran {
            return Ok(Started::Moved);
        }
        Ok(Started::Due(seen))
    }
}
