ghost use Rattle.std.specs.Prelude.{◌≡◌, ℕ, List, false};
ghost use Rattle.cp_heap.specs.State.{instance_at};
ghost use Rattle.cp_code.specs.Bodies.{seen_from};
ghost use Rattle.cp_code.specs.Requests.{has_module};
ghost use Rattle.cp_request.specs.Shapes.{IsPlace};
ghost use Rattle.cp_request.specs.Seen.{seer_of, seen_shown, HasModule, HasSeen};

use crate::looks::qualified;
use cp_heap::{Heap, Ref};
use cp_term::Name;

/// A goal without the modules in front of it (Ciao manual, "The module system"): the inner one counts.
#[derive(Debug, Clone, Copy, Drop)]
pub struct SeenGoal {
    /// The atom that is the innermost of these modules, if there is one.
    pub module: Option<Ref>,
    pub goal: Ref,
}

impl SeenGoal {
    /// The goal at a place, without the modules in front of it. One that is no atom stays. It takes no memory.
    pub fn of(heap: &Heap, at: Ref) -> SeenGoal
        requires { IsPlace heap.now at }
        ensures seen { (m : List ℕ) → seen_from m (instance_at heap.now at.at) ≡ seen_shown heap.now m result }
        ensures places { HasSeen heap.now result }
        ensures unqualified { has_module (instance_at heap.now result.goal.at) ≡ false }
    {
        let mut seen = SeenGoal {
            module: None,
            goal: at,
        };
        'modules: while let Some((module, goal)) = qualified(heap, seen.goal) {
            seen = SeenGoal {
                module: Some(module),
                goal,
            };
        }
        seen
    }

    /// The name of the module that sees the goal, where `outer` sees the whole.
    pub fn seer<'a>(&self, heap: &'a Heap, outer: &'a Name) -> &'a Name
        requires { HasModule heap.now self.now.module }
        ensures { result.now ≡ seer_of heap.now outer.now self.now.module }
    {
        match self.module {
            None => outer,
            Some(module) => heap.name(module).unwrap_or(outer),
        }
    }
}
