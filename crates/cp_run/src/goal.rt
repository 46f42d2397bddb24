ghost use Rattle.std.specs.Prelude.{◌≡◌, IfOk};

use cp_heap::Ref;
use cp_term::Name;
use std::alloc::AllocError;

/// A goal that is to be run: the term at a place without the bindings, as the module `seer` sees it, or one that control
/// adds.
#[derive(Debug, Drop)]
pub enum Goal {
    Term { seer: Name, at: Ref },
    True,
    Fail,
}

impl Goal {
    /// The same goal. It takes no memory.
    pub fn copy(&self) -> Result<Goal, AllocError>
        ensures { IfOk result (λ copy. copy ≡ self.now) }
    {
        match self {
            Goal::Term { seer, at } => {
                let seer = seer.clone()?;
                Ok(Goal::Term { seer, at: *at })
            }
            Goal::True => Ok(Goal::True),
            Goal::Fail => Ok(Goal::Fail),
        }
    }
}
