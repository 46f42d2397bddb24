ghost use Rattle.std.specs.Prelude.{◌≡◌, IfOk};
ghost use Rattle.cp_code.specs.Requests.{call_of};
ghost use Rattle.cp_request.specs.Asked.{goal_shown};

use crate::fact_goal::FactGoal;
use crate::manner::Manner;
use cp_call::Call;
use cp_term::{PredName, Term};
use std::alloc::AllocError;

/// A question to a shared object.
#[derive(Debug, Drop)]
pub struct Asking {
    /// The number of the object: 0 for the goals, 1 for those that have ended, and from 2 on the shared predicates.
    pub object: u32,
    /// What is called. A posted goal is added at the back, and what has ended is looked for.
    pub goal: FactGoal,
    /// The fact or pattern as it is handed out, its variables numbered by first occurrence.
    pub copy: Term,
    pub manner: Manner,
    /// The predicate that an error names.
    pub context: PredName,
}

impl Asking {
    /// The call from a place of the history on, or from its beginning.
    pub fn call(&self, after: Option<i64>) -> Result<Call, AllocError>
        ensures { IfOk result (λ call. call ≡ call_of (goal_shown self.now.goal) self.now.copy after) }
    {
        self.goal.call(&self.copy, after)
    }

    /// The same question.
    pub fn copy(&self) -> Result<Asking, AllocError>
        ensures { IfOk result (λ a. a ≡ self.now) }
    {
        Ok(Asking {
            object: self.object,
            goal: self.goal,
            copy: self.copy.copy()?,
            manner: self.manner,
            context: self.context.clone()?,
        })
    }
}
