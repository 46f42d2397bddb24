ghost use Rattle.std.specs.Prelude.{IfOk};
ghost use Rattle.cp_run.specs.Stands.{IsSameItem};

use crate::goal::Goal;
use cp_heap::Ref;
use cp_props::{Checks, copy_checks};
use cp_request::Asking;
use cp_term::{Name, PredName};
use std::alloc::{AllocError, Global};

/// A goal in hand, or what is to be done between goals.
#[derive(Drop)]
pub enum Item {
    /// A goal; a cut in it goes to `level`.
    Goal {
        goal: Goal,
        level: u64,
    },
    /// The cut behind a condition.
    CutNow {
        level: u64,
    },
    /// The end of what the `catch` of this number protects.
    Leave {
        catcher: u64,
    },
    /// The end of a findall's goal; `seer` is the module that sees the findall.
    Copy {
        seer: Name,
        template: Ref,
    },
    /// A question that is asked again behind a place of the history. The terms of its goal stand as they were when it was
    /// asked first.
    AskFrom {
        asking: Asking,
        place: i64,
    },
    /// The exit of a call of a predicate whose success these checks test. The goal stands as it was called.
    Exit {
        pred: PredName,
        checks: Checks,
        goal: Ref,
    },
}

impl Item {
    /// The same item.
    pub fn copy(&self, alloc: Global) -> Result<Item, AllocError>
        ensures { IfOk result (λ copy. IsSameItem copy self.now) }
    {
        match self {
            Item::Goal { goal, level } => {
                let goal = goal.copy()?;
                Ok(Item::Goal {
                    goal,
                    level: *level,
                })
            }
            Item::CutNow { level } => Ok(Item::CutNow { level: *level }),
            Item::Leave { catcher } => Ok(Item::Leave { catcher: *catcher }),
            Item::Copy { seer, template } => {
                let seer = seer.clone()?;
                Ok(Item::Copy {
                    seer,
                    template: *template,
                })
            }
            Item::AskFrom { asking, place } => {
                let asking = asking.copy()?;
                Ok(Item::AskFrom {
                    asking,
                    place: *place,
                })
            }
            Item::Exit { pred, checks, goal } => exit_copy(alloc, pred, checks, *goal),
        }
    }
}

/// The exit of a call, again.
fn exit_copy(alloc: Global, pred: &PredName, checks: &Checks, goal: Ref) -> Result<Item, AllocError>
    ensures { IfOk result (λ copy. IsSameItem copy (Item.Exit pred.now checks.now goal)) }
{
    let pred = pred.clone()?;
    let checks = copy_checks(alloc, checks)?;
    Ok(Item::Exit { pred, checks, goal })
}
