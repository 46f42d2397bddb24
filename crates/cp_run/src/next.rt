ghost use Rattle.std.specs.Prelude.{◌≡◌, ◌<◌, List, length, IfOk, OnOk};
ghost use Rattle.cp_term.specs.declared.cell.Cell.{Cell};
ghost use Rattle.cp_code.specs.Code.{Code};
ghost use Rattle.cp_run.specs.Shown.{asking_shown, shown, moved};
ghost use Rattle.cp_run.specs.Stands.{Holds, HasGoal, HasManner, Stands};
ghost use Rattle.cp_run.specs.Starting.{IsNextOf, IsGoalNext, IsFirst, again_row};

use crate::goal::Goal;
use crate::item::Item;
use crate::point::Point;
use crate::run::Run;
use crate::started::Started;
use cp_control::Seen;
use cp_heap::Ref;
use cp_props::Checks;
use cp_request::Asking;
use cp_term::{Name, PredName};
use std::alloc::AllocError;

/// What became of the first item of the goals in hand.
#[derive(Drop)]
pub enum Next {
    /// It was run, or no unit was left for it.
    Moved,
    /// A goal was charged, and is still to be run, in front of the list `rest`; a cut in it goes to `own`.
    Due {
        seen: Seen,
        own: u64,
        rest: u32,
    },
    /// There is none: the goal has an answer.
    Answer,
    /// The goal of a findall has a solution, in front of the list `rest`.
    Copy {
        seer: Name,
        template: Ref,
        rest: u32,
    },
    /// A question is to be asked again behind a place of the history, in front of the list `rest`.
    Ask {
        asking: Asking,
        place: i64,
        rest: u32,
    },
    /// A call of a predicate whose success these checks test has come to an exit, in front of the list `rest`.
    Exit {
        pred: PredName,
        checks: Checks,
        goal: Ref,
        rest: u32,
    },
}

impl Run {
    /// The first item of a list of goals, and the list behind it.
    fn first_item(&self, goals: u32) -> Result<Option<(Item, u32)>, AllocError>
        requires holds { Holds self.now }
        requires goals { goals < length self.now.goals }
        ensures { IfOk result (IsFirst self.now goals) }
    {
        match self.goals.first(goals) {
            None => Ok(None),
            Some((item, rest)) => {
                let item = item.copy(self.alloc)?;
                Ok(Some((item, rest)))
            }
        }
    }

    /// Runs a goal as far as it is control over its parts.
    fn start_goal(
        &mut self,
        goal: Goal,
        own: u64,
        rest: u32,
        level: u64,
    ) -> Result<Next, AllocError>
        requires holds { Holds self.old }
        requires rest { rest < length self.old.goals }
        requires goal { HasGoal self.old.heap.terms goal }
        ensures { IfOk result (IsGoalNext self.old self.new goal own rest level) }
    {
        match goal {
            Goal::Term { seer, at } => match self.start_term(seer, at, own, rest, level)? {
                Started::Moved => Ok(Next::Moved),
                Started::Due(seen) => Ok(Next::Due { seen, own, rest }),
            },
            Goal::True => {
                if self.charge() {
                    self.run_true(own, rest, level);
                }
                Ok(Next::Moved)
            }
            Goal::Fail => {
                if self.charge() {
                    self.run_fail(own, rest, level);
                }
                Ok(Next::Moved)
            }
        }
    }

    /// Runs the first item of the goals in hand, as far as it is control over its parts.
    pub fn run_next(&mut self, goals: u32, level: u64) -> Result<Next, AllocError>
        requires holds { Holds self.old }
        requires goals { goals < length self.old.goals }
        ensures { IfOk result (IsNextOf self.old self.new goals level) }
    {
        let Some((item, rest)) = self.first_item(goals)? else {
            return Ok(Next::Answer);
        };
        match item {
            Item::Goal { goal, level: own } => self.start_goal(goal, own, rest, level),
            Item::CutNow { level: own } => {
                self.run_cut(own, rest, level);
                Ok(Next::Moved)
            }
            Item::Leave { .. } => {
                self.go(Point::Runs { goals: rest, level });
                Ok(Next::Moved)
            }
            Item::Copy { seer, template } => Ok(Next::Copy {
                seer,
                template,
                rest,
            }),
            Item::AskFrom { asking, place } => Ok(Next::Ask {
                asking,
                place,
                rest,
            }),
            Item::Exit { pred, checks, goal } => Ok(Next::Exit {
                pred,
                checks,
                goal,
                rest,
            }),
        }
    }

    /// A question is asked again behind a place of the history, which costs a unit.
    pub fn ask_again(
        &mut self,
        asking: Asking,
        place: i64,
        rest: u32,
        level: u64,
    ) -> Result<(), AllocError>
        requires holds { Holds self.old }
        requires rest { rest < length self.old.goals }
        requires asking { HasManner self.old.heap.terms asking.manner }
        ensures moved { OnOk result ((code : Code) (goal : List Cell) → shown code self.new ≡ moved code self.old rest level (again_row code goal (asking_shown self.old.heap.terms asking) place)) }
        ensures stands { OnOk result (Stands self.new) }
    {
        if self.charge() {
            self.go(Point::Asks {
                asking,
                from: Some(place),
                rest,
                level,
            });
        } else {
            drop_asking(asking);
        }
        Ok(())
    }
}

fn drop_asking(_asking: Asking) {}
