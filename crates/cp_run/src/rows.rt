ghost use Rattle.std.specs.Prelude.{◌≡◌, ◌<◌, suc, false, length, OnOk, IsTrue};
ghost use Rattle.cp_code.specs.Bodies as body;
ghost use Rattle.cp_code.specs.Code.{Code};
ghost use Rattle.cp_code.specs.Machine.{goal_move, body_move};
ghost use Rattle.cp_run.specs.Shown.{goal_shown, shown, frames_of, moved, entered, choice_frames};
ghost use Rattle.cp_run.specs.Stands.{HasGoal, Holds, Stands};

use crate::goal::Goal;
use crate::item::Item;
use crate::point::Point;
use crate::run::Run;
use std::alloc::AllocError;

impl Run {
    /// `(A, B)`, which costs no unit.
    pub fn run_both(
        &mut self,
        first: Goal,
        second: Goal,
        own: u64,
        rest: u32,
        level: u64,
    ) -> Result<(), AllocError>
        requires holds { Holds self.old }
        requires rest { rest < length self.old.goals }
        requires first { HasGoal self.old.heap.terms first }
        requires second { HasGoal self.old.heap.terms second }
        ensures moved { OnOk result ((code : Code) → shown code self.new ≡ moved code self.old rest level (body_move code (body.Both (goal_shown self.old.heap.terms first) (goal_shown self.old.heap.terms second)) own)) }
        ensures stands { OnOk result (Stands self.new) }
    {
        let behind = self.put(
            Item::Goal {
                goal: second,
                level: own,
            },
            rest,
        )?;
        let goals = self.put(
            Item::Goal {
                goal: first,
                level: own,
            },
            behind,
        )?;
        self.go(Point::Runs { goals, level });
        Ok(())
    }

    /// `(A ; B)`
    pub fn run_either(
        &mut self,
        first: Goal,
        second: Goal,
        own: u64,
        rest: u32,
        level: u64,
    ) -> Result<(), AllocError>
        requires holds { Holds self.old }
        requires rest { rest < length self.old.goals }
        requires first { HasGoal self.old.heap.terms first }
        requires second { HasGoal self.old.heap.terms second }
        ensures moved { OnOk result ((code : Code) → shown code self.new ≡ moved code self.old rest level (goal_move code (body.Either (goal_shown self.old.heap.terms first) (goal_shown self.old.heap.terms second)) own)) }
        ensures stands { OnOk result (Stands self.new) }
    {
        let other = self.put(
            Item::Goal {
                goal: second,
                level: own,
            },
            rest,
        )?;
        self.push_alternative(other, level)?;
        let goals = self.put(
            Item::Goal {
                goal: first,
                level: own,
            },
            rest,
        )?;
        self.go(Point::Runs { goals, level });
        Ok(())
    }

    /// `!`
    pub fn run_cut(&mut self, own: u64, rest: u32, level: u64)
        requires holds { Holds self.old }
        requires rest { rest < length self.old.goals }
        ensures moved { (code : Code) → shown code self.new ≡ moved code self.old rest level (goal_move code body.Cut own) }
        ensures stands { Stands self.new }
    {
        self.cut_to(own);
        self.go(Point::Runs { goals: rest, level });
    }

    /// `true`
    pub fn run_true(&mut self, own: u64, rest: u32, level: u64)
        requires holds { Holds self.old }
        requires rest { rest < length self.old.goals }
        ensures moved { (code : Code) → shown code self.new ≡ moved code self.old rest level (goal_move code body.True own) }
        ensures stands { Stands self.new }
    {
        self.go(Point::Runs { goals: rest, level });
    }

    /// `fail`
    pub fn run_fail(&mut self, own: u64, rest: u32, level: u64)
        requires holds { Holds self.old }
        ensures moved { (code : Code) → shown code self.new ≡ moved code self.old rest level (goal_move code body.Fail own) }
        ensures stands { Stands self.new }
    {
        self.go(Point::Fails);
    }

    /// `(C -> T ; E)`, and with `fail` or `true` as a part of it `(C -> T)` and `\+ C`.
    pub fn run_choose(
        &mut self,
        condition: Goal,
        consequence: Goal,
        other: Goal,
        own: u64,
        rest: u32,
        level: u64,
    ) -> Result<(), AllocError>
        requires holds { Holds self.old }
        requires rest { rest < length self.old.goals }
        requires condition { HasGoal self.old.heap.terms condition }
        requires consequence { HasGoal self.old.heap.terms consequence }
        requires other { HasGoal self.old.heap.terms other }
        ensures moved { OnOk result ((code : Code) → shown code self.new ≡ moved code self.old rest level (goal_move code (body.Choose (goal_shown self.old.heap.terms condition) (goal_shown self.old.heap.terms consequence) (goal_shown self.old.heap.terms other)) own)) }
        ensures stands { OnOk result (Stands self.new) }
    {
        let Some(outer) = level.checked_add(1) else {
            return Err(AllocError);
        };
        let Some(inner) = level.checked_add(2) else {
            return Err(AllocError);
        };
        let others = self.put(
            Item::Goal {
                goal: other,
                level: own,
            },
            rest,
        )?;
        let behind = self.put(
            Item::Goal {
                goal: consequence,
                level: own,
            },
            rest,
        )?;
        self.enter_condition(condition, others, behind, outer, inner)
    }

    /// A condition is run at its own level, over the other goals and in front of those behind it.
    fn enter_condition(
        &mut self,
        condition: Goal,
        others: u32,
        behind: u32,
        outer: u64,
        inner: u64,
    ) -> Result<(), AllocError>
        requires holds { Holds self.old }
        requires others { others < length self.old.goals }
        requires behind { behind < length self.old.goals }
        requires condition { HasGoal self.old.heap.terms condition }
        ensures moved { OnOk result ((code : Code) → shown code self.new ≡ entered code self.old (goal_shown self.old.heap.terms condition) others behind outer inner) }
        ensures stands { OnOk result (Stands self.new) }
    {
        let cut = self.put(Item::CutNow { level: outer }, behind)?;
        let goals = self.put(
            Item::Goal {
                goal: condition,
                level: inner,
            },
            cut,
        )?;
        self.open_choice(others, outer, inner)?;
        self.go(Point::Runs {
            goals,
            level: inner,
        });
        Ok(())
    }

    /// The level of a choice is opened with its other goals, and over them the level of its condition.
    fn open_choice(&mut self, others: u32, outer: u64, inner: u64) -> Result<(), AllocError>
        requires holds { Holds self.old }
        requires others { others < length self.old.goals }
        ensures holds { OnOk result (Holds self.new) }
        ensures state { OnOk result (self.new ≡ record self.old { frames = self.new.frames }) }
        ensures frames { OnOk result ((code : Code) → frames_of code self.new ≡ choice_frames code self.old others outer inner) }
    {
        self.push_opened(outer)?;
        self.push_alternative(others, outer)?;
        self.push_opened(inner)?;
        Ok(())
    }

    /// One unit is charged; where none is left the run stops. Whether it goes on.
    pub fn charge(&mut self) -> bool
        requires { Holds self.old }
        ensures charged { IsTrue result → (self.old.units ≡ suc self.new.units) × (self.new ≡ record self.old { units = self.new.units }) }
        ensures stopped { result ≡ false → (self.old.units ≡ 0) × (self.new ≡ record self.old { point = Point.Stops }) }
    {
        if self.units == 0 {
            self.go(Point::Stops);
            return false;
        }
        self.units -= 1;
        true
    }
}
