ghost use Rattle.std.specs.Prelude.{◌≡◌, ◌<◌, true, Some, length, is_some, IfOk, OnOk};
ghost use Rattle.cp_code.specs.Bodies as body;
ghost use Rattle.cp_code.specs.Bodies.{two_bodies, three_bodies};
ghost use Rattle.cp_code.specs.Code.{Code};
ghost use Rattle.cp_code.specs.Programs.{or_fail};
ghost use Rattle.cp_code.specs.Machine.{goal_move, body_move};
ghost use Rattle.cp_run.specs.declared.goal.Goal.TheVariants as goal;
ghost use Rattle.cp_control.specs.Control.{body_at};
ghost use Rattle.cp_run.specs.Shown.{shown, moved};
ghost use Rattle.cp_run.specs.Stands.{Holds, Stands};

use crate::goal::Goal;
use crate::run::Run;
use cp_heap::Ref;
use cp_term::Name;
use std::alloc::AllocError;

/// The goal that stands at a place.
fn goal_at(seer: &Name, at: Ref) -> Result<Goal, AllocError>
    ensures { IfOk result (λ g. g ≡ goal.Term seer.now at) }
{
    let seer = seer.clone()?;
    Ok(Goal::Term { seer, at })
}

impl Run {
    /// `(A, B)` of the goals at two places.
    pub fn both_at(
        &mut self,
        seer: &Name,
        a: Ref,
        b: Ref,
        own: u64,
        rest: u32,
        level: u64,
    ) -> Result<(), AllocError>
        requires holds { Holds self.old }
        requires rest { rest < length self.old.goals }
        requires a { a.at < length self.old.heap.terms }
        requires b { b.at < length self.old.heap.terms }
        requires goal { is_some (two_bodies body.Both (body_at self.old.heap.terms seer.now a) (body_at self.old.heap.terms seer.now b)) ≡ true }
        ensures moved { OnOk result ((code : Code) → shown code self.new ≡ moved code self.old rest level (body_move code (or_fail (two_bodies body.Both (body_at self.old.heap.terms seer.now a) (body_at self.old.heap.terms seer.now b))) own)) }
        ensures stands { OnOk result (Stands self.new) }
    {
        let first = goal_at(seer, a)?;
        let second = goal_at(seer, b)?;
        self.run_both(first, second, own, rest, level)?;
        Ok(())
    }

    /// `(A ; B)` of the goals at two places.
    pub fn either_at(
        &mut self,
        seer: &Name,
        a: Ref,
        b: Ref,
        own: u64,
        rest: u32,
        level: u64,
    ) -> Result<(), AllocError>
        requires holds { Holds self.old }
        requires rest { rest < length self.old.goals }
        requires a { a.at < length self.old.heap.terms }
        requires b { b.at < length self.old.heap.terms }
        requires goal { is_some (two_bodies body.Either (body_at self.old.heap.terms seer.now a) (body_at self.old.heap.terms seer.now b)) ≡ true }
        ensures moved { OnOk result ((code : Code) → shown code self.new ≡ moved code self.old rest level (goal_move code (or_fail (two_bodies body.Either (body_at self.old.heap.terms seer.now a) (body_at self.old.heap.terms seer.now b))) own)) }
        ensures stands { OnOk result (Stands self.new) }
    {
        let first = goal_at(seer, a)?;
        let second = goal_at(seer, b)?;
        self.run_either(first, second, own, rest, level)?;
        Ok(())
    }

    /// `(C -> T ; E)` of the goals at three places.
    pub fn choose_at(
        &mut self,
        seer: &Name,
        c: Ref,
        t: Ref,
        e: Ref,
        own: u64,
        rest: u32,
        level: u64,
    ) -> Result<(), AllocError>
        requires holds { Holds self.old }
        requires rest { rest < length self.old.goals }
        requires c { c.at < length self.old.heap.terms }
        requires t { t.at < length self.old.heap.terms }
        requires e { e.at < length self.old.heap.terms }
        requires goal { is_some (three_bodies body.Choose (body_at self.old.heap.terms seer.now c) (body_at self.old.heap.terms seer.now t) (body_at self.old.heap.terms seer.now e)) ≡ true }
        ensures moved { OnOk result ((code : Code) → shown code self.new ≡ moved code self.old rest level (goal_move code (or_fail (three_bodies body.Choose (body_at self.old.heap.terms seer.now c) (body_at self.old.heap.terms seer.now t) (body_at self.old.heap.terms seer.now e))) own)) }
        ensures stands { OnOk result (Stands self.new) }
    {
        let condition = goal_at(seer, c)?;
        let consequence = goal_at(seer, t)?;
        let other = goal_at(seer, e)?;
        self.run_choose(condition, consequence, other, own, rest, level)?;
        Ok(())
    }

    /// `(C -> T)` of the goals at two places.
    pub fn if_then_at(
        &mut self,
        seer: &Name,
        c: Ref,
        t: Ref,
        own: u64,
        rest: u32,
        level: u64,
    ) -> Result<(), AllocError>
        requires holds { Holds self.old }
        requires rest { rest < length self.old.goals }
        requires c { c.at < length self.old.heap.terms }
        requires t { t.at < length self.old.heap.terms }
        requires goal { is_some (three_bodies body.Choose (body_at self.old.heap.terms seer.now c) (body_at self.old.heap.terms seer.now t) (Some body.Fail)) ≡ true }
        ensures moved { OnOk result ((code : Code) → shown code self.new ≡ moved code self.old rest level (goal_move code (or_fail (three_bodies body.Choose (body_at self.old.heap.terms seer.now c) (body_at self.old.heap.terms seer.now t) (Some body.Fail))) own)) }
        ensures stands { OnOk result (Stands self.new) }
    {
        let condition = goal_at(seer, c)?;
        let consequence = goal_at(seer, t)?;
        self.run_choose(condition, consequence, Goal::Fail, own, rest, level)?;
        Ok(())
    }

    /// `\+ G` of the goal at a place.
    pub fn not_at(
        &mut self,
        seer: &Name,
        g: Ref,
        own: u64,
        rest: u32,
        level: u64,
    ) -> Result<(), AllocError>
        requires holds { Holds self.old }
        requires rest { rest < length self.old.goals }
        requires g { g.at < length self.old.heap.terms }
        requires goal { is_some (three_bodies body.Choose (body_at self.old.heap.terms seer.now g) (Some body.Fail) (Some body.True)) ≡ true }
        ensures moved { OnOk result ((code : Code) → shown code self.new ≡ moved code self.old rest level (goal_move code (or_fail (three_bodies body.Choose (body_at self.old.heap.terms seer.now g) (Some body.Fail) (Some body.True))) own)) }
        ensures stands { OnOk result (Stands self.new) }
    {
        let condition = goal_at(seer, g)?;
        self.run_choose(condition, Goal::Fail, Goal::True, own, rest, level)?;
        Ok(())
    }
}
