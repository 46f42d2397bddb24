ghost use Rattle.std.specs.Prelude.{◌≡◌, ℕ, ◌<◌, ◌∷◌, [], cond, false, None, Some, length, get_or, reverse, IfOk, OnOk};
ghost use Rattle.cp_term.specs.Unification.{unify as unify_by};
ghost use Rattle.cp_term.specs.Numbering.{fresh};
ghost use Rattle.cp_heap.specs.State.{IsLive};
ghost use Rattle.cp_code.specs.Clauses.{head_of};
ghost use Rattle.cp_code.specs.Code.{Code};
ghost use Rattle.cp_code.specs.Programs.{clause_of, code_of};
ghost use Rattle.cp_run.specs.Shown.{back, bound, instance_in, here_of, rules_from, frames_shown, frames_of, shown, moved};
ghost use Rattle.cp_run.specs.Stands.{IsMoment, FramesStand, Holds, Stands};
ghost use Rattle.cp_run.specs.Entering.{HasGoodBody, HasBody, HasClause, IsExtended, IsBodyPut, clauses_frame, clause_entered, clause_row};
ghost use Rattle.cp_run.specs.Programs.{HasGoodBodies, tries_row};

use crate::clause_parts::ClauseParts;
use crate::frame::Frame;
use crate::goal::Goal;
use crate::item::Item;
use crate::moment::Moment;
use crate::point::Point;
use crate::program_clauses::clause_at;
use crate::run::Run;
use crate::selection::may_match;
use cp_code::{Clause, Program, candidates_are_enough};
use cp_heap::{Mark, Ref, instances_have_the_variables_of_the_heap};
use cp_term::Name;
use cp_unify::unify_since;
use std::alloc::AllocError;

impl Run {
    /// Puts a clause on the heap, with new variables.
    pub fn put_clause(&mut self, clause: &Clause) -> Result<ClauseParts, AllocError>
        requires { Holds self.old }
        ensures clause { IfOk result (λ parts. HasClause self.old.heap self.new.heap clause.now.whole parts) }
        ensures extended { OnOk result (IsExtended self.old self.new) }
    {
        let at = self.heap.import(&clause.whole)?;
        let parts = ClauseParts::of(&self.heap, at);
        Ok(parts)
    }

    /// Makes two terms one, where they unify.
    pub fn unify(&mut self, a: Ref, b: Ref) -> Result<bool, AllocError>
        requires holds { Holds self.old }
        requires a { a.at < length self.old.heap.terms }
        requires b { b.at < length self.old.heap.terms }
        ensures unified { IfOk result (λ unified. unify_by (bound (here_of self.old)) (instance_in (here_of self.old) a.at) (get_or self.old.heap.terms b.at []) ≡ cond unified (Some (bound (here_of self.new))) None) }
        ensures extended { OnOk result (IsExtended self.old self.new) }
        ensures kept { OnOk result (self.new.heap ≡ record self.old.heap { trail = self.new.heap.trail }) }
    {
        let mark = self.heap.mark();
        self.unify_since(mark, a, b)
    }

    /// The same. A variable that was made after the mark is bound to a term from before it without a walk along the term.
    pub fn unify_since(&mut self, mark: Mark, a: Ref, b: Ref) -> Result<bool, AllocError>
        requires holds { Holds self.old }
        requires mark { IsLive mark self.old.heap }
        requires a { a.at < length self.old.heap.terms }
        requires b { b.at < length self.old.heap.terms }
        ensures unified { IfOk result (λ unified. unify_by (bound (here_of self.old)) (instance_in (here_of self.old) a.at) (get_or self.old.heap.terms b.at []) ≡ cond unified (Some (bound (here_of self.new))) None) }
        ensures extended { OnOk result (IsExtended self.old self.new) }
        ensures kept { OnOk result (self.new.heap ≡ record self.old.heap { trail = self.new.heap.trail }) }
    {
        let _now = self.heap.mark();
        let unified = unify_since(self.alloc, &mut self.heap, mark, a, b)?;
        Ok(unified)
    }

    /// The clauses of a predicate from this one on are to be tried, as things were at a moment.
    pub fn push_clauses(
        &mut self,
        moment: Moment,
        pred: u32,
        from: u32,
        goal: Ref,
        rest: u32,
        level: u64,
    ) -> Result<(), AllocError>
        requires holds { Holds self.old }
        requires moment { IsMoment moment (here_of self.old) }
        requires goal { goal.at < moment.mark.terms }
        requires rest { rest < moment.lists }
        requires frames { FramesStand (back moment (here_of self.old)) (reverse self.old.frames.items) }
        ensures holds { OnOk result (Holds self.new) }
        ensures state { OnOk result (self.new ≡ record self.old { frames = self.new.frames }) }
        ensures frames { OnOk result ((code : Code) → frames_of code self.new ≡ clauses_frame code (here_of self.old) moment pred from goal.at rest level ∷ frames_shown code (back moment (here_of self.old)) (reverse self.old.frames.items)) }
    {
        self.frames.push(Frame::Clauses {
            moment,
            pred,
            from,
            goal,
            rest,
            level,
        })?;
        Ok(())
    }

    /// Puts the body of a clause, if it has one, in front of a list of goals.
    pub fn put_body(
        &mut self,
        module: &Name,
        body: Option<Ref>,
        rest: u32,
        level: u64,
    ) -> Result<u32, AllocError>
        requires holds { Holds self.old }
        requires rest { rest < length self.old.goals }
        requires body { HasBody self.old.heap.terms «module».now body }
        ensures holds { OnOk result (Holds self.new) }
        ensures put { IfOk result (λ n. IsBodyPut self.old self.new «module».now body rest level n) }
    {
        match body {
            None => Ok(rest),
            Some(at) => {
                let goal = Goal::Term {
                    seer: module.clone()?,
                    at,
                };
                let n = self.put(Item::Goal { goal, level }, rest)?;
                Ok(n)
            }
        }
    }

    /// A clause whose head the goal was made one with is entered, and those behind it are to be tried as things were.
    fn enter_clause(
        &mut self,
        module: &Name,
        body: Option<Ref>,
        moment: Moment,
        pred: u32,
        from: u32,
        goal: Ref,
        rest: u32,
        level: u64,
    ) -> Result<(), AllocError>
        requires holds { Holds self.old }
        requires moment { IsMoment moment (here_of self.old) }
        requires goal { goal.at < moment.mark.terms }
        requires rest { rest < moment.lists }
        requires frames { FramesStand (back moment (here_of self.old)) (reverse self.old.frames.items) }
        requires body { HasBody self.old.heap.terms «module».now body }
        ensures entered { OnOk result ((code : Code) → shown code self.new ≡ clause_entered code self.old «module».now body moment pred from goal.at rest level) }
        ensures stands { OnOk result (Stands self.new) }
    {
        self.push_clauses(moment, pred, from, goal, rest, level)?;
        let goals = self.put_body(module, body, rest, level)?;
        self.go(Point::Runs { goals, level });
        Ok(())
    }

    /// Whether a goal may be made one with the head of a clause, as far as their first arguments tell.
    fn can_try(&self, clause: &Clause, goal: Ref) -> bool
        requires holds { Holds self.now }
        requires goal { goal.at < length self.now.heap.terms }
        ensures { result ≡ false → (next : ℕ) → unify_by (bound (here_of self.now)) (instance_in (here_of self.now) goal.at) (fresh next (head_of clause.now.whole)) ≡ None }
    {
        let _mark = self.heap.mark();
        instances_have_the_variables_of_the_heap();
        candidates_are_enough();
        may_match(&self.heap, goal, clause)
    }

    /// A clause of a predicate is tried, with those from `from` on behind it.
    pub fn try_clause(
        &mut self,
        clause: &Clause,
        pred: u32,
        from: u32,
        goal: Ref,
        rest: u32,
        level: u64,
    ) -> Result<(), AllocError>
        requires holds { Holds self.old }
        requires goal { goal.at < length self.old.heap.terms }
        requires rest { rest < length self.old.goals }
        requires body { HasGoodBody clause.now }
        ensures moved { OnOk result ((code : Code) → shown code self.new ≡ moved code self.old rest level (clause_row (rules_from code pred from) (clause_of clause.now) (instance_in (here_of self.old) goal.at))) }
        ensures stands { OnOk result (Stands self.new) }
    {
        if !self.can_try(clause, goal) {
            self.go(Point::Tries {
                pred,
                from,
                goal,
                rest,
                level,
            });
            return Ok(());
        }
        let moment = self.moment();
        let parts = self.put_clause(clause)?;
        let unified = self.unify_since(moment.mark, goal, parts.head)?;
        if unified {
            self.enter_clause(
                &clause.module,
                parts.body,
                moment,
                pred,
                from,
                goal,
                rest,
                level,
            )?;
            return Ok(());
        }
        self.undo_to(moment);
        self.go(Point::Tries {
            pred,
            from,
            goal,
            rest,
            level,
        });
        Ok(())
    }

    /// The next clause of a predicate is tried.
    pub fn try_next(
        &mut self,
        program: &Program,
        pred: u32,
        from: u32,
        goal: Ref,
        rest: u32,
        level: u64,
    ) -> Result<(), AllocError>
        requires holds { Holds self.old }
        requires goal { goal.at < length self.old.heap.terms }
        requires rest { rest < length self.old.goals }
        requires bodies { HasGoodBodies program.now }
        ensures moved { OnOk result ((steps : ℕ) → shown (code_of program.now steps) self.new ≡ moved (code_of program.now steps) self.old rest level (tries_row (rules_from (code_of program.now steps) pred from) (instance_in (here_of self.old) goal.at))) }
        ensures stands { OnOk result (Stands self.new) }
    {
        let Some(clause) = clause_at(program, pred, from) else {
            self.go(Point::Fails);
            return Ok(());
        };
        let Some(next) = from.checked_add(1) else {
            return Err(AllocError);
        };
        self.try_clause(clause, pred, next, goal, rest, level)?;
        Ok(())
    }
}
