ghost use Rattle.std.specs.Prelude.{◌≡◌, ℕ, ◌<◌, List, ◌∷◌, ◌++◌, length, codes, IfOk, OnOk};
ghost use Rattle.cp_term.specs.declared.cell.Cell.{Cell};
ghost use Rattle.cp_goal.specs.Errors.{resource_error};
ghost use Rattle.cp_code.specs.Code.{Code};
ghost use Rattle.cp_code.specs.Requests.{full_name};
ghost use Rattle.cp_code.specs.Tree as tree;
ghost use Rattle.cp_run.specs.Shown.{here_of, instance_in, item_shown, goals_shown, shown, moved};
ghost use Rattle.cp_run.specs.Stands.{Holds, Stands};
ghost use Rattle.cp_run.specs.Gaining.{IsGained, throw_row, raise_row, throw_copy_row};

use crate::item::Item;
use crate::point::{Catchers, Point};
use crate::run::Run;
use cp_builtin::error_ball;
use cp_heap::{ExportError, Ref};
use cp_request::resource_error_of;
use cp_term::{PredName, Term};
use std::alloc::AllocError;

impl Run {
    /// The catches whose end is among these goals, from the innermost one on.
    fn catchers(&self, goals: u32) -> Result<Catchers, AllocError>
        requires holds { Holds self.now }
        requires goals { goals < length self.now.goals }
        ensures { IfOk result (λ ks. ks ≡ tree.catchers (goals_shown (here_of self.now) goals)) }
    {
        let mut catchers = Catchers::new(self.alloc);
        let mut at = goals;
        'items: loop {
            match self.goals.first(at) {
                None => return Ok(catchers),
                Some((item, behind)) => {
                    push_catcher(&mut catchers, item)?;
                    at = behind;
                }
            }
        }
    }

    /// A ball is thrown in front of a list of goals.
    pub fn throw(&mut self, ball: Term, rest: u32) -> Result<(), AllocError>
        requires holds { Holds self.old }
        requires rest { rest < length self.old.goals }
        ensures moved { OnOk result ((code : Code) (level : ℕ) → shown code self.new ≡ moved code self.old rest level (throw_row ball)) }
        ensures stands { OnOk result (Stands self.new) }
    {
        let catchers = self.catchers(rest)?;
        self.go(Point::Throws { ball, catchers });
        Ok(())
    }

    /// An error of this kind is raised, in the context of a predicate.
    pub fn raise(&mut self, kind: Ref, context: &PredName, rest: u32) -> Result<(), AllocError>
        requires holds { Holds self.old }
        requires kind { kind.at < length self.old.heap.terms }
        requires rest { rest < length self.old.goals }
        ensures moved { OnOk result ((code : Code) (level : ℕ) → shown code self.new ≡ moved code self.old rest level (raise_row (instance_in (here_of self.old) kind.at) (full_name context.now))) }
        ensures stands { OnOk result (Stands self.new) }
    {
        let _mark = self.heap.mark();
        let ball = error_ball(self.alloc, &mut self.heap, context, kind)?;
        self.throw(ball, rest)?;
        Ok(())
    }

    /// A copy of a term is thrown, or an error in the context of a predicate where it has more than 4,096 cells.
    pub fn throw_copy(&mut self, at: Ref, context: &PredName, rest: u32) -> Result<(), AllocError>
        requires holds { Holds self.old }
        requires at { at.at < length self.old.heap.terms }
        requires rest { rest < length self.old.goals }
        ensures moved { OnOk result ((code : Code) (level : ℕ) → shown code self.new ≡ moved code self.old rest level (throw_copy_row (instance_in (here_of self.old) at.at) (full_name context.now))) }
        ensures stands { OnOk result (Stands self.new) }
    {
        let _mark = self.heap.mark();
        match self.heap.export(at) {
            Ok(ball) => {
                self.throw(ball, rest)?;
                Ok(())
            }
            Err(ExportError::TooLarge) => {
                self.raise_too_large(context, rest)?;
                Ok(())
            }
            Err(ExportError::NoMemory) => Err(AllocError),
        }
    }

    /// A term that would be handed out has more than 4,096 cells.
    pub fn raise_too_large(&mut self, context: &PredName, rest: u32) -> Result<(), AllocError>
        requires holds { Holds self.old }
        requires rest { rest < length self.old.goals }
        ensures moved { OnOk result ((code : Code) (level : ℕ) → shown code self.new ≡ moved code self.old rest level (raise_row (resource_error (codes "term_size")) (full_name context.now))) }
        ensures stands { OnOk result (Stands self.new) }
    {
        let _mark = self.heap.mark();
        let kind = self.put_resource_error(b"term_size")?;
        self.raise(kind, context, rest)?;
        Ok(())
    }

    /// `resource_error(Resource)` as a term of the heap.
    pub fn put_resource_error(&mut self, resource: &[u8]) -> Result<Ref, AllocError>
        requires { Holds self.old }
        ensures place { IfOk result (λ r. r.at < length self.new.heap.terms) }
        ensures instance { IfOk result (λ r. instance_in (here_of self.new) r.at ≡ resource_error resource.now) }
        ensures gained { OnOk result (IsGained self.old self.new) }
    {
        let kind = resource_error_of(self.alloc, &mut self.heap, resource)?;
        Ok(kind)
    }
}

/// Puts the catch whose end an item is, if it is one, behind others.
fn push_catcher(catchers: &mut Catchers, item: &Item) -> Result<(), AllocError>
    ensures { (terms : List (List Cell)) (items : List tree.Item) → OnOk result (catchers.new ++ tree.catchers items ≡ catchers.old ++ tree.catchers (item_shown terms item.now ∷ items)) }
{
    match item {
        Item::Leave { catcher } => catchers.push(*catcher),
        Item::Goal { .. } => Ok(()),
        Item::CutNow { .. } => Ok(()),
        Item::Copy { .. } => Ok(()),
        Item::AskFrom { .. } => Ok(()),
        Item::Exit { .. } => Ok(()),
    }
}
