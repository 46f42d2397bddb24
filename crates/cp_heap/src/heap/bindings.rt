ghost use Rattle.std.specs.Prelude.{◌≡◌, ℕ, false, ◌+◌, ◌-◌, ◌<◌, ◌≤◌, [], ◌∷◌, ◌++◌, length, take, None, Some, OnOk, OnErr};
ghost use Rattle.cp_term.specs.Substitution.{apply};
ghost use Rattle.cp_heap.specs.State.{term, bindings, substitution, IsEnd, IsLive, AreBoundWithin, HaveVariablesBelow, state_at, Extends, instance_at, number_of};
ghost use Rattle.cp_heap.specs.Looks.{IsFree};
ghost use Rattle.cp_term.specs.Numbering.{occurs};
ghost use Rattle.cp_term.specs.declared.cell.Cell.TheVariants.{Var as VarCell};

use super::Heap;
use crate::bound::Bound;
use crate::mark::Mark;
use crate::reference::Ref;
use crate::word::Word;
use std::alloc::AllocError;

impl Heap {
    /// Binds an unbound variable to a term in which it does not occur. A variable is bound only to an older one.
    pub fn bind(&mut self, variable: Ref, to: Ref) -> Result<(), AllocError>
        requires free { IsFree self.old variable.at (number_of (term self.old variable.at)) }
        requires live { to.at < length self.old.terms }
        requires apart { occurs (number_of (term self.old variable.at)) (instance_at self.old to.at) ≡ false }
        requires older { (m : ℕ) → instance_at self.old to.at ≡ VarCell m ∷ [] → m < number_of (term self.old variable.at) }
        ensures bound { OnOk result (substitution self.new ≡ substitution self.old ++ (record { var = number_of (term self.old variable.at); term = instance_at self.old to.at }) ∷ []) }
        ensures pushed { OnOk result (IsEnd self.old to.at → self.new.trail ≡ self.old.trail ++ (record { variable = number_of (term self.old variable.at); at = to.at }) ∷ []) }
        ensures kept { OnOk result (self.new ≡ record self.old { trail = self.new.trail }) }
        ensures grown { OnOk result (Extends self.old self.new) }
        ensures err { OnErr result (self.new ≡ self.old) }
    {
        let end = self.end_of(to.at);
        match self.words[variable.at as usize] {
            Word::Variable(number) => {
                if self.trail.len() >= u32::MAX as usize {
                    return Err(AllocError);
                }
                self.trail.push(Bound {
                    variable: number,
                    at: end,
                })?;
                self.values[number as usize] = Some(end);
                Ok(())
            }
            _ => unreachable!(),
        }
    }

    /// Takes the heap back to a mark.
    pub fn undo_to(&mut self, mark: Mark)
        requires { IsLive mark self.old }
        ensures { self.new ≡ state_at mark self.old }
    {
        'back: while self.bindings_len() > mark.bindings {
            self.unbind();
        }
        self.cut(mark.terms, mark.variables);
    }

    /// Takes the heap back to a mark where memory was wanting.
    pub(super) fn keep_or_undo(
        &mut self,
        mark: Mark,
        put: Result<Ref, AllocError>,
    ) -> Result<Ref, AllocError>
        requires { IsLive mark self.old }
        ensures same { result ≡ put }
        ensures ok { OnOk result (self.new ≡ self.old) }
        ensures err { OnErr result (self.new ≡ state_at mark self.old) }
    {
        if put.is_err() {
            self.undo_to(mark);
        }
        put
    }

    /// The place at the end of a chain of bound variables.
    pub(super) fn end_of(&self, at: u32) -> u32
        requires { at < length self.now.terms }
        ensures live { result < length self.now.terms }
        ensures same { apply (substitution self.now) (term self.now result) ≡ apply (substitution self.now) (term self.now at) }
        ensures end { IsEnd self.now result }
        ensures stays { IsEnd self.now at → result ≡ at }
    {
        let mut end = at;
        loop {
            match self.words[end as usize] {
                Word::Variable(variable) => match self.values[variable as usize] {
                    Some(to) => end = to,
                    None => return end,
                },
                _ => return end,
            }
        }
    }

    /// Takes back the last binding.
    pub(super) fn unbind(&mut self)
        requires { 0 < length self.old.trail }
        ensures { self.new ≡ record self.old { trail = take (length self.old.trail - 1) self.old.trail } }
    {
        if let Some(bound) = self.trail.pop() {
            self.values[bound.variable as usize] = None;
        }
    }

    /// Keeps the first terms and variables alone.
    pub(super) fn cut(&mut self, terms: u32, variables: u32)
        requires terms { terms ≤ length self.old.terms }
        requires variables { variables ≤ self.old.variables }
        requires bound_within { AreBoundWithin variables terms self.old.trail }
        requires written_within { HaveVariablesBelow variables (take terms self.old.terms) }
        ensures { self.new ≡ record { terms = take terms self.old.terms; trail = self.old.trail; variables = variables; names = self.old.names } }
    {
        self.words.truncate(terms as usize);
        self.values.truncate(variables as usize);
    }
}
