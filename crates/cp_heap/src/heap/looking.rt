ghost use Rattle.std.specs.Prelude.{◌≡◌, true, ◌<◌, ◌≤◌, [], length, get_or, slice_get, None, Some, MatchOption};
ghost use Rattle.cp_heap.specs.State.{term, IsEnd, instance_at};
ghost use Rattle.cp_heap.specs.Looks.{Shows, name_of};
ghost use Rattle.cp_heap.specs.Layout.{word_term, IsPlaced};
ghost use Rattle.cp_term.specs.Preorder.{arguments, is_terms};
ghost use Rattle.std.specs.Option.{option_copied};

use super::Heap;
use crate::look::Look;
use crate::reference::Ref;
use crate::word::Word;
use cp_term::Name;

impl Heap {
    /// The same term, where it stands at the end of a chain of bound variables.
    pub fn end(&self, at: Ref) -> Ref
        requires { at.at < length self.now.terms }
        ensures live { result.at < length self.now.terms }
        ensures same { instance_at self.now result.at ≡ instance_at self.now at.at }
        ensures end { IsEnd self.now result.at }
    {
        Ref {
            at: self.end_of(at.at),
        }
    }

    /// What stands at a place, without the bindings.
    pub fn word(&self, at: Ref) -> Word
        requires { at.at < length self.now.terms }
        ensures term { term self.now at.at ≡ word_term self.now.names self.now.terms result }
        ensures placed { IsPlaced (length self.now.names) self.now.variables at.at result }
        ensures one_term { is_terms 1 (instance_at self.now at.at) ≡ true }
    {
        self.words[at.at as usize]
    }

    /// The name at a place of the table of names.
    pub fn name_at(&self, place: u32) -> &Name
        requires { place < length self.now.names }
        ensures { result.now ≡ get_or self.now.names place [] }
    {
        match self.names.get_index(place as usize) {
            Some(name) => name,
            None => unreachable!(),
        }
    }

    /// The first cell of the term. A variable is the oldest of those that are bound together.
    pub fn look(&self, at: Ref) -> Look
        requires { at.at < length self.now.terms }
        ensures first { Shows self.now (instance_at self.now at.at) result }
        ensures term { is_terms 1 (instance_at self.now at.at) ≡ true }
    {
        let end = self.end_of(at.at);
        match self.words[end as usize] {
            Word::Variable(variable) => Look::Var(Ref { at: end }, variable as u64),
            Word::Integer(integer) => Look::Int(integer),
            Word::Atom(_) => Look::Atom,
            Word::Compound(arity, _, _) => Look::Func(arity),
        }
    }

    /// The name of an atom or a compound.
    pub fn name(&self, at: Ref) -> Option<&Name>
        requires { at.at < length self.now.terms }
        ensures { option_copied result ≡ name_of (instance_at self.now at.at) }
    {
        let end = self.end_of(at.at);
        match self.words[end as usize] {
            Word::Atom(name) => self.names.get_index(name as usize),
            Word::Compound(_, name, _) => self.names.get_index(name as usize),
            _ => None,
        }
    }

    /// The argument with this number, from 0.
    pub fn argument(&self, at: Ref, index: u16) -> Option<Ref>
        requires { at.at < length self.now.terms }
        ensures { MatchOption result (length (arguments (instance_at self.now at.at)) ≤ index) (λ r. (r.at < length self.now.terms) × (slice_get (arguments (instance_at self.now at.at)) index ≡ Some (instance_at self.now r.at))) }
    {
        let end = self.end_of(at.at);
        match self.words[end as usize] {
            Word::Compound(arity, _, first) => {
                if index < arity {
                    Some(Ref {
                        at: first + index as u32,
                    })
                } else {
                    None
                }
            }
            _ => None,
        }
    }
}
