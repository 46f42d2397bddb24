ghost use Rattle.std.specs.Prelude.{◌≡◌, ◌+◌, ◌<◌, [], ◌∷◌, ◌++◌, length, IfOk, OnOk, OnErr};
ghost use Rattle.std.specs.List.{flat_map};
ghost use Rattle.cp_term.specs.declared.cell.Cell.TheVariants.{Var as VarCell, Int as IntCell, Atom as AtomCell, Func as FuncCell};
ghost use Rattle.cp_heap.specs.State.{term, substitution, Extends, AreRefs, terms_at};

use super::Heap;
use crate::reference::{Ref, Refs};
use crate::word::Word;
use cp_term::Name;
use std::alloc::AllocError;

impl Heap {
    /// Makes an integer.
    pub fn integer(&mut self, integer: i64) -> Result<Ref, AllocError>
        ensures live { IfOk result (λ r. r.at < length self.new.terms) }
        ensures term { IfOk result (λ r. term self.new r.at ≡ IntCell integer ∷ []) }
        ensures bindings { substitution self.new ≡ substitution self.old }
        ensures extends { Extends self.old self.new }
        ensures trail { self.new.trail ≡ self.old.trail }
        ensures variables { self.new.variables ≡ self.old.variables }
        ensures err { OnErr result (self.new ≡ self.old) }
    {
        let _mark = self.mark();
        self.push(Word::Integer(integer))
    }

    /// Makes an atom.
    pub fn atom(&mut self, name: &Name) -> Result<Ref, AllocError>
        ensures live { IfOk result (λ r. r.at < length self.new.terms) }
        ensures term { IfOk result (λ r. term self.new r.at ≡ AtomCell name.now ∷ []) }
        ensures bindings { substitution self.new ≡ substitution self.old }
        ensures extends { Extends self.old self.new }
        ensures trail { self.new.trail ≡ self.old.trail }
        ensures variables { self.new.variables ≡ self.old.variables }
        ensures err { OnErr result (self.new ≡ record self.old { names = self.new.names }) }
    {
        let _mark = self.mark();
        let place = self.place_of_name(name)?;
        self.push(Word::Atom(place))
    }

    /// Makes a new variable, with the next number.
    pub fn variable(&mut self) -> Result<Ref, AllocError>
        ensures live { IfOk result (λ r. r.at < length self.new.terms) }
        ensures term { IfOk result (λ r. term self.new r.at ≡ VarCell self.old.variables ∷ []) }
        ensures variables { OnOk result (self.new.variables ≡ self.old.variables + 1) }
        ensures bindings { substitution self.new ≡ substitution self.old }
        ensures extends { Extends self.old self.new }
        ensures trail { self.new.trail ≡ self.old.trail }
        ensures err { OnErr result (self.new ≡ self.old) }
    {
        let mark = self.mark();
        let variable = self.add_variable()?;
        let put = self.push(Word::Variable(variable));
        self.keep_or_undo(mark, put)
    }

    /// Makes a compound of 1 to 255 arguments. They stay the terms that they are: nothing of them is copied.
    pub fn compound(&mut self, name: &Name, arguments: &Refs) -> Result<Ref, AllocError>
        requires some { 0 < length arguments.now }
        requires few { length arguments.now < 256 }
        requires live { AreRefs self.old arguments.now }
        ensures live { IfOk result (λ r. r.at < length self.new.terms) }
        ensures term { IfOk result (λ r. term self.new r.at ≡ FuncCell name.now (length arguments.now) ∷ flat_map (λ t. t) (terms_at self.old arguments.now)) }
        ensures bindings { substitution self.new ≡ substitution self.old }
        ensures extends { Extends self.old self.new }
        ensures trail { self.new.trail ≡ self.old.trail }
        ensures variables { self.new.variables ≡ self.old.variables }
        ensures err { OnErr result (self.new ≡ record self.old { names = self.new.names }) }
    {
        let mark = self.mark();
        let put = self.put_compound(name, arguments);
        self.keep_or_undo(mark, put)
    }

    /// Puts a compound behind what stands at the places of its arguments.
    fn put_compound(&mut self, name: &Name, arguments: &Refs) -> Result<Ref, AllocError>
        requires some { 0 < length arguments.now }
        requires few { length arguments.now < 256 }
        requires live { AreRefs self.old arguments.now }
        ensures live { IfOk result (λ r. r.at < length self.new.terms) }
        ensures term { IfOk result (λ r. term self.new r.at ≡ FuncCell name.now (length arguments.now) ∷ flat_map (λ t. t) (terms_at self.old arguments.now)) }
        ensures extends { Extends self.old self.new }
        ensures trail { self.new.trail ≡ self.old.trail }
        ensures variables { self.new.variables ≡ self.old.variables }
    {
        let arity = arguments.len() as u16;
        let first = self.put_side_by_side(arguments.as_slice())?;
        let place = self.place_of_name(name)?;
        let at = self.push(Word::Compound(arity, place, first))?;
        Ok(at)
    }

    /// Puts what stands at these places side by side, and gives the first place.
    fn put_side_by_side(&mut self, places: &[Ref]) -> Result<u32, AllocError>
        requires { AreRefs self.old places.now }
        ensures first { IfOk result (λ first. first ≡ length self.old.terms) }
        ensures state { OnOk result (self.new ≡ record self.old { terms = self.old.terms ++ terms_at self.old places.now }) }
        ensures extends { Extends self.old self.new }
        ensures trail { self.new.trail ≡ self.old.trail }
        ensures variables { self.new.variables ≡ self.old.variables }
    {
        let first = self.len();
        'places: for place in places {
            let word = self.word(*place);
            self.push(word)?;
        }
        Ok(first)
    }
}
