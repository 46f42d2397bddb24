ghost use Rattle.std.specs.Prelude.{◌≡◌, true, ◌+◌, ◌-◌, ◌<◌, ◌≤◌, ◌^◌, [], ◌∷◌, ◌++◌, length, take, get_or, None, Some, IfOk, OnOk, OnErr};
ghost use Rattle.cp_heap.specs.State.{term, substitution, Extends};
ghost use Rattle.cp_heap.specs.Stack.{AreReady, ArePut, FitsStack, IsOnStack};
ghost use Rattle.cp_heap.specs.Layout.{word_term, IsPlaced};
ghost use Rattle.cp_term.specs.Preorder.{arguments, is_terms};
ghost use Rattle.cp_term.specs.Numbering.{fresh, next_variable};

use super::Heap;
use crate::reference::Ref;
use crate::word::Word;
use cp_term::{Cell, Name, Term};
use std::alloc::AllocError;

impl Heap {
    /// Makes a term of the heap. Its variables are new ones.
    pub fn import(&mut self, term: &Term) -> Result<Ref, AllocError>
        ensures live { IfOk result (λ r. r.at < length self.new.terms) }
        ensures term { IfOk result (λ r. get_or self.new.terms r.at [] ≡ fresh self.old.variables term.now) }
        ensures variables { OnOk result (self.new.variables ≡ self.old.variables + next_variable term.now) }
        ensures bindings { substitution self.new ≡ substitution self.old }
        ensures extends { Extends self.old self.new }
        ensures trail { self.new.trail ≡ self.old.trail }
        ensures err { OnErr result (self.new ≡ record self.old { names = self.new.names }) }
    {
        self.import_cells(term.cells())
    }

    /// The same for the cells of a term. What was put is taken back where memory is wanting.
    pub(super) fn import_cells(&mut self, cells: &[Cell]) -> Result<Ref, AllocError>
        requires { is_terms 1 cells.now ≡ true }
        ensures live { IfOk result (λ r. r.at < length self.new.terms) }
        ensures term { IfOk result (λ r. term self.new r.at ≡ fresh self.old.variables cells.now) }
        ensures variables { OnOk result (self.new.variables ≡ self.old.variables + next_variable cells.now) }
        ensures bindings { substitution self.new ≡ substitution self.old }
        ensures extends { Extends self.old self.new }
        ensures trail { self.new.trail ≡ self.old.trail }
        ensures err { OnErr result (self.new ≡ record self.old { names = self.new.names }) }
    {
        let mark = self.mark();
        let put = self.put_apart(cells);
        self.keep_or_undo(mark, put)
    }

    /// Makes a term of the heap over variables that are there: the first is the one with the number `first`.
    pub fn import_over(&mut self, term: &Term, first: u32) -> Result<Ref, AllocError>
        requires { next_variable term.now + first ≤ self.old.variables }
        ensures live { IfOk result (λ r. r.at < length self.new.terms) }
        ensures term { IfOk result (λ r. get_or self.new.terms r.at [] ≡ fresh first term.now) }
        ensures variables { self.new.variables ≡ self.old.variables }
        ensures bindings { substitution self.new ≡ substitution self.old }
        ensures extends { Extends self.old self.new }
        ensures trail { self.new.trail ≡ self.old.trail }
        ensures err { OnErr result (self.new ≡ record self.old { names = self.new.names }) }
    {
        let mark = self.mark();
        let put = self.put_term(term.cells(), first);
        self.keep_or_undo(mark, put)
    }

    /// Puts a term whose variables are new ones.
    pub(super) fn put_apart(&mut self, cells: &[Cell]) -> Result<Ref, AllocError>
        requires { is_terms 1 cells.now ≡ true }
        ensures live { IfOk result (λ r. r.at < length self.new.terms) }
        ensures term { IfOk result (λ r. term self.new r.at ≡ fresh self.old.variables cells.now) }
        ensures variables { OnOk result (self.new.variables ≡ self.old.variables + next_variable cells.now) }
        ensures extends { Extends self.old self.new }
        ensures trail { self.new.trail ≡ self.old.trail }
    {
        let first = self.variables_len();
        self.add_variables(next_number(cells))?;
        self.put_term(cells, first)
    }

    /// So many variables more.
    pub(super) fn add_variables(&mut self, count: u64) -> Result<(), AllocError>
        ensures ok { OnOk result (self.new ≡ record self.old { variables = self.old.variables + count }) }
        ensures state { self.new ≡ record self.old { variables = self.new.variables } }
        ensures more { self.old.variables ≤ self.new.variables }
    {
        'more: for _ in 0..count {
            self.add_variable()?;
        }
        Ok(())
    }

    /// One variable more.
    pub(super) fn add_variable(&mut self) -> Result<u32, AllocError>
        ensures number { IfOk result (λ v. v ≡ self.old.variables) }
        ensures ok { OnOk result (self.new ≡ record self.old { variables = self.old.variables + 1 }) }
        ensures err { OnErr result (self.new ≡ self.old) }
    {
        if self.values.len() >= u32::MAX as usize {
            return Err(AllocError);
        }
        let variable = self.values.len() as u32;
        self.values.push(None)?;
        Ok(variable)
    }

    /// Puts a term whose variables are raised by `first`.
    pub(super) fn put_term(&mut self, cells: &[Cell], first: u32) -> Result<Ref, AllocError>
        requires term { is_terms 1 cells.now ≡ true }
        requires variables { next_variable cells.now + first ≤ self.old.variables }
        ensures live { IfOk result (λ r. r.at < length self.new.terms) }
        ensures term { IfOk result (λ r. term self.new r.at ≡ fresh first cells.now) }
        ensures extends { Extends self.old self.new }
        ensures trail { self.new.trail ≡ self.old.trail }
        ensures variables { self.new.variables ≡ self.old.variables }
    {
        let mut stack = Vec::new(self.alloc);
        let mut at = cells.len();
        'cells: while at > 0 {
            at -= 1;
            self.put_cell(&mut stack, first, &cells[at])?;
        }
        match stack.pop() {
            Some(word) => {
                let put = self.push(word)?;
                Ok(put)
            }
            None => unreachable!(),
        }
    }

    /// Takes the words of the arguments of a cell from the top of a stack, and puts the word of the cell there.
    pub(super) fn put_cell(
        &mut self,
        stack: &mut Vec<Word>,
        first: u32,
        cell: &Cell,
    ) -> Result<(), AllocError>
        requires ready { AreReady (length self.old.names) self.old.variables (length self.old.terms) stack.old.items }
        requires fits { FitsStack first self.old.variables (length stack.old.items) cell.now }
        ensures put { OnOk result (IsOnStack first self.old self.new stack.old.items stack.new.items cell.now) }
        ensures extends { Extends self.old self.new }
        ensures trail { self.new.trail ≡ self.old.trail }
        ensures variables { self.new.variables ≡ self.old.variables }
    {
        let _variables = self.variables_len();
        match cell {
            Cell::Var(variable) => {
                stack.push(Word::Variable(*variable + first))?;
                Ok(())
            }
            Cell::Int(integer) => {
                stack.push(Word::Integer(*integer))?;
                Ok(())
            }
            Cell::Atom(name) => {
                let place = self.place_of_name(name)?;
                stack.push(Word::Atom(place))?;
                Ok(())
            }
            Cell::Func(name, arity) => {
                let place = self.place_of_name(name)?;
                let arguments = self.put_words(stack, *arity)?;
                stack.push(Word::Compound(*arity, place, arguments))?;
                Ok(())
            }
        }
    }

    /// Puts the words at the top of a stack side by side, from the top, and gives the first place.
    pub(super) fn put_words(&mut self, stack: &mut Vec<Word>, count: u16) -> Result<u32, AllocError>
        requires ready { AreReady (length self.old.names) self.old.variables (length self.old.terms) stack.old.items }
        requires depth { count ≤ length stack.old.items }
        ensures first { IfOk result (λ first. first ≡ length self.old.terms) }
        ensures put { OnOk result (ArePut count self.old self.new stack.old.items stack.new.items) }
        ensures extends { Extends self.old self.new }
        ensures trail { self.new.trail ≡ self.old.trail }
        ensures variables { self.new.variables ≡ self.old.variables }
    {
        let first = self.len();
        'put: for _ in 0..count {
            match stack.pop() {
                Some(word) => {
                    self.push(word)?;
                }
                None => unreachable!(),
            }
        }
        Ok(first)
    }

    /// One term more.
    pub(super) fn push(&mut self, word: Word) -> Result<Ref, AllocError>
        requires { IsPlaced (length self.old.names) self.old.variables (length self.old.terms) word }
        ensures at { IfOk result (λ r. r.at ≡ length self.old.terms) }
        ensures ok { OnOk result (self.new ≡ record self.old { terms = self.old.terms ++ word_term self.old.names self.old.terms word ∷ [] }) }
        ensures err { OnErr result (self.new ≡ self.old) }
    {
        if self.words.len() >= u32::MAX as usize {
            return Err(AllocError);
        }
        let at = self.words.len() as u32;
        self.words.push(word)?;
        Ok(Ref { at })
    }

    /// The place of a name in the table, which gains it where it was not there.
    pub(super) fn place_of_name(&mut self, name: &Name) -> Result<u32, AllocError>
        ensures place { IfOk result (λ place. (place < length self.new.names) × (get_or self.new.names place [] ≡ name.now)) }
        ensures state { self.new ≡ record self.old { names = self.new.names } }
        ensures kept { take (length self.old.names) self.new.names ≡ self.old.names }
    {
        if let Some(place) = self.names.get_index_of(name) {
            return Ok(place as u32);
        }
        if self.names.len() >= u32::MAX as usize {
            return Err(AllocError);
        }
        self.add_name(name.clone()?)
    }

    /// Adds a name to the table.
    pub(super) fn add_name(&mut self, name: Name) -> Result<u32, AllocError>
        requires { length self.old.names < 2 ^ 32 - 1 }
        ensures place { IfOk result (λ place. (place < length self.new.names) × (get_or self.new.names place [] ≡ name)) }
        ensures state { self.new ≡ record self.old { names = self.new.names } }
        ensures kept { take (length self.old.names) self.new.names ≡ self.old.names }
    {
        match self.names.insert_full(name) {
            Ok((place, _)) => return Ok(place as u32),
            Err(_) => return Err(AllocError),
        }
    }
}

/// A number above those of all variables, and the least such.
fn next_number(cells: &[Cell]) -> u64
    ensures { result ≡ next_variable cells.now }
{
    let mut next = 0;
    'next: for cell in cells {
        if let Cell::Var(variable) = cell {
            next = next.max(*variable as u64 + 1);
        }
    }
    next
}
