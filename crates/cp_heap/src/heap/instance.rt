ghost use Rattle.std.specs.Prelude.{◌≡◌, true, ◌+◌, ◌<◌, ◌≤◌, ◌++◌, length, IfOk, OnOk, OnErr};
ghost use Rattle.cp_term.specs.Preorder.{is_terms};
ghost use Rattle.cp_term.specs.Numbering.{canon, next_variable};
ghost use Rattle.cp_heap.specs.State.{term, instance_at, substitution, Extends};
ghost use Rattle.cp_heap.specs.Layout.{IsPlaced};
ghost use Rattle.cp_heap.specs.Walk.{waiting, AreLive, first_cell};

use super::Heap;
use super::walk::stack_of;
use crate::reference::Ref;
use crate::word::Word;
use cp_term::{Cell, Cells, Term};
use std::alloc::AllocError;

impl Heap {
    /// Makes the term with all bindings, over the same variables. What was put is taken back where memory is wanting.
    pub fn instance(&mut self, at: Ref) -> Result<Ref, AllocError>
        requires { at.at < length self.old.terms }
        ensures live { IfOk result (λ r. r.at < length self.new.terms) }
        ensures term { IfOk result (λ r. term self.new r.at ≡ instance_at self.old at.at) }
        ensures variables { self.new.variables ≡ self.old.variables }
        ensures bindings { substitution self.new ≡ substitution self.old }
        ensures extends { Extends self.old self.new }
        ensures trail { self.new.trail ≡ self.old.trail }
        ensures err { OnErr result (self.new ≡ record self.old { names = self.new.names }) }
    {
        let mark = self.mark();
        let cells = self.instance_cells(at.at)?;
        let put = self.put_same(cells.as_slice());
        self.keep_or_undo(mark, put)
    }

    /// Puts a term over the variables of the heap, as they are numbered.
    fn put_same(&mut self, cells: &[Cell]) -> Result<Ref, AllocError>
        requires term { is_terms 1 cells.now ≡ true }
        requires variables { next_variable cells.now ≤ self.old.variables }
        ensures live { IfOk result (λ r. r.at < length self.new.terms) }
        ensures term { IfOk result (λ r. term self.new r.at ≡ cells.now) }
        ensures extends { Extends self.old self.new }
        ensures trail { self.new.trail ≡ self.old.trail }
        ensures variables { self.new.variables ≡ self.old.variables }
    {
        let put = self.put_term(cells, 0)?;
        Ok(put)
    }

    /// The term with all bindings, its variables numbered 0, 1, 2, .. by first occurrence, whatever its size.
    pub fn whole(&self, at: Ref) -> Result<Term, AllocError>
        requires { at.at < length self.now.terms }
        ensures { IfOk result (λ t. t ≡ canon (instance_at self.now at.at)) }
    {
        let cells = self.all_cells(at.at)?;
        Ok(Term::known(cells))
    }

    /// The cells of a term with all bindings, over the variables of the heap.
    fn instance_cells(&self, at: u32) -> Result<Cells, AllocError>
        requires { at < length self.now.terms }
        ensures cells { IfOk result (λ cells. cells ≡ instance_at self.now at) }
        ensures term { IfOk result (λ cells. is_terms 1 cells ≡ true) }
    {
        let mut cells = Cells::new(self.alloc);
        let mut stack = stack_of(self.alloc, at)?;
        'out: loop {
            match stack.pop() {
                None => return Ok(cells),
                Some(next) => {
                    self.put_first(&mut cells, &mut stack, next)?;
                }
            }
        }
    }

    /// Puts the first cell of a term behind the cells, and the places of its arguments on the stack.
    fn put_first(&self, cells: &mut Cells, stack: &mut Vec<u32>, at: u32) -> Result<(), AllocError>
        requires live { at < length self.now.terms }
        requires waiting { AreLive self.now stack.old.items }
        ensures live { OnOk result (AreLive self.now stack.new.items) }
        ensures len { OnOk result (length cells.new ≡ length cells.old + 1) }
        ensures cells { OnOk result (cells.new ++ waiting self.now stack.new.items ≡ cells.old ++ (instance_at self.now at ++ waiting self.now stack.old.items)) }
    {
        let end = self.end(Ref { at });
        let word = self.word(end);
        cells.push(self.first_cell(word)?)?;
        self.push_arguments(stack, word)?;
        Ok(())
    }

    /// The first cell of what stands at a place.
    fn first_cell(&self, word: Word) -> Result<Cell, AllocError>
        requires { IsPlaced (length self.now.names) self.now.variables (length self.now.terms) word }
        ensures { IfOk result (λ cell. cell ≡ first_cell self.now.names word) }
    {
        match word {
            Word::Variable(variable) => Ok(Cell::Var(variable)),
            Word::Integer(integer) => Ok(Cell::Int(integer)),
            Word::Atom(name) => {
                let name = self.name_at(name).clone()?;
                Ok(Cell::Atom(name))
            }
            Word::Compound(arity, name, _) => {
                let name = self.name_at(name).clone()?;
                Ok(Cell::Func(name, arity))
            }
        }
    }
}
