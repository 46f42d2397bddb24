ghost use Rattle.std.specs.Prelude.{◌≡◌, true, ◌+◌, ◌<◌, ◌≤◌, ◌^◌, [], ◌∷◌, ◌++◌, length, IfOk, OnOk, Err};
ghost use Rattle.cp_term.specs.declared.cell.Cell.TheVariants.{Var as VarCell};
ghost use Rattle.cp_term.specs.Preorder.{is_terms};
ghost use Rattle.cp_term.specs.Numbering.{renamed, place, seen_after, canon_from, canon};
ghost use Rattle.cp_heap.specs.State.{instance_at};
ghost use Rattle.cp_heap.specs.Layout.{IsPlaced};
ghost use Rattle.cp_heap.specs.Walk.{waiting, AreLive, places_from, first_cell, argument_places};

use super::Heap;
use super::walk::stack_of;
use crate::export_error::ExportError;
use crate::reference::Ref;
use crate::word::Word;
use cp_term::{Cell, Cells, Term};
use indexmap::IndexSet;
use std::alloc::AllocError;

impl Heap {
    /// The term with all bindings, its variables numbered 0, 1, 2, .. by first occurrence. A term of more than 4,096
    /// cells is too large.
    pub fn export(&self, at: Ref) -> Result<Term, ExportError>
        requires { at.at < length self.now.terms }
        ensures term { IfOk result (λ t. t ≡ canon (instance_at self.now at.at)) }
        ensures fits { OnOk result (length (instance_at self.now at.at) ≤ 4096) }
        ensures too_large { result ≡ Err ExportError.TooLarge → 4096 < length (instance_at self.now at.at) }
    {
        let cells = self.exported(at.at, 4096)?;
        Ok(Term::known(cells))
    }

    /// The cells of a term with all bindings, its variables numbered by first occurrence. More than `most` are too many.
    pub(super) fn exported(&self, at: u32, most: u32) -> Result<Cells, ExportError>
        requires { at < length self.now.terms }
        ensures cells { IfOk result (λ cells. cells ≡ canon (instance_at self.now at)) }
        ensures term { IfOk result (λ cells. is_terms 1 cells ≡ true) }
        ensures fits { OnOk result (length (instance_at self.now at) ≤ most) }
        ensures too_large { result ≡ Err ExportError.TooLarge → most < length (instance_at self.now at) }
    {
        let mut cells = Cells::new(self.alloc);
        let mut seen = IndexSet::new(self.alloc);
        let mut stack = stack_of(self.alloc, at)?;
        'out: loop {
            match stack.pop() {
                None => return Ok(cells),
                Some(next) => {
                    if cells.len() >= most {
                        return Err(ExportError::TooLarge);
                    }
                    self.put_out(&mut cells, &mut seen, &mut stack, next)?;
                }
            }
        }
    }

    /// Puts the first cell of a term behind the cells, and the places of its arguments on the stack.
    fn put_out(
        &self,
        cells: &mut Cells,
        seen: &mut IndexSet<u32>,
        stack: &mut Vec<u32>,
        at: u32,
    ) -> Result<(), AllocError>
        requires live { at < length self.now.terms }
        requires waiting { AreLive self.now stack.old.items }
        ensures live { OnOk result (AreLive self.now stack.new.items) }
        ensures len { OnOk result (length cells.new ≡ length cells.old + 1) }
        ensures cells { OnOk result (cells.new ++ canon_from seen.new.keys (waiting self.now stack.new.items) ≡ cells.old ++ canon_from seen.old.keys (instance_at self.now at ++ waiting self.now stack.old.items)) }
    {
        let end = self.end(Ref { at });
        let word = self.word(end);
        cells.push(self.cell_of(word, seen)?)?;
        self.push_arguments(stack, word)?;
        Ok(())
    }

    /// The first cell of what stands at a place. A variable has the number by which it was seen first.
    fn cell_of(&self, word: Word, seen: &mut IndexSet<u32>) -> Result<Cell, AllocError>
        requires { IsPlaced (length self.now.names) self.now.variables (length self.now.terms) word }
        ensures cell { IfOk result (λ cell. cell ≡ renamed (place seen.old.keys) (first_cell self.now.names word)) }
        ensures seen { OnOk result (seen.new.keys ≡ seen_after seen.old.keys (first_cell self.now.names word)) }
    {
        match word {
            Word::Variable(variable) => {
                let number = number_in(seen, variable)?;
                Ok(Cell::Var(number))
            }
            Word::Integer(integer) => Ok(Cell::Int(integer)),
            Word::Atom(name) => {
                let name = self.name_at(name).clone()?;
                Ok(Cell::Atom(name))
            }
            Word::Compound(arity, name, _) => {
                let name = self.name_at(name).clone()?;
                Ok(Cell::Func(name, arity))
            }
        }
    }
}

/// The number of a variable in order of first occurrence.
fn number_in(seen: &mut IndexSet<u32>, variable: u32) -> Result<u32, AllocError>
    ensures number { IfOk result (λ n. n ≡ place seen.old.keys variable) }
    ensures seen { OnOk result (seen.new.keys ≡ seen_after seen.old.keys (VarCell variable)) }
{
    match seen.insert_full(variable) {
        Ok((place, _)) => {
            if place > u32::MAX as usize {
                return Err(AllocError);
            }
            Ok(place as u32)
        }
        Err(_) => Err(AllocError),
    }
}
