ghost use Rattle.std.specs.Prelude.{◌≡◌, true, ◌+◌, ◌<◌, length, IfOk, OnOk, OnErr};
ghost use Rattle.cp_term.specs.Preorder.{is_terms};
ghost use Rattle.cp_term.specs.Numbering.{fresh, canon, variables};
ghost use Rattle.cp_heap.specs.State.{term, instance_at, substitution, Extends};

use super::Heap;
use crate::reference::Ref;
use cp_term::Cells;
use std::alloc::AllocError;

impl Heap {
    /// Makes the term with all bindings and with new variables, which are numbered by first occurrence.
    pub fn copy(&mut self, at: Ref) -> Result<Ref, AllocError>
        requires { at.at < length self.old.terms }
        ensures live { IfOk result (λ r. r.at < length self.new.terms) }
        ensures term { IfOk result (λ r. term self.new r.at ≡ fresh self.old.variables (canon (instance_at self.old at.at))) }
        ensures variables { OnOk result (self.new.variables ≡ self.old.variables + length (variables (instance_at self.old at.at))) }
        ensures bindings { substitution self.new ≡ substitution self.old }
        ensures extends { Extends self.old self.new }
        ensures trail { self.new.trail ≡ self.old.trail }
        ensures err { OnErr result (self.new ≡ record self.old { names = self.new.names }) }
    {
        let cells = self.all_cells(at.at)?;
        self.import_cells(cells.as_slice())
    }

    /// The cells of a term with all bindings, its variables numbered by first occurrence, however many they are.
    pub(super) fn all_cells(&self, at: u32) -> Result<Cells, AllocError>
        requires { at < length self.now.terms }
        ensures cells { IfOk result (λ cells. cells ≡ canon (instance_at self.now at)) }
        ensures term { IfOk result (λ cells. is_terms 1 cells ≡ true) }
    {
        match self.exported(at, u32::MAX) {
            Ok(cells) => Ok(cells),
            Err(_) => Err(AllocError),
        }
    }
}
