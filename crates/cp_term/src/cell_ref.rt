ghost use Rattle.std.specs.Prelude.{◌≡◌, ◌<◌, ◌^◌, ◌++◌, IfSome, OnOk};
ghost use Rattle.cp_term.specs.CellEq.{cell_eq};
ghost use Rattle.cp_term.specs.CellRefs.{variable_of, cell_at, cells_at};
ghost use Rattle.cp_term.specs.Preorder.{arity_of};
ghost use Rattle.cp_term.specs.Numbering.{fresh, next_variable};

use crate::cell::Cell;
use cp_list::ListOf;
use std::alloc::AllocError;

/// A cell that is read where it lies. Its variable's number is raised by `shift`.
#[derive(Clone, Copy, Drop)]
pub struct CellRef<'a> {
    pub cell: &'a Cell,
    pub shift: u32,
}

pub type CellRefs<'a> = ListOf<CellRef<'a>>;

impl CellRef<'_> {
    /// The number of the variable, if it is one.
    pub fn variable(self) -> Option<u64>
        ensures value { result ≡ variable_of (cell_at self.entry) }
        ensures bound { IfSome result (λ v. v < 2 ^ 33) }
    {
        match self.cell {
            Cell::Var(variable) => Some(*variable as u64 + self.shift as u64),
            Cell::Int(_) | Cell::Atom(_) | Cell::Func(_, _) => None,
        }
    }

    pub fn arity(self) -> u16
        ensures { result ≡ arity_of (cell_at self.entry) }
    {
        self.cell.arity()
    }

    pub fn is_same(self, other: CellRef<'_>) -> bool
        ensures { result ≡ cell_eq (cell_at self.entry) (cell_at other.entry) }
    {
        match (self.variable(), other.variable()) {
            (Some(u), Some(v)) => u == v,
            (None, None) => self.cell == other.cell,
            _ => false,
        }
    }
}

/// Adds references to the cells at the end.
pub fn push_refs<'a>(
    refs: &mut CellRefs<'a>,
    cells: &'a [Cell],
    shift: u32,
) -> Result<(), AllocError>
    ensures { OnOk result (cells_at refs.new ≡ cells_at refs.old ++ fresh shift cells.now) }
{
    for cell in cells {
        refs.push(CellRef { cell, shift })?;
    }
    Ok(())
}

/// A number above those of all variables, and the least such.
pub fn next_number(refs: &[CellRef<'_>]) -> u64
    ensures value { result ≡ next_variable (cells_at refs.now) }
    ensures bound { result < 2 ^ 34 }
{
    let mut next = 0;
    for cell in refs {
        if let Some(variable) = cell.variable() {
            next = next.max(variable + 1);
        }
    }
    next
}
