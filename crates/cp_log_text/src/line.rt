ghost use Rattle.std.specs.Prelude.{◌≡◌, ◌+◌, max, [], ◌∷◌, ◌++◌, IfOk, OnOk};
ghost use Rattle.cp_term.specs.declared.cell.Cell.TheVariants.{Func};
ghost use Rattle.cp_term.specs.Numbering.{renamed, next_variable};
ghost use Rattle.cp_log_text.specs.Line.{atom, integer, number};
ghost use Rattle.cp_log_text.specs.Building.{Gains};

use cp_term::{Cell, Cells, Name, Term};
use std::alloc::{AllocError, Global};

/// A line of a log that is being built: the cells of its term so far, and the number of the next variable.
#[derive(Drop)]
pub(crate) struct Line {
    pub(crate) cells: Cells,
    pub(crate) next: u32,
}

impl Line {
    pub(crate) fn new(alloc: Global) -> Line
        ensures cells { result.cells ≡ [] }
        ensures next { result.next ≡ 0 }
    {
        Line {
            cells: Cells::new(alloc),
            next: 0,
        }
    }

    /// Adds a functor. Its arguments are what is added behind it.
    pub(crate) fn functor(&mut self, name: &[u8], arity: u16) -> Result<(), AllocError>
        ensures { OnOk result (Gains self.old self.new ((Func name.now arity ∷ []) ∷ [])) }
    {
        let name = name_of(self.cells.alloc(), name)?;
        self.cells.push(Cell::Func(name, arity))?;
        Ok(())
    }

    /// Adds an atom.
    pub(crate) fn word(&mut self, name: &[u8]) -> Result<(), AllocError>
        ensures { OnOk result (Gains self.old self.new (atom name.now ∷ [])) }
    {
        let name = name_of(self.cells.alloc(), name)?;
        self.cells.push(Cell::Atom(name))?;
        Ok(())
    }

    /// Adds an atom of this name.
    pub(crate) fn name(&mut self, name: &Name) -> Result<(), AllocError>
        ensures { OnOk result (Gains self.old self.new (atom name.now ∷ [])) }
    {
        self.cells.push(Cell::Atom(name.clone()?))?;
        Ok(())
    }

    /// Adds an integer.
    pub(crate) fn integer(&mut self, value: i64) -> Result<(), AllocError>
        ensures { OnOk result (Gains self.old self.new (integer value ∷ [])) }
    {
        self.cells.push(Cell::Int(value))?;
        Ok(())
    }

    /// Adds a number of an engine, an object or the like.
    pub(crate) fn number(&mut self, value: u32) -> Result<(), AllocError>
        ensures { OnOk result (Gains self.old self.new (number value ∷ [])) }
    {
        self.integer(i64::from(value))
    }

    /// Adds a term. Its variables get the next numbers.
    pub(crate) fn term(&mut self, term: &Term) -> Result<(), AllocError>
        ensures { OnOk result (Gains self.old self.new (term.now ∷ [])) }
    {
        self.shifted_cells(term.cells())?;
        Ok(())
    }

    /// Adds cells whose variables get the next numbers.
    fn shifted_cells(&mut self, cells: &[Cell]) -> Result<(), AllocError>
        ensures { OnOk result (Gains self.old self.new (cells.now ∷ [])) }
    {
        let shift = self.next;
        'cells: for cell in cells {
            self.shifted_cell(cell, shift)?;
        }
        Ok(())
    }

    /// Adds a cell with the number of its variable, if it is one, raised.
    fn shifted_cell(&mut self, cell: &Cell, shift: u32) -> Result<(), AllocError>
        ensures cells { OnOk result (self.new.cells ≡ self.old.cells ++ renamed (λ v. v + shift) cell.now ∷ []) }
        ensures next { OnOk result (self.new.next ≡ max self.old.next (next_variable (renamed (λ v. v + shift) cell.now ∷ []))) }
    {
        let cell = shifted(cell, shift)?;
        self.next = self.next.max(number_behind(&cell)?);
        self.cells.push(cell)?;
        Ok(())
    }
}

fn name_of(alloc: Global, text: &[u8]) -> Result<Name, AllocError>
    ensures { IfOk result (λ name. name ≡ text.now) }
{
    match Name::of(alloc, text) {
        Ok(name) => Ok(name),
        Err(_) => Err(AllocError),
    }
}

/// The cell with the number of its variable, if it is one, raised.
fn shifted(cell: &Cell, shift: u32) -> Result<Cell, AllocError>
    ensures { IfOk result (λ c. c ≡ renamed (λ v. v + shift) cell.now) }
{
    match cell {
        Cell::Var(variable) => match variable.checked_add(shift) {
            Some(variable) => Ok(Cell::Var(variable)),
            None => Err(AllocError),
        },
        Cell::Int(value) => Ok(Cell::Int(*value)),
        Cell::Atom(name) => Ok(Cell::Atom(name.clone()?)),
        Cell::Func(name, arity) => Ok(Cell::Func(name.clone()?, *arity)),
    }
}

/// The least number above that of the cell's variable, or 0 where it is none.
fn number_behind(cell: &Cell) -> Result<u32, AllocError>
    ensures { IfOk result (λ n. n ≡ next_variable (cell.now ∷ [])) }
{
    match cell {
        Cell::Var(variable) => match variable.checked_add(1) {
            Some(next) => Ok(next),
            None => Err(AllocError),
        },
        Cell::Int(_) | Cell::Atom(_) | Cell::Func(_, _) => Ok(0),
    }
}
