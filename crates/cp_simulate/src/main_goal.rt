ghost use Rattle.std.specs.Prelude.{◌≡◌, IfOk};
ghost use Rattle.cp_call.specs.Setup.{main_of};

use cp_term::{Cell, Cells, Name, Term};
use std::alloc::{AllocError, Global};

fn main_cells(alloc: Global, module_name: &Name) -> Result<Cells, AllocError>
    ensures { IfOk result (λ cells. cells ≡ main_of module_name.now) }
{
    let mut cells = Cells::new(alloc);
    cells.push(Cell::Func(Name::known(alloc, b":")?, 2))?;
    cells.push(Cell::Atom(module_name.clone()?))?;
    cells.push(Cell::Atom(Name::known(alloc, b"main")?))?;
    Ok(cells)
}

/// The goal `M:main` of a module M.
pub(crate) fn main_goal(alloc: Global, module_name: &Name) -> Result<Term, AllocError>
    ensures { IfOk result (λ goal. goal ≡ main_of module_name.now) }
{
    let cells = main_cells(alloc, module_name)?;
    match Term::from_cells(cells) {
        Ok(goal) => Ok(goal),
        Err(_) => unreachable!(),
    }
}
