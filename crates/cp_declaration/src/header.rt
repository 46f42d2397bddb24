ghost use Rattle.std.specs.Prelude.{◌≡◌, Some, IfOk};
ghost use Rattle.cp_declaration.specs.Declarations.{module_name, is_variable, exports, header};

use crate::declaration::Declaration;
use crate::indicator::{Indicators, indicators};
use cp_term::{Cell, Name};
use std::alloc::{AllocError, Global};

/// `module(Name, Exports)`.
pub(crate) fn header(
    alloc: Global,
    name: &[Cell],
    preds: &[Cell],
) -> Result<Option<Declaration>, AllocError>
    ensures { IfOk result (λ said. said ≡ header (module_name name.now) (exports preds.now)) }
{
    match module_name(name)? {
        Some(name) => of_module(alloc, name, preds),
        None => Ok(None),
    }
}

fn of_module(
    alloc: Global,
    name: Option<Name>,
    preds: &[Cell],
) -> Result<Option<Declaration>, AllocError>
    ensures { IfOk result (λ said. said ≡ header (Some name) (exports preds.now)) }
{
    match exports(alloc, preds)? {
        Some(exports) => Ok(Some(Declaration::Module { name, exports })),
        None => Ok(None),
    }
}

/// The module's name.
fn module_name(cells: &[Cell]) -> Result<Option<Option<Name>>, AllocError>
    ensures { IfOk result (λ name. name ≡ module_name cells.now) }
{
    match cells {
        [Cell::Atom(name)] => Ok(Some(Some(name.clone()?))),
        [Cell::Var(_)] => Ok(Some(None)),
        _ => Ok(None),
    }
}

/// The predicates that it exports.
fn exports(alloc: Global, cells: &[Cell]) -> Result<Option<Option<Indicators>>, AllocError>
    ensures { IfOk result (λ preds. preds ≡ exports cells.now) }
{
    if is_variable(cells) {
        return Ok(Some(None));
    }
    match indicators(alloc, cells)? {
        Some(preds) => Ok(Some(Some(preds))),
        None => Ok(None),
    }
}

fn is_variable(cells: &[Cell]) -> bool
    ensures { result ≡ is_variable cells.now }
{
    match cells {
        [Cell::Var(_)] => true,
        _ => false,
    }
}
