ghost use Rattle.std.specs.Prelude.{◌≡◌, IfOk};
ghost use Rattle.std.specs.Option.{option_or};
ghost use Rattle.cp_declaration.specs.Lists.{names, one_name};
ghost use Rattle.cp_declaration.specs.Declarations.{op};

use crate::declaration::Declaration;
use crate::names::{Names, names, one_name};
use cp_term::Cell;
use std::alloc::{AllocError, Global};

/// `op(P, K, Names)`.
pub(crate) fn op(
    alloc: Global,
    priority: &[Cell],
    kind: &[Cell],
    cells: &[Cell],
) -> Result<Option<Declaration>, AllocError>
    ensures { IfOk result (λ said. said ≡ op priority.now kind.now cells.now) }
{
    match (priority, kind) {
        ([Cell::Int(priority)], [Cell::Atom(kind)]) => match some_names(alloc, cells)? {
            Some(names) => Ok(Some(Declaration::Operators {
                priority: *priority,
                kind: kind.clone()?,
                names,
            })),
            None => Ok(None),
        },
        _ => Ok(None),
    }
}

/// The names of a list of atoms, or of an atom.
fn some_names(alloc: Global, cells: &[Cell]) -> Result<Option<Names>, AllocError>
    ensures { IfOk result (λ found. found ≡ option_or (names cells.now) (one_name cells.now)) }
{
    match names(alloc, cells)? {
        Some(names) => Ok(Some(names)),
        None => one_name(alloc, cells),
    }
}
