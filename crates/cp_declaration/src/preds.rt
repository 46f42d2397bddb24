ghost use Rattle.std.specs.Prelude.{◌≡◌, ◌∷◌, ◌<◌, ◌^◌, length, IfOk};
ghost use Rattle.cp_declaration.specs.Declarations.{shared, meta_predicate, regtype};

use crate::cells::is_comma;
use crate::declaration::Declaration;
use crate::indicator::{indicators, joined};
use crate::marks::marks_of;
use cp_term::Cell;
use std::alloc::{AllocError, Global};

/// `concurrent` and `data`, of which the first makes callers wait for facts.
pub(crate) fn shared(
    alloc: Global,
    suspends: bool,
    cells: &[Cell],
) -> Result<Option<Declaration>, AllocError>
    ensures { IfOk result (λ said. said ≡ shared suspends cells.now) }
{
    match indicators(alloc, cells)? {
        Some(preds) => Ok(Some(Declaration::Shared { suspends, preds })),
        None => match joined(alloc, cells)? {
            Some(preds) => Ok(Some(Declaration::Shared { suspends, preds })),
            None => Ok(None),
        },
    }
}

/// `meta_predicate p(A, ..)`.
pub(crate) fn meta_predicate(
    alloc: Global,
    cells: &[Cell],
) -> Result<Option<Declaration>, AllocError>
    requires { length cells.now < 2 ^ 32 }
    ensures { IfOk result (λ said. said ≡ meta_predicate cells.now) }
{
    match cells {
        [first, args @ ..] => marked(alloc, first, args),
        [] => Ok(None),
    }
}

fn marked(alloc: Global, first: &Cell, args: &[Cell]) -> Result<Option<Declaration>, AllocError>
    requires { length args.now < 2 ^ 32 }
    ensures { IfOk result (λ said. said ≡ meta_predicate (first.now ∷ args.now)) }
{
    if is_comma(first) {
        return Ok(None);
    }
    match first {
        Cell::Func(name, arity) => Ok(Some(Declaration::MetaPredicate {
            name: name.clone()?,
            marks: marks_of(alloc, *arity, args)?,
        })),
        Cell::Var(_) => Ok(None),
        Cell::Int(_) => Ok(None),
        Cell::Atom(_) => Ok(None),
    }
}

/// `regtype t(X)` and `regtype t/1`.
pub(crate) fn regtype(cells: &[Cell]) -> Result<Option<Declaration>, AllocError>
    ensures { IfOk result (λ said. said ≡ regtype cells.now) }
{
    match cells {
        [Cell::Func(name, 1), Cell::Var(_)] => Ok(Some(Declaration::RegType {
            name: name.clone()?,
        })),
        [Cell::Func(functor, 2), Cell::Atom(name), Cell::Int(1)] => {
            if functor.bytes() == b"/".as_slice() {
                Ok(Some(Declaration::RegType {
                    name: name.clone()?,
                }))
            } else {
                Ok(None)
            }
        }
        _ => Ok(None),
    }
}
