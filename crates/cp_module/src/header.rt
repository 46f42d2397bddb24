ghost use Rattle.std.specs.Prelude.{◌≡◌, ◌&&◌, false, None, Some, length, IfOk};
ghost use Rattle.cp_declaration.specs.Declarations.{declaration};
ghost use Rattle.cp_module.specs.Causes.{is_header, header_cause, first_cause, exported_by};
ghost use Rattle.cp_module.specs.Headers.{names_module};

use crate::why::Why;
use cp_declaration::{Declaration, Indicators, declaration_of, is_declaration};
use cp_term::{Cell, Term};
use std::alloc::{AllocError, Global};

/// What is refused in the first clause of a file with this base name.
pub(crate) fn first_cause(
    alloc: Global,
    base: &[u8],
    clause: &Term,
) -> Result<Option<Why>, AllocError>
    ensures { IfOk result (λ cause. cause ≡ first_cause base.now clause.now) }
{
    if !is_header(clause) {
        return Ok(Some(Why::NoModuleHeader));
    }
    let said = declaration_of(alloc, clause)?;
    Ok(header_cause(base, &said))
}

/// What a header exports. None stands for every predicate that the module defines.
pub(crate) fn exported_by(alloc: Global, clause: &Term) -> Result<Option<Indicators>, AllocError>
    ensures { IfOk result (λ exports. exports ≡ exported_by (declaration clause.now)) }
{
    match declaration_of(alloc, clause)? {
        Some(Declaration::Module { name: _, exports }) => Ok(exports),
        _ => Ok(None),
    }
}

/// `:- module(M, E)` or `:- module(M, E, P)`, whatever its arguments are.
fn is_header(clause: &Term) -> bool
    ensures { result ≡ is_header clause.now }
{
    is_declaration(clause) && names_module(clause.cells())
}

fn names_module(cells: &[Cell]) -> bool
    ensures { result ≡ names_module cells.now }
{
    match cells {
        [_, Cell::Func(name, arity), ..] => {
            name.bytes() == b"module".as_slice() && (*arity == 2 || *arity == 3)
        }
        _ => false,
    }
}

/// A base name that is too long is no name of a module.
fn header_cause(base: &[u8], said: &Option<Declaration>) -> Option<Why>
    ensures { result ≡ header_cause base.now said.now }
{
    match said {
        Some(Declaration::Module { name, exports: _ }) => match name {
            Some(_) => None,
            None => {
                if base.len() > 1024 {
                    Some(Why::BadDeclaration)
                } else {
                    None
                }
            }
        },
        _ => Some(Why::BadDeclaration),
    }
}
