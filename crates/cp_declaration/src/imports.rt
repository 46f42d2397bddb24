ghost use Rattle.std.specs.Prelude.{◌≡◌, IfOk};
ghost use Rattle.cp_declaration.specs.Lists.{indicators};
ghost use Rattle.cp_declaration.specs.Declarations.{use_module, use_of, use_active_module, use_package};

use crate::declaration::Declaration;
use crate::indicator::indicators;
use crate::names::{are_packages, is_one_package};
use crate::words::is_library;
use cp_term::Cell;
use std::alloc::{AllocError, Global};

/// `use_module(F)`.
pub(crate) fn use_module(cells: &[Cell]) -> Result<Option<Declaration>, AllocError>
    ensures { IfOk result (λ said. said ≡ use_module cells.now) }
{
    match cells {
        [Cell::Atom(file)] => Ok(Some(Declaration::UseModule {
            file: file.clone()?,
            imports: None,
        })),
        [Cell::Func(functor, 1), Cell::Atom(library)] => {
            if functor.bytes() == b"library".as_slice() && is_library(library.bytes()) {
                Ok(Some(Declaration::Nothing))
            } else {
                Ok(None)
            }
        }
        _ => Ok(None),
    }
}

/// `use_module(F, [p/n, ..])`.
pub(crate) fn use_of(
    alloc: Global,
    file: &[Cell],
    preds: &[Cell],
) -> Result<Option<Declaration>, AllocError>
    ensures { IfOk result (λ said. said ≡ use_of file.now (indicators preds.now)) }
{
    match file {
        [Cell::Atom(file)] => match indicators(alloc, preds)? {
            Some(preds) => Ok(Some(Declaration::UseModule {
                file: file.clone()?,
                imports: Some(preds),
            })),
            None => Ok(None),
        },
        _ => Ok(None),
    }
}

/// `use_active_module(M, [p/n, ..])`.
pub(crate) fn use_active_module(
    alloc: Global,
    name: &[Cell],
    preds: &[Cell],
) -> Result<Option<Declaration>, AllocError>
    ensures { IfOk result (λ said. said ≡ use_active_module name.now (indicators preds.now)) }
{
    match name {
        [Cell::Atom(name)] => match indicators(alloc, preds)? {
            Some(preds) => Ok(Some(Declaration::UseActiveModule {
                name: name.clone()?,
                preds,
            })),
            None => Ok(None),
        },
        _ => Ok(None),
    }
}

/// `use_package(P)`.
pub(crate) fn use_package(cells: &[Cell]) -> Option<Declaration>
    ensures { result ≡ use_package cells.now }
{
    if is_one_package(cells) || are_packages(cells) {
        Some(Declaration::Nothing)
    } else {
        None
    }
}
