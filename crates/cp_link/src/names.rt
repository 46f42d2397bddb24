ghost use Rattle.std.specs.Prelude.{◌≡◌, IfOk};
ghost use Rattle.cp_declaration.specs.Declarations.{declaration};
ghost use Rattle.cp_module.specs.Causes.{named_by};
ghost use Rattle.cp_link.specs.Modules.{name_of, in_module};

use cp_declaration::{Declaration, Indicator, declaration_of};
use cp_module::{ModulePart, base_of};
use cp_read::ReadClause;
use cp_term::{Name, PredName};
use std::alloc::{AllocError, Global};

pub(crate) fn copy_of(pred: &Indicator) -> Result<Indicator, AllocError>
    ensures { IfOk result (λ copy. copy ≡ pred.now) }
{
    Ok(Indicator {
        name: pred.name.clone()?,
        arity: pred.arity,
    })
}

/// A predicate of a module.
pub fn in_module(module_name: &Name, pred: &Indicator) -> Result<PredName, AllocError>
    ensures { IfOk result (λ name. name ≡ in_module module_name.now pred.now) }
{
    Ok(PredName {
        module: module_name.clone()?,
        name: pred.name.clone()?,
        arity: pred.arity,
    })
}

/// The name of a file's module: that of the header, or else the base name of the file.
pub fn name_of(alloc: Global, part: &ModulePart) -> Result<Name, AllocError>
    ensures { IfOk result (λ name. name ≡ name_of part.now) }
{
    let base = base_of(part.file());
    match part.clauses().as_slice() {
        [header, ..] => named_by(alloc, base, header),
        [] => named(alloc, base),
    }
}

fn named_by(alloc: Global, base: &[u8], header: &ReadClause) -> Result<Name, AllocError>
    ensures { IfOk result (λ name. name ≡ named_by base.now (declaration header.now.term)) }
{
    match declaration_of(alloc, &header.term)? {
        Some(
            Declaration::Module {
                name,
                exports: _exports,
            },
        ) => match name {
            Some(name) => Ok(name),
            None => named(alloc, base),
        },
        _ => named(alloc, base),
    }
}

fn named(alloc: Global, text: &[u8]) -> Result<Name, AllocError>
    ensures { IfOk result (λ name. name ≡ text.now) }
{
    match Name::of(alloc, text) {
        Ok(name) => Ok(name),
        Err(_) => Err(AllocError),
    }
}
