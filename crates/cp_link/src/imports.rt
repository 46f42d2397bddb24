ghost use Rattle.std.specs.Prelude.{◌≡◌, ◌++◌, map, position, slice_get, IfOk, OnOk};
ghost use Rattle.std.specs.Str.{bytes_eq};
ghost use Rattle.std.specs.Option.{option_copied, option_map};
ghost use Rattle.cp_module.specs.Parts.{Part};
ghost use Rattle.cp_module.specs.Paths.{imported_file};
ghost use Rattle.cp_link.specs.Modules.{in_module, said};
ghost use Rattle.cp_link.specs.Exported.{shown};
ghost use Rattle.cp_link.specs.Imports.{file_named, from_part, imports_by, imports_in, active_by, active_in};
ghost use Rattle.cp_link.specs.Kept.{from_module};

use crate::clauses::said;
use crate::exported::ModuleExports;
use crate::names::in_module;
use cp_code::PredNames;
use cp_declaration::{Declaration, Indicator, Indicators};
use cp_module::{ModulePart, imported_file};
use cp_read::ReadClause;
use cp_term::{Name, PredName};
use std::alloc::{AllocError, Global};

/// The place of the file with this name among the files of a program.
fn place_of_file(parts: &[ModulePart], file: &[u8]) -> Option<usize>
    ensures { result ≡ position (λ (p : Part). bytes_eq p.file file.now) parts.now }
{
    parts.iter().position(|part| part.file() == file)
}

fn module_at(modules: &[ModuleExports], at: usize) -> Option<&ModuleExports>
    ensures { option_copied result ≡ slice_get modules.now at }
{
    modules.get(at)
}

/// The module of the file with this name among the files of a program.
fn module_of_file<'a>(
    parts: &[ModulePart],
    modules: &'a [ModuleExports],
    file: &[u8],
) -> Option<&'a ModuleExports>
    requires { modules.now ≡ map shown parts.now }
    ensures { option_copied result ≡ option_map shown (file_named parts.now file.now) }
{
    match place_of_file(parts, file) {
        Some(at) => module_at(modules, at),
        None => None,
    }
}

/// The module that a file at this path imports under a name, among those of the files of a program.
pub(crate) fn imported_module<'a>(
    alloc: Global,
    parts: &[ModulePart],
    modules: &'a [ModuleExports],
    file: &[u8],
    name: &Name,
) -> Result<Option<&'a ModuleExports>, AllocError>
    requires { modules.now ≡ map shown parts.now }
    ensures { IfOk result (λ of. option_copied of ≡ option_map shown (file_named parts.now (imported_file file.now name.now))) }
{
    let path = imported_file(alloc, file, name.bytes())?;
    Ok(module_of_file(parts, modules, path.as_slice()))
}

/// Adds what a clause of a file imports.
pub(crate) fn push_imports(
    alloc: Global,
    all: &mut PredNames,
    parts: &[ModulePart],
    modules: &[ModuleExports],
    file: &[u8],
    clause: &ReadClause,
) -> Result<(), AllocError>
    requires { modules.now ≡ map shown parts.now }
    ensures { OnOk result (all.new ≡ all.old ++ imports_by parts.now file.now clause.now) }
{
    match said(alloc, clause)? {
        Some(
            Declaration::UseModule {
                file: name,
                imports,
            },
        ) => { push_used(alloc, all, parts, modules, file, &name, imports) }
        Some(Declaration::UseActiveModule { name, preds }) => {
            push_named(all, &name, preds.as_slice())
        }
        _ => Ok(()),
    }
}

/// Adds what a file imports from a module under a name: what is named, or else all that it exports.
fn push_used(
    alloc: Global,
    all: &mut PredNames,
    parts: &[ModulePart],
    modules: &[ModuleExports],
    file: &[u8],
    name: &Name,
    imports: Option<Indicators>,
) -> Result<(), AllocError>
    requires { modules.now ≡ map shown parts.now }
    ensures { OnOk result (all.new ≡ all.old ++ from_part imports (file_named parts.now (imported_file file.now name.now))) }
{
    let of = imported_module(alloc, parts, modules, file, name)?;
    push_from(all, imports, of)?;
    Ok(())
}

/// Adds what is imported from a module: what is named, or else all that it exports.
fn push_from(
    all: &mut PredNames,
    imports: Option<Indicators>,
    of: Option<&ModuleExports>,
) -> Result<(), AllocError>
    ensures { OnOk result (all.new ≡ all.old ++ from_module imports (option_copied of.entry)) }
{
    let Some(of) = of else {
        return Ok(());
    };
    match imports {
        Some(preds) => push_named(all, &of.module_name, preds.as_slice()),
        None => push_named(all, &of.module_name, of.exports.as_slice()),
    }
}

/// Adds these predicates of a module.
pub fn push_named(
    all: &mut PredNames,
    module_name: &Name,
    preds: &[Indicator],
) -> Result<(), AllocError>
    ensures { OnOk result (all.new ≡ all.old ++ map (in_module module_name.now) preds.now) }
{
    for pred in preds {
        all.push(in_module(module_name, pred)?)?;
    }
    Ok(())
}

/// What clauses of a file import, in their order, where these are the modules of the files of the program.
pub fn imports_in(
    alloc: Global,
    parts: &[ModulePart],
    modules: &[ModuleExports],
    file: &[u8],
    clauses: &[ReadClause],
) -> Result<PredNames, AllocError>
    requires { modules.now ≡ map shown parts.now }
    ensures { IfOk result (λ preds. preds ≡ imports_in parts.now file.now clauses.now) }
{
    let mut all = PredNames::new(alloc);
    for clause in clauses {
        push_imports(alloc, &mut all, parts, modules, file, clause)?;
    }
    Ok(all)
}

/// The predicates of active modules that clauses of a file use, in their order.
pub fn active_in(alloc: Global, clauses: &[ReadClause]) -> Result<PredNames, AllocError>
    ensures { IfOk result (λ preds. preds ≡ active_in clauses.now) }
{
    let mut all = PredNames::new(alloc);
    for clause in clauses {
        push_active(alloc, &mut all, clause)?;
    }
    Ok(all)
}

pub(crate) fn push_active(
    alloc: Global,
    all: &mut PredNames,
    clause: &ReadClause,
) -> Result<(), AllocError>
    ensures { OnOk result (all.new ≡ all.old ++ active_by (said clause.now)) }
{
    match said(alloc, clause)? {
        Some(Declaration::UseActiveModule { name, preds }) => {
            push_named(all, &name, preds.as_slice())
        }
        _ => Ok(()),
    }
}
