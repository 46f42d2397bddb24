ghost use Rattle.std.specs.Prelude.{◌≡◌, ◌+◌, map, nat_lt, not, None, IfOk};
ghost use Rattle.std.specs.List.{list_any};
ghost use Rattle.std.specs.Option.{option_copied};
ghost use Rattle.cp_module.specs.Causes.{is_in, pred_of, unless};
ghost use Rattle.cp_module.specs.Paths.{imported_file};
ghost use Rattle.cp_link.specs.Imports.{file_named, is_imported};
ghost use Rattle.cp_link.specs.Exported.{shown, is_exported_in};
ghost use Rattle.cp_link.specs.Refusals.{is_module_of, is_taken, lacks, clash};
ghost use Rattle.cp_link.specs.Kept.{lacks_of, import_by, shared_by, declaration_by, is_unexported_by, is_imported_by, rule_by, clause_by};

use crate::clauses::{pred_of, said};
use crate::exported::{ModuleExports, is_exported};
use crate::import_list::ImportList;
use crate::imports::{imported_module, push_imports};
use crate::kept::Kept;
use crate::names::name_of;
use crate::pred_list::PredList;
use crate::spot::Written;
use crate::written::written_in;
use cp_code::PredNames;
use cp_declaration::{Declaration, Indicator, Indicators, is_declaration};
use cp_module::{ModulePart, Why};
use cp_read::ReadClause;
use cp_term::{Cell, Name, PredName};
use std::alloc::{AllocError, Global};

/// What is refused in a clause first.
pub(crate) fn clause_cause(
    alloc: Global,
    parts: &[ModulePart],
    before: &[ModulePart],
    file: &[u8],
    all: &[ModuleExports],
    kept: &Kept,
    clause: &ReadClause,
) -> Result<Option<Why>, AllocError>
    requires { all.now ≡ map shown parts.now }
    ensures { IfOk result (λ why. why ≡ clause_by parts.now before.now file.now all.now kept.now clause.now) }
{
    if is_declaration(&clause.term) {
        let declared = said(alloc, clause)?;
        declaration_cause(alloc, parts, before, file, all, kept, clause, &declared)
    } else {
        rule_cause(alloc, all, kept, clause)
    }
}

fn declaration_cause(
    alloc: Global,
    parts: &[ModulePart],
    before: &[ModulePart],
    file: &[u8],
    all: &[ModuleExports],
    kept: &Kept,
    clause: &ReadClause,
    declared: &Option<Declaration>,
) -> Result<Option<Why>, AllocError>
    requires { all.now ≡ map shown parts.now }
    ensures { IfOk result (λ why. why ≡ declaration_by parts.now before.now file.now kept.now clause.now declared.now) }
{
    match declared {
        Some(
            Declaration::Module {
                name: _,
                exports: _,
            },
        ) => header_cause(alloc, before, &kept.own),
        Some(
            Declaration::UseModule {
                file: name,
                imports,
            },
        ) => use_cause(alloc, parts, file, all, kept, clause, name, imports),
        Some(Declaration::UseActiveModule { name, preds: _ }) => {
            active_cause(alloc, parts, file, all, kept, clause, name)
        }
        Some(Declaration::Shared { suspends: _, preds }) => shared_cause(kept, preds),
        _ => Ok(None),
    }
}

fn header_cause(alloc: Global, before: &[ModulePart], own: &Name) -> Result<Option<Why>, AllocError>
    ensures { IfOk result (λ why. why ≡ unless (is_taken before.now own.now) Why.DuplicateModule None) }
{
    if is_taken(alloc, before, own)? {
        Ok(Some(Why::DuplicateModule))
    } else {
        Ok(None)
    }
}

fn use_cause(
    alloc: Global,
    parts: &[ModulePart],
    file: &[u8],
    all: &[ModuleExports],
    kept: &Kept,
    clause: &ReadClause,
    name: &Name,
    imports: &Option<Indicators>,
) -> Result<Option<Why>, AllocError>
    requires { all.now ≡ map shown parts.now }
    ensures { IfOk result (λ why. why ≡ unless (lacks (file_named parts.now (imported_file file.now name.now)) imports.now) Why.NotExported (import_by parts.now file.now kept.now clause.now)) }
{
    if lacks_named(alloc, parts, all, file, name, imports)? {
        Ok(Some(Why::NotExported))
    } else {
        import_cause(alloc, parts, file, all, kept, clause)
    }
}

fn active_cause(
    alloc: Global,
    parts: &[ModulePart],
    file: &[u8],
    all: &[ModuleExports],
    kept: &Kept,
    clause: &ReadClause,
    name: &Name,
) -> Result<Option<Why>, AllocError>
    requires { all.now ≡ map shown parts.now }
    ensures { IfOk result (λ why. why ≡ unless (is_taken parts.now name.now) Why.DuplicateModule (import_by parts.now file.now kept.now clause.now)) }
{
    if is_taken(alloc, parts, name)? {
        Ok(Some(Why::DuplicateModule))
    } else {
        import_cause(alloc, parts, file, all, kept, clause)
    }
}

/// A name that no other file of the program, and no active module that it uses, may have.
fn is_taken(alloc: Global, parts: &[ModulePart], name: &Name) -> Result<bool, AllocError>
    ensures { IfOk result (λ taken. taken ≡ is_taken parts.now name.now) }
{
    if name.bytes() == b"prelude".as_slice() {
        return Ok(true);
    }
    is_module_of(alloc, parts, name)
}

fn is_module_of(alloc: Global, parts: &[ModulePart], name: &Name) -> Result<bool, AllocError>
    ensures { IfOk result (λ found. found ≡ is_module_of parts.now name.now) }
{
    for part in parts {
        let own = name_of(alloc, part)?;
        if own.bytes() == name.bytes() {
            return Ok(true);
        }
    }
    Ok(false)
}

/// Whether a file imports from a module under a name that does not export all these.
fn lacks_named(
    alloc: Global,
    parts: &[ModulePart],
    all: &[ModuleExports],
    file: &[u8],
    name: &Name,
    imports: &Option<Indicators>,
) -> Result<bool, AllocError>
    requires { all.now ≡ map shown parts.now }
    ensures { IfOk result (λ found. found ≡ lacks (file_named parts.now (imported_file file.now name.now)) imports.now) }
{
    let of = imported_module(alloc, parts, all, file, name)?;
    let found = lacks(of, imports)?;
    Ok(found)
}

/// Whether a module is imported from that does not export all these.
fn lacks(of: Option<&ModuleExports>, imports: &Option<Indicators>) -> Result<bool, AllocError>
    ensures { IfOk result (λ lacks_one. lacks_one ≡ lacks_of (option_copied of.entry) imports.now) }
{
    let Some(of) = of else {
        return Ok(false);
    };
    match imports {
        Some(preds) => are_not_all_in(&of.exports, preds.as_slice()),
        None => Ok(false),
    }
}

fn are_not_all_in(exports: &PredList, preds: &[Indicator]) -> Result<bool, AllocError>
    ensures { IfOk result (λ found. found ≡ list_any (λ p. not (is_in exports.now p)) preds.now) }
{
    for pred in preds {
        if !exports.has(pred)? {
            return Ok(true);
        }
    }
    Ok(false)
}

fn import_cause(
    alloc: Global,
    parts: &[ModulePart],
    file: &[u8],
    all: &[ModuleExports],
    kept: &Kept,
    clause: &ReadClause,
) -> Result<Option<Why>, AllocError>
    requires { all.now ≡ map shown parts.now }
    ensures { IfOk result (λ why. why ≡ import_by parts.now file.now kept.now clause.now) }
{
    let mut imports = PredNames::new(alloc);
    push_imports(alloc, &mut imports, parts, all, file, clause)?;
    if clash(&kept.earlier, imports.as_slice())? {
        Ok(Some(Why::ImportClash))
    } else {
        Ok(None)
    }
}

/// Whether one of these imports has the name and arity of an earlier one from another module.
fn clash(earlier: &ImportList, imports: &[PredName]) -> Result<bool, AllocError>
    ensures { IfOk result (λ found. found ≡ clash earlier.now imports.now) }
{
    for import in imports {
        if earlier.clashes(import)? {
            return Ok(true);
        }
    }
    Ok(false)
}

/// A program has at most 32 shared predicates, and none of them is imported.
fn shared_cause(kept: &Kept, preds: &Indicators) -> Result<Option<Why>, AllocError>
    ensures { IfOk result (λ why. why ≡ shared_by kept.now preds.now) }
{
    if are_too_many(kept.shared, preds.len()) {
        Ok(Some(Why::TooManyShared))
    } else if are_imported(&kept.imported, preds.as_slice())? {
        Ok(Some(Why::ClauseOfImported))
    } else {
        Ok(None)
    }
}

fn are_too_many(shared: u64, more: u32) -> bool
    ensures { result ≡ nat_lt 32 (shared + more) }
{
    shared > 32 || shared + u64::from(more) > 32
}

fn are_imported(imports: &ImportList, preds: &[Indicator]) -> Result<bool, AllocError>
    ensures { IfOk result (λ found. found ≡ list_any (is_imported imports.now) preds.now) }
{
    for pred in preds {
        if imports.has(pred)? {
            return Ok(true);
        }
    }
    Ok(false)
}

/// A program has at most 65,536 clauses.
fn rule_cause(
    alloc: Global,
    all: &[ModuleExports],
    kept: &Kept,
    clause: &ReadClause,
) -> Result<Option<Why>, AllocError>
    ensures { IfOk result (λ why. why ≡ rule_by all.now kept.now clause.now) }
{
    if kept.rules >= 65536 {
        return Ok(Some(Why::TooManyClauses));
    }
    if is_unexported(alloc, all, kept, clause.term.cells())? {
        return Ok(Some(Why::NotExported));
    }
    head_cause(kept, clause)
}

fn head_cause(kept: &Kept, clause: &ReadClause) -> Result<Option<Why>, AllocError>
    ensures { IfOk result (λ why. why ≡ unless (is_imported_by kept.now (pred_of clause.now)) Why.ClauseOfImported None) }
{
    let head = pred_of(clause)?;
    if is_imported_head(kept, &head)? {
        Ok(Some(Why::ClauseOfImported))
    } else {
        Ok(None)
    }
}

fn is_imported_head(kept: &Kept, head: &Option<Indicator>) -> Result<bool, AllocError>
    ensures { IfOk result (λ found. found ≡ is_imported_by kept.now head.now) }
{
    match head {
        Some(pred) => kept.imported.has(pred),
        None => Ok(false),
    }
}

/// Whether a goal of a body is written with a module that does not export it.
fn is_unexported(
    alloc: Global,
    all: &[ModuleExports],
    kept: &Kept,
    cells: &[Cell],
) -> Result<bool, AllocError>
    ensures { IfOk result (λ found. found ≡ is_unexported_by all.now kept.now cells.now) }
{
    let found = written_in(alloc, &kept.own, cells)?;
    are_unexported(all, kept.active.as_slice(), found.as_slice())
}

fn are_unexported(
    all: &[ModuleExports],
    active: &[PredName],
    goals: &[Written],
) -> Result<bool, AllocError>
    ensures { IfOk result (λ found. found ≡ list_any (λ g. not (is_exported_in all.now active.now g)) goals.now) }
{
    for goal in goals {
        if !is_exported(all, active, goal)? {
            return Ok(true);
        }
    }
    Ok(false)
}
