ghost use Rattle.std.specs.Prelude.{◌≡◌, ◌+◌, [], map, length, None, IfOk};
ghost use Rattle.std.specs.Option.{option_map};
ghost use Rattle.cp_declaration.specs.Declarations.{is_declaration};
ghost use Rattle.cp_module.specs.Causes.{cause_on, least};
ghost use Rattle.cp_module.specs.Least.{soonest};
ghost use Rattle.cp_link.specs.Exported.{shown};
ghost use Rattle.cp_link.specs.Refusals.{rules_of_parts, shared_of_parts, part_cause, or_later, refused};
ghost use Rattle.cp_link.specs.Kept.{Keeps, at, counted, passed, clause_by, fault_of};

use crate::clauses::{count_rules, shared_in, shares};
use crate::exported::{ModuleExports, all_exports};
use crate::import_list::ImportList;
use crate::imports::{active_in, imports_in, push_imports};
use crate::kept::Kept;
use crate::names::name_of;
use crate::refusals::clause_cause;
use cp_code::PredNames;
use cp_declaration::is_declaration;
use cp_io::bytes_of;
use cp_module::{Cause, ModulePart, Refusal, soonest};
use cp_read::ReadClause;
use std::alloc::{AllocError, Global};

/// What the files of a program are refused for together, if they are.
pub fn refusal_in(alloc: Global, parts: &[ModulePart]) -> Result<Option<Refusal>, AllocError>
    ensures { IfOk result (λ refusal. option_map fault_of refusal ≡ refused parts.now) }
{
    let all = all_exports(alloc, parts)?;
    for (place, part) in parts.iter().enumerate() {
        let before = &parts[..place];
        let found = part_refusal(alloc, parts, before, part, all.as_slice())?;
        if let Some(refusal) = found {
            return Ok(Some(refusal));
        }
    }
    Ok(None)
}

/// What a file of a program is refused for, if it is.
fn part_refusal(
    alloc: Global,
    parts: &[ModulePart],
    before: &[ModulePart],
    part: &ModulePart,
    all: &[ModuleExports],
) -> Result<Option<Refusal>, AllocError>
    requires { all.now ≡ map shown parts.now }
    ensures { IfOk result (λ refusal. option_map fault_of refusal ≡ or_later part.now.file (part_cause parts.now before.now part.now) None) }
{
    match part_cause(alloc, parts, before, part, all)? {
        Some(Cause { line, why }) => {
            let file = bytes_of(alloc, part.file())?;
            Ok(Some(Refusal { file, line, why }))
        }
        None => Ok(None),
    }
}

/// What counts of what a file of a program is refused for.
fn part_cause(
    alloc: Global,
    parts: &[ModulePart],
    before: &[ModulePart],
    part: &ModulePart,
    all: &[ModuleExports],
) -> Result<Option<Cause>, AllocError>
    requires { all.now ≡ map shown parts.now }
    ensures { IfOk result (λ cause. cause ≡ part_cause parts.now before.now part.now) }
{
    let mut kept = begin(alloc, parts, before, all, part)?;
    let mut cause: Option<Cause> = None;
    let clauses = part.clauses().as_slice();
    for clause in clauses {
        let found = cause_behind(alloc, parts, before, part, all, &kept, clause, cause)?;
        cause = found;
        let behind = pass(alloc, parts, all, part, kept, clause)?;
        kept = behind;
    }
    Ok(cause)
}

/// What counts behind a clause where this counts above it.
fn cause_behind(
    alloc: Global,
    parts: &[ModulePart],
    before: &[ModulePart],
    part: &ModulePart,
    all: &[ModuleExports],
    kept: &Kept,
    clause: &ReadClause,
    cause: Option<Cause>,
) -> Result<Option<Cause>, AllocError>
    requires { all.now ≡ map shown parts.now }
    ensures { IfOk result (λ found. found ≡ soonest cause (least (cause_on clause.now.line (clause_by parts.now before.now part.now.file all.now kept.now clause.now)))) }
{
    let why = clause_cause(alloc, parts, before, part.file(), all, kept, clause)?;
    Ok(soonest(cause, Cause::on(clause.line, why)))
}

/// What is kept of a file before its first clause.
fn begin(
    alloc: Global,
    parts: &[ModulePart],
    before: &[ModulePart],
    all: &[ModuleExports],
    part: &ModulePart,
) -> Result<Kept, AllocError>
    requires { all.now ≡ map shown parts.now }
    ensures { IfOk result (λ kept. Keeps kept (at parts.now before.now part.now [])) }
{
    let clauses = part.clauses().as_slice();
    let own = name_of(alloc, part)?;
    let imports = imports_in(alloc, parts, all, part.file(), clauses)?;
    let imported = ImportList::new(alloc).with_all(imports)?;
    let active = active_in(alloc, clauses)?;
    let rules = rules_of(before);
    let shared = shared_of(alloc, before)?;
    Ok(Kept {
        own,
        imported,
        active,
        rules,
        shared,
        earlier: ImportList::new(alloc),
    })
}

/// The number of clauses of files that are no declarations.
pub fn rules_of(parts: &[ModulePart]) -> u64
    ensures { result ≡ counted (rules_of_parts parts.now) }
{
    let mut rules: u64 = 0;
    for part in parts {
        rules = rules.saturating_add(count_rules(part.clauses().as_slice()) as u64);
    }
    rules
}

/// The number of shared predicates of files.
fn shared_of(alloc: Global, parts: &[ModulePart]) -> Result<u64, AllocError>
    ensures { IfOk result (λ shared. shared ≡ counted (shared_of_parts parts.now)) }
{
    let mut shared: u64 = 0;
    for part in parts {
        let preds = shared_in(alloc, part.clauses().as_slice())?;
        shared = shared.saturating_add(u64::from(preds.len()));
    }
    Ok(shared)
}

/// What is kept behind a clause.
fn pass(
    alloc: Global,
    parts: &[ModulePart],
    all: &[ModuleExports],
    part: &ModulePart,
    kept: Kept,
    clause: &ReadClause,
) -> Result<Kept, AllocError>
    requires { all.now ≡ map shown parts.now }
    ensures { IfOk result (λ behind. behind ≡ passed parts.now part.now.file clause.now kept) }
{
    let Kept {
        own,
        imported,
        active,
        rules,
        shared,
        earlier,
    } = kept;
    let preds = shares(alloc, clause)?;
    let mut imports = PredNames::new(alloc);
    push_imports(alloc, &mut imports, parts, all, part.file(), clause)?;
    let earlier = earlier.with_all(imports)?;
    let rules = if is_declaration(&clause.term) {
        rules
    } else {
        rules.saturating_add(1)
    };
    Ok(Kept {
        own,
        imported,
        active,
        rules,
        shared: shared.saturating_add(u64::from(preds.len())),
        earlier,
    })
}
