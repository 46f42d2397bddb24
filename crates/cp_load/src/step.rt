ghost use Rattle.std.specs.Prelude.{◌≡◌, ◌≤◌, [], length, None, IfOk};
ghost use Rattle.std.specs.List.{list_any};
ghost use Rattle.std.specs.Option.{option_map};
ghost use Rattle.cp_module.specs.Causes.{least};
ghost use Rattle.cp_link.specs.Kept.{fault_of};
ghost use Rattle.cp_link.specs.Modules.{said};
ghost use Rattle.cp_load.specs.Gathering.{known_after, header_line, is_misnamed, misnamed, step_causes, imports_file, imports_first, first_causes, first_of, fault_at, is_none, step_fault};

use crate::known::note_imports;
use cp_declaration::Declaration;
use cp_io::{ByteLists, bytes_of};
use cp_link::{name_of, said};
use cp_module::{Cause, ModulePart, Refusal, Why, base_of, imported_file, soonest};
use cp_read::ReadClause;
use std::alloc::{AllocError, Global};

/// Makes the files known that a file imports which is loaded behind these, and tells what is refused in it for its name and
/// for the number of files.
pub(crate) fn step_refusal(
    alloc: Global,
    known: &mut ByteLists,
    parts: &[ModulePart],
    part: &ModulePart,
) -> Result<Option<Refusal>, AllocError>
    requires { length known.old ≤ 64 }
    ensures refusal { IfOk result (λ refusal. option_map fault_of refusal ≡ step_fault known.old parts.now part.now) }
    ensures known { result ≡ Ok None → known.new ≡ known_after known.old part.now.file part.now.clauses }
    ensures room { result ≡ Ok None → length known.new ≤ 64 }
{
    let cause = step_cause(alloc, known, parts.is_empty(), part)?;
    if let Some(cause) = cause {
        let refusal = refusal_at(alloc, part.file(), cause)?;
        return Ok(Some(refusal));
    }
    first_refusal(alloc, parts, part)
}

/// What counts of what is refused in a file for its own name and for the number of files.
fn step_cause(
    alloc: Global,
    known: &mut ByteLists,
    is_first: bool,
    part: &ModulePart,
) -> Result<Option<Cause>, AllocError>
    requires { length known.old ≤ 64 }
    ensures cause { IfOk result (λ cause. cause ≡ least (step_causes is_first known.old part.now)) }
    ensures known { result ≡ Ok None → known.new ≡ known_after known.old part.now.file part.now.clauses }
    ensures room { result ≡ Ok None → length known.new ≤ 64 }
{
    let many = note_imports(alloc, known, part.file(), part.clauses().as_slice())?;
    if is_first {
        return Ok(many);
    }
    let named = misnamed(alloc, part)?;
    Ok(soonest(named, many))
}

/// What is refused in the first file for its name where a file imports it.
fn first_refusal(
    alloc: Global,
    parts: &[ModulePart],
    part: &ModulePart,
) -> Result<Option<Refusal>, AllocError>
    ensures { IfOk result (λ refusal. option_map fault_of refusal ≡ fault_at (first_of parts.now part.now).file (least (first_causes (first_of parts.now part.now) part.now)) None) }
{
    let first = first_of(parts, part);
    match first_cause(alloc, first, part)? {
        Some(cause) => {
            let refusal = refusal_at(alloc, first.file(), cause)?;
            Ok(Some(refusal))
        }
        None => Ok(None),
    }
}

fn first_of<'a>(parts: &'a [ModulePart], part: &'a ModulePart) -> &'a ModulePart
    ensures { result.now ≡ first_of parts.now part.now }
{
    match parts {
        [first, ..] => first,
        [] => part,
    }
}

fn first_cause(
    alloc: Global,
    first: &ModulePart,
    part: &ModulePart,
) -> Result<Option<Cause>, AllocError>
    ensures { IfOk result (λ cause. cause ≡ least (first_causes first.now part.now)) }
{
    let cause = misnamed(alloc, first)?;
    if cause.is_none() || imports_first(alloc, first, part)? {
        Ok(cause)
    } else {
        Ok(None)
    }
}

/// What is refused where the header has another name than the file.
fn misnamed(alloc: Global, part: &ModulePart) -> Result<Option<Cause>, AllocError>
    ensures { IfOk result (λ cause. cause ≡ least (misnamed part.now)) }
{
    if is_misnamed(alloc, part)? {
        let line = header_line(part.clauses().as_slice());
        Ok(Some(Cause {
            line,
            why: Why::BadDeclaration,
        }))
    } else {
        Ok(None)
    }
}

fn is_misnamed(alloc: Global, part: &ModulePart) -> Result<bool, AllocError>
    ensures { IfOk result (λ found. found ≡ is_misnamed part.now) }
{
    let name = name_of(alloc, part)?;
    Ok(name.bytes() != base_of(part.file()))
}

pub(crate) fn header_line(clauses: &[ReadClause]) -> u32
    ensures { result ≡ header_line clauses.now }
{
    match clauses {
        [header, ..] => header.line,
        [] => 1,
    }
}

/// Whether a clause of a file imports the first file.
fn imports_first(alloc: Global, first: &ModulePart, part: &ModulePart) -> Result<bool, AllocError>
    ensures { IfOk result (λ found. found ≡ imports_first first.now part.now) }
{
    import(alloc, part.clauses().as_slice(), first.file(), part.file())
}

/// Whether one of the clauses of the file at a path imports a file.
fn import(
    alloc: Global,
    clauses: &[ReadClause],
    file: &[u8],
    importing: &[u8],
) -> Result<bool, AllocError>
    ensures { IfOk result (λ found. found ≡ list_any (λ c. imports_file file.now importing.now (said c)) clauses.now) }
{
    for clause in clauses {
        if imports_file(alloc, clause, file, importing)? {
            return Ok(true);
        }
    }
    Ok(false)
}

fn imports_file(
    alloc: Global,
    clause: &ReadClause,
    file: &[u8],
    importing: &[u8],
) -> Result<bool, AllocError>
    ensures { IfOk result (λ found. found ≡ imports_file file.now importing.now (said clause.now)) }
{
    match said(alloc, clause)? {
        Some(
            Declaration::UseModule {
                file: name,
                imports: _imports,
            },
        ) => {
            let path = imported_file(alloc, importing, name.bytes())?;
            Ok(path.as_slice() == file)
        }
        _ => Ok(false),
    }
}

/// A cause in a file.
pub(crate) fn refusal_at(alloc: Global, file: &[u8], cause: Cause) -> Result<Refusal, AllocError>
    ensures { IfOk result (λ refusal. fault_of refusal ≡ record { file = file.now; cause = cause }) }
{
    let file = bytes_of(alloc, file)?;
    let Cause { line, why } = cause;
    Ok(Refusal { file, line, why })
}
