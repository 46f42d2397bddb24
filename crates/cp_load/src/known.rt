ghost use Rattle.std.specs.Prelude.{◌≡◌, ◌≤◌, nat_lt, cond, length, None, IfOk, OnOk};
ghost use Rattle.cp_module.specs.Causes.{unless, least};
ghost use Rattle.cp_link.specs.Modules.{said};
ghost use Rattle.cp_load.specs.Gathering.{is_known, with_file, known_by, known_after, too_many};

use cp_declaration::Declaration;
use cp_io::{ByteLists, Bytes};
use cp_link::said;
use cp_module::{Cause, Why, imported_file, soonest};
use cp_read::ReadClause;
use std::alloc::{AllocError, Global};

/// The most files that a program has.
const MOST: u32 = 64;

/// Makes the files known that clauses of a file import, in their order, and tells what counts of the imports that are too
/// many. No file is made known behind the first that is too many.
pub(crate) fn note_imports(
    alloc: Global,
    known: &mut ByteLists,
    file: &[u8],
    clauses: &[ReadClause],
) -> Result<Option<Cause>, AllocError>
    requires { length known.old ≤ 64 }
    ensures cause { IfOk result (λ cause. cause ≡ least (too_many known.old file.now clauses.now)) }
    ensures known { result ≡ Ok None → known.new ≡ known_after known.old file.now clauses.now }
    ensures room { result ≡ Ok None → length known.new ≤ 64 }
{
    let mut cause: Option<Cause> = None;
    for clause in clauses {
        note_import(alloc, known, file, clause)?;
        cause = soonest(cause, Cause::on(clause.line, crowd(known.len())));
    }
    Ok(cause)
}

/// Makes the file known that a clause of a file imports, unless too many are known.
fn note_import(
    alloc: Global,
    known: &mut ByteLists,
    file: &[u8],
    clause: &ReadClause,
) -> Result<(), AllocError>
    ensures { OnOk result (known.new ≡ cond (nat_lt 64 (length known.old)) known.old (known_by known.old file.now (said clause.now))) }
{
    if known.len() > MOST {
        return Ok(());
    }
    match said(alloc, clause)? {
        Some(
            Declaration::UseModule {
                file: name,
                imports: _imports,
            },
        ) => {
            let path = imported_file(alloc, file, name.bytes())?;
            push_file(known, path)
        }
        _ => Ok(()),
    }
}

fn push_file(known: &mut ByteLists, file: Bytes) -> Result<(), AllocError>
    ensures { OnOk result (known.new ≡ with_file known.old file) }
{
    if is_known(known.as_slice(), file.as_slice()) {
        return Ok(());
    }
    known.push(file)
}

fn is_known(known: &[Bytes], file: &[u8]) -> bool
    ensures { result ≡ is_known known.now file.now }
{
    known.iter().any(|other| other.as_slice() == file)
}

/// What is refused where so many files are known.
fn crowd(known: u32) -> Option<Why>
    ensures { result ≡ unless (nat_lt 64 known) Why.TooManyModules None }
{
    if known > MOST {
        Some(Why::TooManyModules)
    } else {
        None
    }
}
