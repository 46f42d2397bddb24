ghost use Rattle.std.specs.Prelude.{◌≡◌, ◌++◌, None, IfOk, OnOk};
ghost use Rattle.cp_module.specs.Causes.{unless, cause_on, least};
ghost use Rattle.cp_link.specs.Modules.{said, one};
ghost use Rattle.cp_load.specs.Typing.{type_name, declared_names, is_name_in, is_again, again_in};

use cp_code::Names;
use cp_declaration::Declaration;
use cp_link::said;
use cp_module::{Cause, Why, soonest};
use cp_read::ReadClause;
use cp_term::Name;
use std::alloc::{AllocError, Global};

/// Adds the names of the regular types that clauses declare to those that are declared before, and tells what counts of those
/// that are declared again.
pub(crate) fn note_types(
    alloc: Global,
    names: &mut Names,
    clauses: &[ReadClause],
) -> Result<Option<Cause>, AllocError>
    ensures cause { IfOk result (λ cause. cause ≡ least (again_in names.old clauses.now)) }
    ensures names { OnOk result (names.new ≡ names.old ++ declared_names clauses.now) }
{
    let mut cause: Option<Cause> = None;
    for clause in clauses {
        let why = note_type(alloc, names, clause)?;
        cause = soonest(cause, Cause::on(clause.line, why));
    }
    Ok(cause)
}

fn note_type(
    alloc: Global,
    names: &mut Names,
    clause: &ReadClause,
) -> Result<Option<Why>, AllocError>
    ensures why { IfOk result (λ why. why ≡ unless (is_again names.old (said clause.now)) Why.NotRegular None) }
    ensures names { OnOk result (names.new ≡ names.old ++ one (type_name (said clause.now))) }
{
    match said(alloc, clause)? {
        Some(Declaration::RegType { name }) => {
            let why = refused_name(names, &name);
            names.push(name)?;
            Ok(why)
        }
        _ => Ok(None),
    }
}

/// What is refused where a type of this name is declared behind these.
fn refused_name(names: &Names, name: &Name) -> Option<Why>
    ensures { result ≡ unless (is_name_in names.now name.now) Why.NotRegular None }
{
    if is_name_in(names.as_slice(), name) {
        Some(Why::NotRegular)
    } else {
        None
    }
}

pub(crate) fn is_name_in(names: &[Name], name: &Name) -> bool
    ensures { result ≡ is_name_in names.now name.now }
{
    names.iter().any(|other| other.bytes() == name.bytes())
}

/// The names of the regular types that clauses declare.
pub(crate) fn declared_names(alloc: Global, clauses: &[ReadClause]) -> Result<Names, AllocError>
    ensures { IfOk result (λ names. names ≡ declared_names clauses.now) }
{
    let mut names = Names::new(alloc);
    let _again = note_types(alloc, &mut names, clauses)?;
    Ok(names)
}
