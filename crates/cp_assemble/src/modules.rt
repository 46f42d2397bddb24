ghost use Rattle.std.specs.Prelude.{◌≡◌, ◌++◌, ◌≤◌, map, IfOk, OnOk};
ghost use Rattle.cp_link.specs.Modules.{name_of};
ghost use Rattle.cp_link.specs.Refusals.{rules_of_parts};
ghost use Rattle.cp_link.specs.Linked.{all_shared, shared_by, first_name, first_exports};

use cp_code::{Names, PredNames};
use cp_link::{exports_of, name_of, push_named, rules_of, shared_in};
use cp_module::ModulePart;
use cp_term::Name;
use std::alloc::{AllocError, Global};

/// The modules of the files.
pub(crate) fn names(alloc: Global, parts: &[ModulePart]) -> Result<Names, AllocError>
    ensures { IfOk result (λ all. all ≡ map name_of parts.now) }
{
    let mut all = Names::new(alloc);
    for part in parts {
        let name = name_of(alloc, part)?;
        all.push(name)?;
    }
    Ok(all)
}

/// The module of the first file; where there is none, the empty name.
pub(crate) fn first_name(alloc: Global, parts: &[ModulePart]) -> Result<Name, AllocError>
    ensures { IfOk result (λ name. name ≡ first_name parts.now) }
{
    match parts {
        [part, ..] => name_of(alloc, part),
        [] => Name::known(alloc, b""),
    }
}

/// What the first file exports.
pub(crate) fn first_exports(alloc: Global, parts: &[ModulePart]) -> Result<PredNames, AllocError>
    ensures { IfOk result (λ preds. preds ≡ first_exports parts.now) }
{
    let mut all = PredNames::new(alloc);
    match parts {
        [part, ..] => {
            let name = name_of(alloc, part)?;
            let preds = exports_of(alloc, part)?;
            push_named(&mut all, &name, preds.as_slice())?;
            Ok(all)
        }
        [] => Ok(all),
    }
}

/// The shared predicates of the files, in loading order.
pub(crate) fn all_shared(alloc: Global, parts: &[ModulePart]) -> Result<PredNames, AllocError>
    ensures { IfOk result (λ preds. preds ≡ all_shared parts.now) }
{
    let mut all = PredNames::new(alloc);
    for part in parts {
        push_shared(alloc, &mut all, part)?;
    }
    Ok(all)
}

fn push_shared(alloc: Global, all: &mut PredNames, part: &ModulePart) -> Result<(), AllocError>
    ensures { OnOk result (all.new ≡ all.old ++ shared_by part.now) }
{
    let name = name_of(alloc, part)?;
    let preds = shared_in(alloc, part.clauses().as_slice())?;
    push_named(all, &name, preds.as_slice())
}

/// How many clauses of the files are no declarations.
pub(crate) fn written(parts: &[ModulePart]) -> u32
    requires { rules_of_parts parts.now ≤ 65536 }
    ensures { result ≡ rules_of_parts parts.now }
{
    rules_of(parts) as u32
}
