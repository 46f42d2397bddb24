ghost use Rattle.std.specs.Prelude.{◌≡◌, ◌∷◌, ◌++◌, [], List, ℕ, map, IfOk, OnOk};
ghost use Rattle.std.specs.Str.{bytes_eq};
ghost use Rattle.std.specs.List.{list_any};
ghost use Rattle.cp_term.specs.declared.pred_name.PredName.{PredName as PredOf};
ghost use Rattle.cp_term.specs.PredNameEq.{pred_name_eq};
ghost use Rattle.cp_link.specs.Imports.{active_in};
ghost use Rattle.cp_link.specs.Linked.{distinct_preds, distinct_names, all_active};

use cp_code::{Names, PredNames};
use cp_link::active_in;
use cp_module::ModulePart;
use cp_term::{Name, PredName};
use std::alloc::{AllocError, Global};

/// The predicates of active modules that the files use, each once.
pub(crate) fn all_active(alloc: Global, parts: &[ModulePart]) -> Result<PredNames, AllocError>
    ensures { IfOk result (λ preds. preds ≡ all_active parts.now) }
{
    let mut all = PredNames::new(alloc);
    for part in parts {
        let preds = active_in(alloc, part.clauses().as_slice())?;
        push_each(&mut all, preds)?;
    }
    Ok(all)
}

fn push_each(all: &mut PredNames, preds: PredNames) -> Result<(), AllocError>
    ensures { OnOk result ((before : List PredOf) → all.old ≡ distinct_preds before → all.new ≡ distinct_preds (before ++ preds)) }
{
    for pred in preds.into_vec() {
        push_new(all, pred)?;
    }
    Ok(())
}

fn push_new(all: &mut PredNames, pred: PredName) -> Result<(), AllocError>
    ensures { OnOk result ((before : List PredOf) → all.old ≡ distinct_preds before → all.new ≡ distinct_preds (before ++ pred ∷ [])) }
{
    let there = is_among(all.as_slice(), &pred);
    if there {
        return Ok(());
    }
    all.push(pred)?;
    Ok(())
}

fn is_among(preds: &[PredName], pred: &PredName) -> bool
    ensures { result ≡ list_any (pred_name_eq pred.now) preds.now }
{
    preds.iter().any(|other| *pred == *other)
}

/// The modules of these predicates, each once.
pub(crate) fn modules_of(alloc: Global, preds: &[PredName]) -> Result<Names, AllocError>
    ensures { IfOk result (λ names. names ≡ distinct_names (map (λ (p : PredOf). p.module) preds.now)) }
{
    let mut all = Names::new(alloc);
    for pred in preds {
        let name = pred.module.clone()?;
        push_name(&mut all, name)?;
    }
    Ok(all)
}

fn push_name(all: &mut Names, name: Name) -> Result<(), AllocError>
    ensures { OnOk result ((before : List (List ℕ)) → all.old ≡ distinct_names before → all.new ≡ distinct_names (before ++ name ∷ [])) }
{
    let there = is_named(all.as_slice(), &name);
    if there {
        return Ok(());
    }
    all.push(name)?;
    Ok(())
}

fn is_named(names: &[Name], name: &Name) -> bool
    ensures { result ≡ list_any (bytes_eq name.now) names.now }
{
    names.iter().any(|other| name.bytes() == other.bytes())
}
