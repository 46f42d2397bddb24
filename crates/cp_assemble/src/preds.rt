ghost use Rattle.std.specs.Prelude.{◌≡◌, ◌++◌, map, IfOk, OnOk};
ghost use Rattle.cp_module.specs.Causes.{clauses_of};
ghost use Rattle.cp_link.specs.Lawful.{AllHaveBodies};
ghost use Rattle.cp_link.specs.Modules.{name_of};
ghost use Rattle.cp_link.specs.Linked.{clause_in, marks_in, pred_in, preds_in};
ghost use Rattle.cp_assemble.specs.Indexed.{IsIndexOf};

use crate::index::FileIndex;
use crate::kinds::kind_in;
use crate::objects::Objects;
use cp_code::{Clauses, GoalMarks, PredInfo, Preds};
use cp_declaration::Indicator;
use cp_link::{in_module, name_of, own_preds};
use cp_module::ModulePart;
use cp_term::Name;
use std::alloc::{AllocError, Global};

/// Adds the predicates that a file defines, where these are the shared predicates of the program.
pub(crate) fn push_preds_in(
    alloc: Global,
    all: &mut Preds,
    shared: &Objects,
    part: &ModulePart,
) -> Result<(), AllocError>
    ensures preds { OnOk result (all.new ≡ all.old ++ preds_in shared.now part.now) }
    ensures bodies { OnOk result (AllHaveBodies (preds_in shared.now part.now)) }
{
    let own = own_preds(alloc, part.clauses().as_slice())?;
    let index = FileIndex::of(alloc, part.clauses().as_slice())?;
    push_each(alloc, all, shared, part, &index, own.as_slice())?;
    Ok(())
}

fn push_each(
    alloc: Global,
    all: &mut Preds,
    shared: &Objects,
    part: &ModulePart,
    index: &FileIndex,
    preds: &[Indicator],
) -> Result<(), AllocError>
    requires { IsIndexOf part.now.clauses index.now }
    ensures { OnOk result (all.new ≡ all.old ++ map (pred_in shared.now part.now) preds.now) }
{
    let name = name_of(alloc, part)?;
    for pred in preds {
        let info = pred_in(alloc, shared, part, &name, index, pred)?;
        all.push(info)?;
    }
    Ok(())
}

fn pred_in(
    alloc: Global,
    shared: &Objects,
    part: &ModulePart,
    module_name: &Name,
    index: &FileIndex,
    pred: &Indicator,
) -> Result<PredInfo, AllocError>
    requires name { module_name.now ≡ name_of part.now }
    requires index { IsIndexOf part.now.clauses index.now }
    ensures { IfOk result (λ info. info ≡ pred_in shared.now part.now pred.now) }
{
    Ok(PredInfo {
        name: in_module(module_name, pred)?,
        clauses: clauses_in(alloc, module_name, part, index, pred)?,
        kind: kind_in(alloc, shared, part, index.shared.as_slice(), pred)?,
        goals: marks_in(alloc, part, index, pred)?,
    })
}

/// The clauses of a predicate in the file of a module.
fn clauses_in(
    alloc: Global,
    module_name: &Name,
    part: &ModulePart,
    index: &FileIndex,
    pred: &Indicator,
) -> Result<Clauses, AllocError>
    requires { IsIndexOf part.now.clauses index.now }
    ensures { IfOk result (λ all. all ≡ map (clause_in module_name.now) (clauses_of part.now.clauses pred.now)) }
{
    let clauses = part.clauses().as_slice();
    let own = index.places.clauses_of(alloc, module_name, clauses, pred)?;
    Ok(own)
}

/// Which arguments of a predicate the `meta_predicate` declarations of a file mark, all of them together.
fn marks_in(
    alloc: Global,
    part: &ModulePart,
    index: &FileIndex,
    pred: &Indicator,
) -> Result<GoalMarks, AllocError>
    requires { IsIndexOf part.now.clauses index.now }
    ensures { IfOk result (λ marks. marks ≡ marks_in part.now.clauses pred.now) }
{
    let _part = part;
    let marks = index.marks.find(alloc, pred)?;
    Ok(marks)
}
