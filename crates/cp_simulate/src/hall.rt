ghost use Rattle.std.specs.Prelude.{◌≡◌, ◌++◌, [], ◌∷◌, ℕ, false, find, map, IfOk, OnOk};
ghost use Rattle.std.specs.Option.{option_copied};
ghost use Rattle.cp_term.specs.PredNameEq.{pred_name_eq};
ghost use Rattle.cp_call.specs.Setup.{object_of, kind_of, opening_goals};
ghost use Rattle.cp_call.specs.Sound.{objects_with};
ghost use Rattle.cp_code.specs.declared.pred_info.PredInfo.{PredInfo as Info};
ghost use Rattle.cp_code.specs.Programs.{is_data, shared_pred};
ghost use Rattle.cp_hall.specs.Hall.{objects_of, history_at};
ghost use Rattle.cp_simulate.specs.Runs.{objects, unasked};

use crate::fact::heads_of;
use crate::main_goal::main_goal;
use cp_call::{ObjectKind, ObjectName};
use cp_code::{PredInfo, PredKind, Program};
use cp_hall::PlainHall;
use cp_term::{Name, PredName, Terms};
use std::alloc::{AllocError, Global};

/// The two lists of goals, with `M:main` to be done.
fn lists_of(alloc: Global, module_name: &Name) -> Result<PlainHall, AllocError>
    ensures { IfOk result (λ hall. hall ≡ map unasked (objects_with (opening_goals module_name.now false) [])) }
{
    let mut goals = Terms::new(alloc);
    goals.push(main_goal(alloc, module_name)?)?;
    let mut hall = PlainHall::new(alloc);
    hall.add(ObjectName::Goals, ObjectKind::Goals, goals)?;
    hall.add(ObjectName::Ended, ObjectKind::Ended, Terms::new(alloc))?;
    Ok(hall)
}

/// The predicate of this name.
fn pred_named<'a>(preds: &'a [PredInfo], name: &PredName) -> Option<&'a PredInfo>
    ensures { option_copied result ≡ find (λ (p : Info). pred_name_eq p.name name.now) preds.now }
{
    preds.iter().find(|pred| pred.name == *name)
}

/// What kind of object a shared predicate is.
fn object_kind(kind: PredKind) -> ObjectKind
    ensures { result ≡ kind_of (is_data kind) }
{
    match kind {
        PredKind::Plain(_) => ObjectKind::Plain,
        PredKind::Rules | PredKind::Concurrent(_) | PredKind::Remote(_) => ObjectKind::Concurrent,
    }
}

/// Adds the shared predicate of this name, with its opening facts.
fn add_shared(
    alloc: Global,
    hall: &mut PlainHall,
    preds: &[PredInfo],
    name: &PredName,
) -> Result<(), AllocError>
    ensures { OnOk result (hall.new ≡ hall.old ++ unasked (object_of (shared_pred preds.now name.now)) ∷ []) }
{
    let object = ObjectName::Pred(name.clone()?);
    match pred_named(preds, name) {
        Some(pred) => {
            let facts = heads_of(alloc, pred.clauses.as_slice())?;
            hall.add(object, object_kind(pred.kind), facts)
        }
        None => hall.add(object, ObjectKind::Concurrent, Terms::new(alloc)),
    }
}

/// Adds the shared predicates of these names.
fn add_all_shared(
    alloc: Global,
    hall: &mut PlainHall,
    preds: &[PredInfo],
    names: &[PredName],
) -> Result<(), AllocError>
    ensures { OnOk result (hall.new ≡ hall.old ++ map (λ n. unasked (object_of (shared_pred preds.now n))) names.now) }
{
    for name in names {
        add_shared(alloc, hall, preds, name)?;
    }
    Ok(())
}

/// The shared objects of a run of the program, which nobody has asked yet: the goals to be done, which begin with `M:main`
/// of its first module M, how goals ended, and its shared predicates in loading order, each with its opening facts.
pub fn plain_hall(alloc: Global, program: &Program) -> Result<PlainHall, AllocError>
    ensures objects { IfOk result (λ hall. objects_of hall ≡ objects program.now) }
    ensures unasked { IfOk result (λ hall. (p : ℕ) → history_at hall p ≡ []) }
{
    let mut hall = lists_of(alloc, &program.first)?;
    add_all_shared(
        alloc,
        &mut hall,
        program.preds.as_slice(),
        program.shared.as_slice(),
    )?;
    Ok(hall)
}
