ghost use Rattle.std.specs.Prelude.{◌≡◌, ℕ, ◌<◌, None, Some, length, codes, IfOk, OnOk};
ghost use Rattle.cp_goal.specs.Builtins.{context};
ghost use Rattle.cp_code.specs.Code.{Code};
ghost use Rattle.cp_code.specs.Goals.{builtin_goal};
ghost use Rattle.cp_code.specs.Programs.{code_of, pred_of};
ghost use Rattle.cp_code.specs.Requests as requests;
ghost use Rattle.cp_code.specs.Requests.{functor_of};
ghost use Rattle.cp_code.specs.Tree.{qualified};
ghost use Rattle.cp_run.specs.Shown.{here_of, instance_in, shown, moved};
ghost use Rattle.cp_run.specs.Stands.{Holds, Stands};
ghost use Rattle.cp_run.specs.Gaining.{raise_row};
ghost use Rattle.cp_calls.specs.Goals.{IsPredAt, HasPlacesFor, HasGoodChecks};
ghost use Rattle.cp_goals.specs.Rows.{asks_row};
ghost use Rattle.cp_calls.specs.Rows.{call_row, kind_row};

use crate::qualifying::qualified;
use crate::remote::call_remote;
use crate::rules::call_rules;
use cp_code::{PredInfo, PredKind, Program};
use cp_goals::ask_or_raise;
use cp_heap::Ref;
use cp_request::{existence_error, pred_asking, pred_indicator};
use cp_run::Run;
use cp_term::{Name, PredName};
use std::alloc::AllocError;

/// Runs a goal that is the call of a predicate, as the module `seer` sees it: one with rules, a shared one or one of an
/// active module. Where the module sees none, `existence_error(procedure, M:N/A)` is raised (ISO/IEC 13211-1, 7.7.7). The
/// goal is no builtin; its name and its arguments are those that it has with the bindings.
pub fn run_pred(
    program: &Program,
    run: &mut Run,
    seer: &Name,
    name: &Name,
    arity: u16,
    goal: Ref,
    rest: u32,
    level: u64,
) -> Result<(), AllocError>
    requires holds { Holds run.old }
    requires goal { goal.at < length run.old.heap.terms }
    requires rest { rest < length run.old.goals }
    requires functor { functor_of (instance_in (here_of run.old) goal.at) ≡ Some (name.now, arity) }
    requires other { builtin_goal name.now arity ≡ None }
    requires checks { HasGoodChecks program.now }
    ensures moved { OnOk result ((budget : ℕ) → shown (code_of program.now budget) run.new ≡ moved (code_of program.now budget) run.old rest level (call_row (code_of program.now budget) seer.now (instance_in (here_of run.old) goal.at))) }
    ensures stands { OnOk result (Stands run.new) }
{
    match program.sees(seer, name, arity) {
        Some(place) => match program.preds.get(place) {
            Some(pred) => {
                call_pred(program, run, seer, place, pred, goal, rest, level)?;
                Ok(())
            }
            None => {
                raise_unknown(run, seer, name, arity, rest)?;
                Ok(())
            }
        },
        None => {
            raise_unknown(run, seer, name, arity, rest)?;
            Ok(())
        }
    }
}

/// The module sees no predicate under this name and arity.
fn raise_unknown(
    run: &mut Run,
    seer: &Name,
    name: &Name,
    arity: u16,
    rest: u32,
) -> Result<(), AllocError>
    requires holds { Holds run.old }
    requires rest { rest < length run.old.goals }
    ensures moved { OnOk result ((code : Code) (level : ℕ) → shown code run.new ≡ moved code run.old rest level (raise_row (requests.existence_error (codes "procedure") (context seer.now name.now arity)) (context seer.now name.now arity))) }
    ensures stands { OnOk result (Stands run.new) }
{
    let pred = pred_name(seer, name, arity)?;
    let culprit = pred_indicator(run.alloc, &mut run.heap, &pred)?;
    let kind = existence_error(run.alloc, &mut run.heap, b"procedure", culprit)?;
    run.raise(kind, &pred, rest)?;
    Ok(())
}

fn pred_name(seer: &Name, name: &Name, arity: u16) -> Result<PredName, AllocError>
    ensures { IfOk result (λ pred. pred ≡ record { «module» = seer.now; name = name.now; arity = arity }) }
{
    Ok(PredName {
        module: seer.clone()?,
        name: name.clone()?,
        arity,
    })
}

/// A call of the predicate with this number, whose goal arguments the module `seer` sees.
fn call_pred(
    program: &Program,
    run: &mut Run,
    seer: &Name,
    place: u32,
    pred: &PredInfo,
    goal: Ref,
    rest: u32,
    level: u64,
) -> Result<(), AllocError>
    requires holds { Holds run.old }
    requires goal { goal.at < length run.old.heap.terms }
    requires rest { rest < length run.old.goals }
    requires found { IsPredAt program.now place pred.now }
    requires arity { HasPlacesFor (instance_in (here_of run.old) goal.at) pred.now.name.arity }
    requires checks { HasGoodChecks program.now }
    ensures moved { OnOk result ((budget : ℕ) → shown (code_of program.now budget) run.new ≡ moved (code_of program.now budget) run.old rest level (kind_row (code_of program.now budget) pred.now.name ((pred_of program.now.checks pred.now).kind) (qualified seer.now pred.now.goals (instance_in (here_of run.old) goal.at)))) }
    ensures stands { OnOk result (Stands run.new) }
{
    let goal = qualified(run, seer, &pred.goals, goal)?;
    call_kind(program, run, place, pred, goal, rest, level)?;
    Ok(())
}

/// A call of a predicate by its kind.
fn call_kind(
    program: &Program,
    run: &mut Run,
    place: u32,
    pred: &PredInfo,
    goal: Ref,
    rest: u32,
    level: u64,
) -> Result<(), AllocError>
    requires holds { Holds run.old }
    requires goal { goal.at < length run.old.heap.terms }
    requires rest { rest < length run.old.goals }
    requires found { IsPredAt program.now place pred.now }
    requires arity { HasPlacesFor (instance_in (here_of run.old) goal.at) pred.now.name.arity }
    requires checks { HasGoodChecks program.now }
    ensures moved { OnOk result ((budget : ℕ) → shown (code_of program.now budget) run.new ≡ moved (code_of program.now budget) run.old rest level (kind_row (code_of program.now budget) pred.now.name ((pred_of program.now.checks pred.now).kind) (instance_in (here_of run.old) goal.at))) }
    ensures stands { OnOk result (Stands run.new) }
{
    match pred.kind {
        PredKind::Rules => {
            call_rules(program, run, place, &pred.name, goal, rest, level)?;
            Ok(())
        }
        PredKind::Concurrent(object) => {
            call_shared(run, object, &pred.name, goal, rest, level)?;
            Ok(())
        }
        PredKind::Plain(object) => {
            call_shared(run, object, &pred.name, goal, rest, level)?;
            Ok(())
        }
        PredKind::Remote(_) => {
            call_remote(run, &pred.name, goal, rest, level)?;
            Ok(())
        }
    }
}

/// A call of a shared predicate: `current_fact` of it.
fn call_shared(
    run: &mut Run,
    object: u32,
    pred: &PredName,
    goal: Ref,
    rest: u32,
    level: u64,
) -> Result<(), AllocError>
    requires holds { Holds run.old }
    requires goal { goal.at < length run.old.heap.terms }
    requires rest { rest < length run.old.goals }
    ensures moved { OnOk result ((code : Code) → shown code run.new ≡ moved code run.old rest level (asks_row (requests.pred_asking object (instance_in (here_of run.old) goal.at) pred.now) (requests.full_name pred.now))) }
    ensures stands { OnOk result (Stands run.new) }
{
    let asking = pred_asking(&run.heap, object, goal, pred);
    ask_or_raise(run, asking, pred, rest, level)?;
    Ok(())
}
