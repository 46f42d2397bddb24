ghost use Rattle.std.specs.Prelude.{◌≡◌, ℕ, ◌<◌, List, [], length, map, get_or, IfOk, OnOk};
ghost use Rattle.std.specs.List.{filter_map};
ghost use Rattle.cp_term.specs.declared.cell.Cell.{Cell};
ghost use Rattle.cp_term.specs.Preorder.{arguments};
ghost use Rattle.cp_heap.specs.State.{instance_at, AreRefs};
ghost use Rattle.cp_lists.specs.Places.{instances};
ghost use Rattle.cp_code.specs.Code as code;
ghost use Rattle.cp_code.specs.Code.{Code};
ghost use Rattle.cp_code.specs.Programs.{code_of, check_on};
ghost use Rattle.cp_props.specs.Arguments.{HaveArguments};
ghost use Rattle.cp_props.specs.Checks.{check_shown};
ghost use Rattle.cp_run.specs.Shown.{here_of, instance_in, rules_from, shown, moved};
ghost use Rattle.cp_run.specs.Stands.{Holds, Stands};
ghost use Rattle.cp_calls.specs.Goals.{HasPlacesFor, HasGoodChecks};
ghost use Rattle.cp_calls.specs.Rows.{kind_row, rules_row, opened_row, tested_row};
ghost use Rattle.cp_calls.specs.Exits.{IsExitPut};

use crate::check_ball::throw_check;
use cp_code::Program;
use cp_goals::arguments_of;
use cp_heap::{Ref, Refs};
use cp_props::{Checks, broken_call, checks_of, held};
use cp_run::{Item, Point, Run};
use cp_term::PredName;
use std::alloc::AllocError;

/// A call of a predicate with rules: what its assertions demand is tested, and then its clauses are tried.
pub(crate) fn call_rules(
    program: &Program,
    run: &mut Run,
    place: u32,
    pred: &PredName,
    goal: Ref,
    rest: u32,
    level: u64,
) -> Result<(), AllocError>
    requires holds { Holds run.old }
    requires goal { goal.at < length run.old.heap.terms }
    requires arity { HasPlacesFor (instance_in (here_of run.old) goal.at) pred.now.arity }
    requires rest { rest < length run.old.goals }
    requires checks { HasGoodChecks program.now }
    ensures moved { OnOk result ((budget : ℕ) → shown (code_of program.now budget) run.new ≡ moved (code_of program.now budget) run.old rest level (kind_row (code_of program.now budget) pred.now (code.Rules (filter_map (check_on pred.now) program.now.checks) (rules_from (code_of program.now budget) place 0)) (instance_in (here_of run.old) goal.at))) }
    ensures stands { OnOk result (Stands run.new) }
{
    let checks = checks_of(run.alloc, program, pred)?;
    let args = arguments_of(run.alloc, &run.heap, goal)?;
    test_call(program, run, place, pred, &checks, &args, goal, rest, level)?;
    Ok(())
}

/// A call of a predicate with these checks.
fn test_call(
    program: &Program,
    run: &mut Run,
    place: u32,
    pred: &PredName,
    checks: &Checks,
    args: &Refs,
    goal: Ref,
    rest: u32,
    level: u64,
) -> Result<(), AllocError>
    requires holds { Holds run.old }
    requires goal { goal.at < length run.old.heap.terms }
    requires args { AreRefs run.old.heap args.now }
    requires arguments { instances run.old.heap args.now ≡ arguments (instance_in (here_of run.old) goal.at) }
    requires named { HaveArguments (length args.now) (map check_shown checks.now) }
    requires rest { rest < length run.old.goals }
    ensures moved { OnOk result ((budget : ℕ) → shown (code_of program.now budget) run.new ≡ moved (code_of program.now budget) run.old rest level (kind_row (code_of program.now budget) pred.now (code.Rules (map check_shown checks.now) (rules_from (code_of program.now budget) place 0)) (instance_in (here_of run.old) goal.at))) }
    ensures stands { OnOk result (Stands run.new) }
{
    match broken_call(run.alloc, &program.types, &run.heap, checks, args)? {
        Some(number) => {
            throw_check(run, b"calls", pred, number, rest)?;
            Ok(())
        }
        None => {
            enter_rules(program, run, place, pred, checks, args, goal, rest, level)?;
            Ok(())
        }
    }
}

/// The clauses of a predicate are tried, in front of its exit where something is tested there.
fn enter_rules(
    program: &Program,
    run: &mut Run,
    place: u32,
    pred: &PredName,
    checks: &Checks,
    args: &Refs,
    goal: Ref,
    rest: u32,
    level: u64,
) -> Result<(), AllocError>
    requires holds { Holds run.old }
    requires goal { goal.at < length run.old.heap.terms }
    requires args { AreRefs run.old.heap args.now }
    requires arguments { instances run.old.heap args.now ≡ arguments (instance_in (here_of run.old) goal.at) }
    requires named { HaveArguments (length args.now) (map check_shown checks.now) }
    requires rest { rest < length run.old.goals }
    ensures moved { OnOk result ((budget : ℕ) → shown (code_of program.now budget) run.new ≡ moved (code_of program.now budget) run.old rest level (rules_row (code_of program.now budget) pred.now (map check_shown checks.now) (rules_from (code_of program.now budget) place 0) (instance_in (here_of run.old) goal.at))) }
    ensures stands { OnOk result (Stands run.new) }
{
    let held = held(run.alloc, &program.types, &run.heap, checks, args)?;
    if held.is_empty() {
        drop_checks(held);
        open_rules(run, place, goal, rest, level)?;
        return Ok(());
    }
    open_tested(run, place, pred, held, goal, rest, level)?;
    Ok(())
}

/// The clauses of a predicate are tried, in front of its exit. What is tested there is the goal as it is now.
fn open_tested(
    run: &mut Run,
    place: u32,
    pred: &PredName,
    held: Checks,
    goal: Ref,
    rest: u32,
    level: u64,
) -> Result<(), AllocError>
    requires holds { Holds run.old }
    requires goal { goal.at < length run.old.heap.terms }
    requires named { HaveArguments (length (arguments (instance_in (here_of run.old) goal.at))) (map check_shown held) }
    requires rest { rest < length run.old.goals }
    ensures moved { OnOk result ((code : Code) → shown code run.new ≡ moved code run.old rest level (tested_row pred.now (map check_shown held) (rules_from code place 0) (instance_in (here_of run.old) goal.at))) }
    ensures stands { OnOk result (Stands run.new) }
{
    let goal = run.instance(goal)?;
    let behind = put_exit(run, pred, held, goal, rest)?;
    open_rules(run, place, goal, behind, level)?;
    Ok(())
}

/// Puts the exit of a call in front of a list of goals.
fn put_exit(
    run: &mut Run,
    pred: &PredName,
    held: Checks,
    goal: Ref,
    rest: u32,
) -> Result<u32, AllocError>
    requires holds { Holds run.old }
    requires goal { goal.at < length run.old.heap.terms }
    requires rest { rest < length run.old.goals }
    requires named { HaveArguments (length (arguments (get_or run.old.heap.terms goal.at []))) (map check_shown held) }
    ensures holds { OnOk result (Holds run.new) }
    ensures put { IfOk result (λ n. IsExitPut run.old run.new pred.now (map check_shown held) (get_or run.old.heap.terms goal.at []) rest n) }
{
    let pred = pred.clone()?;
    let behind = run.put(
        Item::Exit {
            pred,
            checks: held,
            goal,
        },
        rest,
    )?;
    Ok(behind)
}

pub(crate) fn drop_checks(_checks: Checks) {}

/// The clauses of a predicate are tried, at a level that is opened for them.
fn open_rules(run: &mut Run, place: u32, goal: Ref, rest: u32, level: u64) -> Result<(), AllocError>
    requires holds { Holds run.old }
    requires goal { goal.at < length run.old.heap.terms }
    requires rest { rest < length run.old.goals }
    ensures moved { OnOk result ((code : Code) → shown code run.new ≡ moved code run.old rest level (opened_row (rules_from code place 0) (instance_in (here_of run.old) goal.at))) }
    ensures stands { OnOk result (Stands run.new) }
{
    let Some(opened) = level.checked_add(1) else {
        return Err(AllocError);
    };
    run.push_opened(opened)?;
    run.go(Point::Tries {
        pred: place,
        from: 0,
        goal,
        rest,
        level: opened,
    });
    Ok(())
}
