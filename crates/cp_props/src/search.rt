ghost use Rattle.std.specs.Prelude.{◌≡◌, ◌+◌, ◌^◌, ◌<◌, ◌≤◌, [], ◌∷◌, ◌++◌, true, false, Bool, length, map, drop, slice_get, IfOk, OnOk, IfSome, Some};
ghost use Rattle.std.specs.Str.{bytes_eq};
ghost use Rattle.cp_heap.specs.State.{instance_at};
ghost use Rattle.cp_code.specs.Properties.{has_within, has_row, row_named};
ghost use Rattle.cp_code.specs.Programs.{type_of};
ghost use Rattle.cp_props.specs.Demands.{demand_shown, AreDemands};
ghost use Rattle.cp_props.specs.Search.{ends, cost_within, row_cost, attempts_cost, row_at, clauses_at, GoesOn, Tests, attempt_shown, attempts_shown, IsLive, AreLive};

use crate::attempt::{Attempt, Attempts};
use crate::clause::demands_of;
use crate::demand::{Demand, Demands};
use crate::language::without_types;
use cp_code::{Clause, TypeRow, Types};
use cp_heap::{Heap, Ref};
use cp_term::Name;
use std::alloc::{AllocError, Global};

/// Whether the term at a place has a property of the language or a regular type, where a step to a part of the term or to
/// another type is made at most `depth` times. It takes no stack.
pub(crate) fn has_within(
    alloc: Global,
    types: &Types,
    heap: &Heap,
    depth: u64,
    name: &Name,
    at: Ref,
) -> Result<bool, AllocError>
    requires { at.at < length heap.now.terms }
    ensures { IfOk result (λ answer. answer ≡ has_within (map type_of types.now) depth name.now (instance_at heap.now at.at)) }
{
    let mut attempts = Attempts::new(alloc);
    let mut passed = test(alloc, types, heap, &mut attempts, depth, name, at)?;
    'attempts: loop {
        match attempts.pop() {
            None => return Ok(passed),
            Some(attempt) => {
                passed = go_on(alloc, types, heap, &mut attempts, attempt, passed)?;
            }
        }
    }
}

/// Tests whether the term at a place has a property. Where that is an attempt at a type it is put behind the others, and
/// no clause of it has passed yet.
fn test(
    alloc: Global,
    types: &Types,
    heap: &Heap,
    attempts: &mut Attempts,
    depth: u64,
    name: &Name,
    at: Ref,
) -> Result<bool, AllocError>
    requires place { at.at < length heap.now.terms }
    requires live { AreLive heap.now attempts.old }
    ensures live { OnOk result (AreLive heap.now attempts.new) }
    ensures tested { IfOk result (λ passed. Tests (map type_of types.now) depth name.now (instance_at heap.now at.at) (attempts_shown (map type_of types.now) heap.now attempts.old) (attempts_shown (map type_of types.now) heap.now attempts.new) passed) }
{
    if depth == 0 {
        return Ok(false);
    }
    match without_types(alloc, heap, name, at)? {
        Some(passed) => Ok(passed),
        None => test_type(alloc, types, heap, attempts, depth - 1, name, at),
    }
}

fn test_type(
    alloc: Global,
    types: &Types,
    heap: &Heap,
    attempts: &mut Attempts,
    depth: u64,
    name: &Name,
    at: Ref,
) -> Result<bool, AllocError>
    requires place { at.at < length heap.now.terms }
    requires live { AreLive heap.now attempts.old }
    ensures live { OnOk result (AreLive heap.now attempts.new) }
    ensures answer { IfOk result (λ passed. ends (map type_of types.now) (attempts_shown (map type_of types.now) heap.now attempts.new) passed ≡ ends (map type_of types.now) (attempts_shown (map type_of types.now) heap.now attempts.old) (has_row (has_within (map type_of types.now) depth) (instance_at heap.now at.at) (row_named name.now (map type_of types.now)))) }
    ensures less { OnOk result (attempts_cost (map type_of types.now) (attempts_shown (map type_of types.now) heap.now attempts.new) ≤ attempts_cost (map type_of types.now) (attempts_shown (map type_of types.now) heap.now attempts.old) + row_cost (cost_within (map type_of types.now) depth) (instance_at heap.now at.at) (row_named name.now (map type_of types.now))) }
{
    match row_of(types, name) {
        Some(row) => {
            attempts.push(Attempt::new(alloc, depth, at, row))?;
            Ok(false)
        }
        None => Ok(false),
    }
}

/// The number of the first type of this name, from 0.
fn row_of(types: &Types, name: &Name) -> Option<u32>
    ensures row { row_at (map type_of types.now) result ≡ row_named name.now (map type_of types.now) }
    ensures within { IfSome result (λ at. at < length types.now) }
{
    'types: for at in 0..types.len() {
        let Some(row) = types.get(at) else {
            return None;
        };
        if is_named(row, name) {
            return Some(at);
        }
    }
    None
}

fn is_named(row: &TypeRow, name: &Name) -> bool
    ensures { result ≡ bytes_eq row.now.name name.now }
{
    row.name.bytes() == name.bytes()
}

/// Goes on with an attempt where what was tested last passed or not.
fn go_on(
    alloc: Global,
    types: &Types,
    heap: &Heap,
    attempts: &mut Attempts,
    attempt: Attempt,
    passed: bool,
) -> Result<bool, AllocError>
    requires attempt { IsLive heap.now attempt }
    requires live { AreLive heap.now attempts.old }
    ensures live { OnOk result (AreLive heap.now attempts.new) }
    ensures went { IfOk result (λ ok. GoesOn (map type_of types.now) (attempts_shown (map type_of types.now) heap.now attempts.old) (attempt_shown (map type_of types.now) heap.now attempt) passed (attempts_shown (map type_of types.now) heap.now attempts.new) ok) }
{
    if passed {
        next_demand(alloc, types, heap, attempts, attempt)
    } else {
        next_clause(alloc, types, heap, attempts, attempt)
    }
}

/// Tests the next demand of the clause at hand. Where none is left the attempt has passed.
fn next_demand(
    alloc: Global,
    types: &Types,
    heap: &Heap,
    attempts: &mut Attempts,
    attempt: Attempt,
) -> Result<bool, AllocError>
    requires attempt { IsLive heap.now attempt }
    requires live { AreLive heap.now attempts.old }
    ensures live { OnOk result (AreLive heap.now attempts.new) }
    ensures went { IfOk result (λ ok. GoesOn (map type_of types.now) (attempts_shown (map type_of types.now) heap.now attempts.old) (attempt_shown (map type_of types.now) heap.now attempt) true (attempts_shown (map type_of types.now) heap.now attempts.new) ok) }
{
    match attempt.demand()? {
        Some(demand) => test_demand(alloc, types, heap, attempts, attempt, demand),
        None => Ok(dropped(attempt)),
    }
}

fn dropped(_attempt: Attempt) -> bool
    ensures { result ≡ true }
{
    true
}

fn test_demand(
    alloc: Global,
    types: &Types,
    heap: &Heap,
    attempts: &mut Attempts,
    attempt: Attempt,
    demand: Demand,
) -> Result<bool, AllocError>
    requires attempt { IsLive heap.now attempt }
    requires demand { slice_get attempt.demands attempt.met ≡ Some demand }
    requires few { attempt.met + 1 < 2 ^ 32 }
    requires live { AreLive heap.now attempts.old }
    ensures live { OnOk result (AreLive heap.now attempts.new) }
    ensures went { IfOk result (λ ok. GoesOn (map type_of types.now) (attempts_shown (map type_of types.now) heap.now attempts.old) (attempt_shown (map type_of types.now) heap.now attempt) true (attempts_shown (map type_of types.now) heap.now attempts.new) ok) }
{
    let depth = attempt.depth;
    attempts.push(attempt.past_demand())?;
    test(alloc, types, heap, attempts, depth, &demand.name, demand.at)
}

/// Tries the next clause of the type. Where none is left the attempt has failed.
fn next_clause(
    alloc: Global,
    types: &Types,
    heap: &Heap,
    attempts: &mut Attempts,
    attempt: Attempt,
) -> Result<bool, AllocError>
    requires attempt { IsLive heap.now attempt }
    requires live { AreLive heap.now attempts.old }
    ensures live { OnOk result (AreLive heap.now attempts.new) }
    ensures went { IfOk result (λ ok. GoesOn (map type_of types.now) (attempts_shown (map type_of types.now) heap.now attempts.old) (attempt_shown (map type_of types.now) heap.now attempt) false (attempts_shown (map type_of types.now) heap.now attempts.new) ok) }
{
    match attempt.clause(types) {
        Some(clause) => try_clause(alloc, types, heap, attempts, attempt, clause),
        None => Ok(!dropped(attempt)),
    }
}

/// Tries a clause: what it demands is tested next.
fn try_clause(
    alloc: Global,
    types: &Types,
    heap: &Heap,
    attempts: &mut Attempts,
    attempt: Attempt,
    clause: &Clause,
) -> Result<bool, AllocError>
    requires attempt { IsLive heap.now attempt }
    requires clause { slice_get (clauses_at (map type_of types.now) attempt.row) attempt.next ≡ Some clause.now.whole }
    requires few { attempt.next + 1 < 2 ^ 32 }
    requires live { AreLive heap.now attempts.old }
    ensures live { OnOk result (AreLive heap.now attempts.new) }
    ensures went { IfOk result (λ ok. GoesOn (map type_of types.now) (attempts_shown (map type_of types.now) heap.now attempts.old) (attempt_shown (map type_of types.now) heap.now attempt) false (attempts_shown (map type_of types.now) heap.now attempts.new) ok) }
{
    match demands_of(alloc, heap, clause, attempt.at)? {
        Some(demands) => put_passed(attempts, attempt.past_clause(demands), true),
        None => put_passed(attempts, attempt.past_clause(Demands::new(alloc)), false),
    }
}

fn put_passed(attempts: &mut Attempts, attempt: Attempt, passed: bool) -> Result<bool, AllocError>
    ensures attempts { OnOk result (attempts.new ≡ attempts.old ++ attempt ∷ []) }
    ensures passed { IfOk result (λ ok. ok ≡ passed) }
{
    attempts.push(attempt)?;
    Ok(passed)
}
