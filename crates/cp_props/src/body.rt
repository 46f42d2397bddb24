ghost use Rattle.std.specs.Prelude.{◌≡◌, ◌^◌, ◌<◌, ◌≤◌, true, false, suc, length, take, drop, cond, None, Some, [], ◌∷◌, ◌++◌, List, ℕ, IfOk, OnOk, MatchOption};
ghost use Rattle.cp_term.specs.Preorder.{is_terms, take_terms, drop_terms};
ghost use Rattle.cp_code.specs.Bodies.{seen_from};
ghost use Rattle.cp_code.specs.Requests.{has_module};
ghost use Rattle.cp_props.specs.Pending.{behind_first};
ghost use Rattle.cp_props.specs.Patterns.{places_shown, ArePlaces};
ghost use Rattle.cp_props.specs.Scans.{is_comma, is_conjunction};
ghost use Rattle.cp_props.specs.Demands.{joined, goal_demands, body_demands, demands_shown, AreDemands};

use crate::demand::Demands;
use crate::goal::put_goal;
use crate::place::Places;
use cp_heap::Heap;
use cp_term::Cell;
use std::alloc::{AllocError, Global};

/// Adds what the goals of a body demand, which are joined by commas. Whether all of it can be met.
pub(crate) fn put_body(
    alloc: Global,
    heap: &Heap,
    body: &[Cell],
    places: &Places,
    demands: &mut Demands,
) -> Result<bool, AllocError>
    requires term { is_terms 1 body.now ≡ true }
    requires len { length body.now < 2 ^ 32 }
    requires places { ArePlaces heap.now places.now }
    requires demands { AreDemands heap.now demands.old }
    ensures demands { OnOk result (AreDemands heap.now demands.new) }
    ensures put { IfOk result (λ ok. joined (demands_shown heap.now demands.old) (body_demands (suc (length body.now)) (places_shown heap.now places.now) body.now) ≡ cond ok (Some (demands_shown heap.now demands.new)) None) }
{
    let mut rest = body;
    'goals: while !rest.is_empty() {
        if let Some(behind) = behind_comma(rest) {
            rest = behind;
            continue;
        }
        let (goal, behind) = split_term(rest);
        if !put_seen(alloc, heap, goal, places, demands)? {
            return Ok(false);
        }
        rest = behind;
    }
    Ok(true)
}

/// Adds what a goal of a body demands. The modules in front of it do not count.
fn put_seen(
    alloc: Global,
    heap: &Heap,
    goal: &[Cell],
    places: &Places,
    demands: &mut Demands,
) -> Result<bool, AllocError>
    requires term { is_terms 1 goal.now ≡ true }
    requires places { ArePlaces heap.now places.now }
    requires demands { AreDemands heap.now demands.old }
    ensures demands { OnOk result (AreDemands heap.now demands.new) }
    ensures put { IfOk result (λ ok. joined (demands_shown heap.now demands.old) (goal_demands (places_shown heap.now places.now) ((seen_from [] goal.now).goal)) ≡ cond ok (Some (demands_shown heap.now demands.new)) None) }
{
    put_goal(alloc, heap, unqualified(goal), places, demands)
}

/// The cells behind the functor of a conjunction.
fn behind_comma(cells: &[Cell]) -> Option<&[Cell]>
    ensures { MatchOption result (is_conjunction cells.now ≡ false) (λ behind. (is_conjunction cells.now ≡ true) × (behind.now ≡ behind_first cells.now)) }
{
    match cells {
        [first, behind @ ..] => { if is_comma(first) { Some(behind) } else { None } }
        [] => None,
    }
}

/// Whether it is the functor of a conjunction.
fn is_comma(cell: &Cell) -> bool
    ensures { result ≡ is_comma cell.now }
{
    match cell {
        Cell::Func(name, arity) => name.bytes() == b",".as_slice() && *arity == 2,
        Cell::Var(_) => false,
        Cell::Int(_) => false,
        Cell::Atom(_) => false,
    }
}

/// A goal without the modules in front of it.
fn unqualified(goal: &[Cell]) -> &[Cell]
    requires { is_terms 1 goal.now ≡ true }
    ensures { (seen_from [] goal.now).goal ≡ result.now }
{
    let mut rest = goal;
    'modules: while let Some(behind) = behind_module(rest) {
        rest = behind;
    }
    rest
}

/// The goal G of `M:G`, whose M is an atom.
fn behind_module(goal: &[Cell]) -> Option<&[Cell]>
    ensures { MatchOption result (has_module goal.now ≡ false) (λ behind. (has_module goal.now ≡ true) × (behind.now ≡ drop 2 goal.now)) }
{
    match goal {
        [Cell::Func(name, 2), Cell::Atom(_), behind @ ..] => {
            if name.bytes() == b":".as_slice() {
                Some(behind)
            } else {
                None
            }
        }
        _ => None,
    }
}

/// The first of the terms that cells are, and the cells behind it.
pub(crate) fn split_term(cells: &[Cell]) -> (&[Cell], &[Cell])
    requires { length cells.now < 2 ^ 32 }
    ensures first { result.0.now ≡ take_terms 1 cells.now }
    ensures rest { result.1.now ≡ drop_terms 1 cells.now }
{
    cells.split_at(term_len(cells))
}

/// How many cells the first of the terms has that cells are.
fn term_len(cells: &[Cell]) -> usize
    requires { length cells.now < 2 ^ 32 }
    ensures within { result ≤ length cells.now }
    ensures first { take result cells.now ≡ take_terms 1 cells.now }
    ensures rest { drop result cells.now ≡ drop_terms 1 cells.now }
{
    let mut at: usize = 0;
    let mut left: u64 = 1;
    'cells: while left > 0 && at < cells.len() {
        left = left - 1 + u64::from(cells[at].arity());
        at += 1;
    }
    at
}
