ghost use Rattle.std.specs.Prelude.{◌≡◌, ◌^◌, ◌<◌, true, false, suc, length, None, [], ◌∷◌, List, IfOk, IfSome, MatchOption};
ghost use Rattle.std.specs.Option.{option_map};
ghost use Rattle.cp_term.specs.declared.cell.Cell.{Cell as CellOf};
ghost use Rattle.cp_term.specs.Preorder.{is_terms, arguments};
ghost use Rattle.cp_heap.specs.State.{instance_at};
ghost use Rattle.cp_code.specs.Clauses.{is_rule};
ghost use Rattle.cp_code.specs.Properties.{clause_of, rule_of, pattern_of};
ghost use Rattle.cp_props.specs.Pending.{behind_first};
ghost use Rattle.cp_props.specs.Patterns.{places_shown, ArePlaces};
ghost use Rattle.cp_props.specs.Scans.{is_no_fact, is_unary, fact_body};
ghost use Rattle.cp_props.specs.Demands.{body_demands, demands, demands_shown, AreDemands};

use crate::body::{put_body, split_term};
use crate::demand::Demands;
use crate::pattern::matched;
use crate::place::Places;
use cp_code::Clause;
use cp_heap::{Heap, Ref};
use cp_term::Cell;
use std::alloc::{AllocError, Global};

/// What a clause of a type, `t(P)` or `t(P) :- B`, demands of the term at a place; None where the term is not of the form
/// P, or the body B holds a goal that is never met.
pub(crate) fn demands_of(
    alloc: Global,
    heap: &Heap,
    clause: &Clause,
    at: Ref,
) -> Result<Option<Demands>, AllocError>
    requires { at.at < length heap.now.terms }
    ensures demands { IfOk result (λ found. option_map (demands_shown heap.now) found ≡ demands (clause_of clause.now.whole) (instance_at heap.now at.at)) }
    ensures live { IfOk result (λ found. IfSome found (AreDemands heap.now)) }
{
    let cells = clause.whole.cells();
    if clause.is_rule() {
        of_rule(alloc, heap, cells, at)
    } else {
        of_fact(alloc, heap, cells, at)
    }
}

fn of_rule(
    alloc: Global,
    heap: &Heap,
    cells: &[Cell],
    at: Ref,
) -> Result<Option<Demands>, AllocError>
    requires rule { is_rule cells.now ≡ true }
    requires term { is_terms 1 cells.now ≡ true }
    requires len { length cells.now < 2 ^ 32 }
    requires place { at.at < length heap.now.terms }
    ensures demands { IfOk result (λ found. option_map (demands_shown heap.now) found ≡ demands (clause_of cells.now) (instance_at heap.now at.at)) }
    ensures live { IfOk result (λ found. IfSome found (AreDemands heap.now)) }
{
    let (head, body) = split_term(behind_first(cells));
    match argument_of(head) {
        Some(pattern) => of_pattern(alloc, heap, pattern, body, at),
        None => of_no_pattern(alloc, heap, body),
    }
}

fn of_fact(
    alloc: Global,
    heap: &Heap,
    cells: &[Cell],
    at: Ref,
) -> Result<Option<Demands>, AllocError>
    requires fact { is_rule cells.now ≡ false }
    requires term { is_terms 1 cells.now ≡ true }
    requires place { at.at < length heap.now.terms }
    ensures demands { IfOk result (λ found. option_map (demands_shown heap.now) found ≡ demands (clause_of cells.now) (instance_at heap.now at.at)) }
    ensures live { IfOk result (λ found. IfSome found (AreDemands heap.now)) }
{
    if is_no_fact(cells) {
        return Ok(None);
    }
    match argument_of(cells) {
        Some(pattern) => of_pattern_alone(alloc, heap, pattern, at),
        None => Ok(Some(Demands::new(alloc))),
    }
}

/// What the body demands where the term is of the form of the pattern.
#[tactic(auto, unfolding(crate::specs::Demands::demands))]
fn of_pattern(
    alloc: Global,
    heap: &Heap,
    pattern: &[Cell],
    body: &[Cell],
    at: Ref,
) -> Result<Option<Demands>, AllocError>
    requires pattern { is_terms 1 pattern.now ≡ true }
    requires body { is_terms 1 body.now ≡ true }
    requires len { length body.now < 2 ^ 32 }
    requires place { at.at < length heap.now.terms }
    ensures demands { IfOk result (λ found. option_map (demands_shown heap.now) found ≡ demands (record { pattern = pattern.now; body = body.now }) (instance_at heap.now at.at)) }
    ensures live { IfOk result (λ found. IfSome found (AreDemands heap.now)) }
{
    match matched(alloc, heap, pattern, at)? {
        Some(places) => of_body(alloc, heap, body, &places),
        None => Ok(None),
    }
}

/// What the body demands of a clause whose head has no pattern, which is any term's.
#[tactic(auto, unfolding(crate::specs::Demands::demands))]
fn of_no_pattern(alloc: Global, heap: &Heap, body: &[Cell]) -> Result<Option<Demands>, AllocError>
    requires body { is_terms 1 body.now ≡ true }
    requires len { length body.now < 2 ^ 32 }
    ensures demands { IfOk result (λ found. (t : List CellOf) → option_map (demands_shown heap.now) found ≡ demands (record { pattern = []; body = body.now }) t) }
    ensures live { IfOk result (λ found. IfSome found (AreDemands heap.now)) }
{
    let places = Places::new(alloc);
    of_body(alloc, heap, body, &places)
}

/// The same of a clause that is a fact, which demands no more than its form.
#[tactic(auto, unfolding(crate::specs::Demands::demands, cp_code::specs::Bodies::seen_from))]
fn of_pattern_alone(
    alloc: Global,
    heap: &Heap,
    pattern: &[Cell],
    at: Ref,
) -> Result<Option<Demands>, AllocError>
    requires pattern { is_terms 1 pattern.now ≡ true }
    requires place { at.at < length heap.now.terms }
    ensures demands { IfOk result (λ found. option_map (demands_shown heap.now) found ≡ demands (record { pattern = pattern.now; body = fact_body }) (instance_at heap.now at.at)) }
    ensures live { IfOk result (λ found. IfSome found (AreDemands heap.now)) }
{
    match matched(alloc, heap, pattern, at)? {
        Some(places) => Ok(Some(no_demands(alloc, places))),
        None => Ok(None),
    }
}

fn no_demands(alloc: Global, _places: Places) -> Demands
    ensures { result ≡ [] }
{
    Demands::new(alloc)
}

/// What a body demands of the terms at the places of its variables.
fn of_body(
    alloc: Global,
    heap: &Heap,
    body: &[Cell],
    places: &Places,
) -> Result<Option<Demands>, AllocError>
    requires body { is_terms 1 body.now ≡ true }
    requires len { length body.now < 2 ^ 32 }
    requires places { ArePlaces heap.now places.now }
    ensures demands { IfOk result (λ found. option_map (demands_shown heap.now) found ≡ body_demands (suc (length body.now)) (places_shown heap.now places.now) body.now) }
    ensures live { IfOk result (λ found. IfSome found (AreDemands heap.now)) }
{
    let mut demands = Demands::new(alloc);
    if put_body(alloc, heap, body, places, &mut demands)? {
        return Ok(Some(demands));
    }
    Ok(None)
}

/// The argument of a compound of one argument.
fn argument_of(cells: &[Cell]) -> Option<&[Cell]>
    requires { is_terms 1 cells.now ≡ true }
    ensures argument { MatchOption result ((body : List CellOf) → pattern_of (arguments cells.now) body ≡ record { pattern = []; body = body }) (λ argument. (body : List CellOf) → pattern_of (arguments cells.now) body ≡ record { pattern = argument.now; body = body }) }
    ensures term { IfSome result (λ argument. is_terms 1 argument.now ≡ true) }
{
    if is_unary(cells) {
        Some(behind_first(cells))
    } else {
        None
    }
}

fn is_unary(cells: &[Cell]) -> bool
    ensures { result ≡ is_unary cells.now }
{
    match cells {
        [Cell::Func(_, 1), ..] => true,
        _ => false,
    }
}

/// Whether it is no compound, or one of the name `:-`.
fn is_no_fact(cells: &[Cell]) -> bool
    ensures { result ≡ is_no_fact cells.now }
{
    match cells {
        [Cell::Func(name, _), ..] => name.bytes() == b":-".as_slice(),
        _ => true,
    }
}

fn behind_first(cells: &[Cell]) -> &[Cell]
    ensures { result.now ≡ behind_first cells.now }
{
    match cells {
        [_, behind @ ..] => behind,
        [] => cells,
    }
}
