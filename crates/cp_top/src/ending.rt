ghost use Rattle.std.specs.Prelude.{◌≡◌, true, None, IfOk, IfSome, slice_get};
ghost use Rattle.std.specs.Option.{option_copied};
ghost use Rattle.cp_term.specs.Preorder.{is_terms};
ghost use Rattle.cp_term.specs.Numbering.{is_numbered_from};
ghost use Rattle.cp_top.specs.Ending.{Ending, how_in, how_among, facts_of, ball_in, ended_by, ending_by, ending_of, shown};

use crate::run_end::RunEnd;
use crate::uncaught::end_uncaught;
use crate::waiting::end_waiting;
use cp_call::{FactRow, Outcome, PredEnds};
use cp_term::{Cell, Term};
use std::alloc::{AllocError, Global};

/// How goal 1 ended, by the cells of a fact that says so: the cells of the term.
fn how_in(fact: &[Cell]) -> Option<&[Cell]>
    ensures { option_copied result ≡ how_in fact.now }
{
    match fact {
        [Cell::Func(name, arity), Cell::Int(number), how @ ..] => {
            if name.bytes() == b"ended".as_slice() && *arity == 2 && *number == 1 {
                Some(how)
            } else {
                None
            }
        }
        _ => None,
    }
}

fn how_of(fact: &Term) -> Option<&[Cell]>
    ensures how { option_copied result ≡ how_in fact.now }
    ensures term { IfSome result (λ how. is_terms 1 how.now ≡ true) }
    ensures numbered { IfSome result (λ how. is_numbered_from 0 how.now ≡ true) }
{
    how_in(fact.cells())
}

/// How goal 1 ended, by the first fact that says so.
fn how_among(rows: &[FactRow]) -> Option<&[Cell]>
    ensures how { option_copied result ≡ how_among rows.now }
    ensures term { IfSome result (λ how. is_terms 1 how.now ≡ true) }
    ensures numbered { IfSome result (λ how. is_numbered_from 0 how.now ≡ true) }
{
    for row in rows {
        if let Some(how) = how_of(&row.fact) {
            return Some(how);
        }
    }
    None
}

/// How goal 1 ended, by the facts of `$ended`.
fn how_ended(preds: &PredEnds) -> Option<&[Cell]>
    ensures how { option_copied result ≡ how_among (facts_of (slice_get preds.now 1)) }
    ensures term { IfSome result (λ how. is_terms 1 how.now ≡ true) }
    ensures numbered { IfSome result (λ how. is_numbered_from 0 how.now ≡ true) }
{
    match preds.get(1) {
        Some(pred) => how_among(pred.facts.as_slice()),
        None => None,
    }
}

fn ending(alloc: Global, status: u8, line: &[u8]) -> Result<RunEnd, AllocError>
    ensures { IfOk result (λ e. ◌≡◌ {A = Ending} (shown e) (record { status = status; line = line.now })) }
{
    let line = Vec::from_slice(alloc, line)?;
    Ok(RunEnd { status, line })
}

fn end_named(alloc: Global, how: &[Cell]) -> Result<RunEnd, AllocError>
    ensures { IfOk result (λ e. shown e ≡ ended_by None how.now) }
{
    match how {
        [Cell::Atom(name)] => {
            if name.bytes() == b"steps".as_slice() {
                return ending(alloc, 4, b"{STEPS: goal 1}\n");
            }
            if name.bytes() == b"fail".as_slice() {
                return ending(alloc, 1, b"{FAILED: goal 1}\n");
            }
            ending(alloc, 0, b"")
        }
        _ => ending(alloc, 0, b""),
    }
}

/// The ball by which goal 1 ended, by the term that says how: its cells.
fn ball_in(how: &[Cell]) -> Option<&[Cell]>
    ensures { option_copied result ≡ ball_in how.now }
{
    match how {
        [Cell::Func(name, arity), ball @ ..] => {
            if name.bytes() == b"ball".as_slice() && *arity == 1 {
                Some(ball)
            } else {
                None
            }
        }
        _ => None,
    }
}

fn ball_of(how: &[Cell]) -> Option<&[Cell]>
    requires term { is_terms 1 how.now ≡ true }
    requires numbered { is_numbered_from 0 how.now ≡ true }
    ensures ball { option_copied result ≡ ball_in how.now }
    ensures term { IfSome result (λ ball. is_terms 1 ball.now ≡ true) }
    ensures numbered { IfSome result (λ ball. is_numbered_from 0 ball.now ≡ true) }
{
    ball_in(how)
}

/// The ending where goal 1 has ended, by the cells of the term that says how.
fn end_by(alloc: Global, how: &[Cell]) -> Result<RunEnd, AllocError>
    requires term { is_terms 1 how.now ≡ true }
    requires numbered { is_numbered_from 0 how.now ≡ true }
    ensures { IfOk result (λ e. shown e ≡ ending_by how.now) }
{
    match ball_of(how) {
        Some(ball) => end_uncaught(alloc, ball),
        None => end_named(alloc, how),
    }
}

/// The status and the last line of a run.
pub(crate) fn end_of(alloc: Global, outcome: &Outcome) -> Result<RunEnd, AllocError>
    ensures { IfOk result (λ e. shown e ≡ ending_of outcome.now) }
{
    match how_ended(&outcome.preds) {
        Some(how) => end_by(alloc, how),
        None => end_waiting(alloc, outcome),
    }
}
