ghost use Rattle.std.specs.Prelude.{◌≡◌, cond, None, Some, ◌<◌, ◌++◌, [], ◌∷◌, length, IfOk, OnOk};
ghost use Rattle.cp_term.specs.Unification.{unify};
ghost use Rattle.cp_heap.specs.State.{term, substitution, instance_at, IsEnd, IsLive, Extends};
ghost use Rattle.cp_unify.specs.Pairs.{lefts, rights, ArePairs};
ghost use Rattle.cp_unify.specs.Steps.{Unifies, IsHorizon, FirstCellsDiffer};

use crate::binding::{bind_term, bind_younger};
use crate::horizon::{Horizon, horizon_of};
use crate::pair::{Pair, push_pairs};
use crate::words::{argument_count, first_argument, same_first};
use cp_heap::{Heap, Mark, Ref, Word};
use std::alloc::{AllocError, Global};

/// Makes two terms one, where they unify. Where they do not, or memory is wanting, bindings may be left that `undo_to`
/// takes back.
pub fn unify(alloc: Global, heap: &mut Heap, a: Ref, b: Ref) -> Result<bool, AllocError>
    requires a { a.at < length heap.old.terms }
    requires b { b.at < length heap.old.terms }
    ensures unified { IfOk result (λ unified. unify (substitution heap.old) (term heap.old a.at) (term heap.old b.at) ≡ cond unified (Some (substitution heap.new)) None) }
    ensures kept { heap.new ≡ record heap.old { trail = heap.new.trail } }
    ensures extends { Extends heap.old heap.new }
{
    let mark = heap.mark();
    unify_since(alloc, heap, mark, a, b)
}

/// The same. A variable that was made after the mark is bound to a term from before it without a walk along the term,
/// as long as no binding was made since the mark that brings such a variable into a term from before.
pub fn unify_since(
    alloc: Global,
    heap: &mut Heap,
    mark: Mark,
    a: Ref,
    b: Ref,
) -> Result<bool, AllocError>
    requires mark { IsLive mark heap.old }
    requires a { a.at < length heap.old.terms }
    requires b { b.at < length heap.old.terms }
    ensures unified { IfOk result (λ unified. unify (substitution heap.old) (term heap.old a.at) (term heap.old b.at) ≡ cond unified (Some (substitution heap.new)) None) }
    ensures kept { heap.new ≡ record heap.old { trail = heap.new.trail } }
    ensures extends { Extends heap.old heap.new }
{
    let mut horizon = horizon_of(heap, mark);
    let mut pairs = pair_of(alloc, a, b)?;
    'turns: for _ in 0..u64::MAX {
        match pairs.pop() {
            None => return Ok(true),
            Some(pair) => {
                if !unify_pair(heap, &mut horizon, &mut pairs, pair)? {
                    return Ok(false);
                }
            }
        }
    }
    Err(AllocError)
}

fn pair_of(alloc: Global, left: Ref, right: Ref) -> Result<Vec<Pair>, AllocError>
    ensures { IfOk result (λ pairs. pairs.items ≡ (record { left = left; right = right }) ∷ []) }
{
    let mut pairs = Vec::new(alloc);
    pairs.push(Pair { left, right })?;
    Ok(pairs)
}

/// Makes the first cells of two terms one and puts their arguments on the stack. Answers whether that could be done.
fn unify_pair(
    heap: &mut Heap,
    horizon: &mut Horizon,
    pairs: &mut Vec<Pair>,
    pair: Pair,
) -> Result<bool, AllocError>
    requires left { pair.left.at < length heap.old.terms }
    requires right { pair.right.at < length heap.old.terms }
    requires pairs { ArePairs (length heap.old.terms) pairs.old.items }
    requires horizon { IsHorizon horizon.old heap.old }
    ensures goes_on { IfOk result (λ goes_on. unify (substitution heap.old) (term heap.old pair.left.at ++ lefts heap.old pairs.old.items) (term heap.old pair.right.at ++ rights heap.old pairs.old.items) ≡ cond goes_on (unify (substitution heap.new) (lefts heap.new pairs.new.items) (rights heap.new pairs.new.items)) None) }
    ensures pairs { OnOk result (ArePairs (length heap.new.terms) pairs.new.items) }
    ensures horizon { OnOk result (IsHorizon horizon.new heap.new) }
    ensures kept { heap.new ≡ record heap.old { trail = heap.new.trail } }
    ensures extends { Extends heap.old heap.new }
{
    let left = heap.end(pair.left);
    let right = heap.end(pair.right);
    if left.at == right.at {
        return Ok(true);
    }
    let left_word = heap.word(left);
    let right_word = heap.word(right);
    if same_first(heap, left_word, right_word) {
        push_pairs(
            pairs,
            first_argument(left_word),
            first_argument(right_word),
            argument_count(left_word),
        )?;
        return Ok(true);
    }
    let goes_on = unify_apart(heap, horizon, left, right)?;
    Ok(goes_on)
}

/// Unifies two terms at their ends, whose first cells differ.
fn unify_apart(
    heap: &mut Heap,
    horizon: &mut Horizon,
    left: Ref,
    right: Ref,
) -> Result<bool, AllocError>
    requires left { left.at < length heap.old.terms }
    requires right { right.at < length heap.old.terms }
    requires left_end { IsEnd heap.old left.at }
    requires right_end { IsEnd heap.old right.at }
    requires differ { FirstCellsDiffer (instance_at heap.old left.at) (instance_at heap.old right.at) }
    requires horizon { IsHorizon horizon.old heap.old }
    ensures goes_on { IfOk result (λ goes_on. Unifies heap.old heap.new left.at right.at goes_on) }
    ensures horizon { OnOk result (IsHorizon horizon.new heap.new) }
    ensures kept { heap.new ≡ record heap.old { trail = heap.new.trail } }
    ensures extends { Extends heap.old heap.new }
{
    match heap.word(left) {
        Word::Variable(variable) => match heap.word(right) {
            Word::Variable(other) => bind_younger(heap, left, variable, right, other),
            _ => bind_term(heap, horizon, left, variable, right),
        },
        _ => match heap.word(right) {
            Word::Variable(other) => bind_term(heap, horizon, right, other, left),
            _ => Ok(false),
        },
    }
}
