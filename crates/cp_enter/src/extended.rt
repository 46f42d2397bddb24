ghost use Rattle.std.specs.Prelude.{◌≡◌, ℕ, ◌+◌, ◌<◌, ◌≤◌, ◌^◌, List, [], ◌∷◌, ◌++◌, length, get_or, map, take, drop, All, codes, IfOk, OnOk};
ghost use Rattle.std.specs.List.{flat_map};
ghost use Rattle.cp_term.specs.declared.cell.Cell.{Cell};
ghost use Rattle.cp_term.specs.declared.cell.Cell.TheVariants.{Func};
ghost use Rattle.cp_term.specs.Substitution.{apply};
ghost use Rattle.cp_heap.specs.State.{instance_at, substitution, AreRefs, terms_at};
ghost use Rattle.cp_lists.specs.Growing.{GainsTerms};
ghost use Rattle.cp_goal.specs.Errors.{type_error};
ghost use Rattle.cp_code.specs.Tree as tree;
ghost use Rattle.cp_code.specs.Tree.{with_arity};
ghost use Rattle.cp_enter.specs.Extending.{IsGoalOr};

use cp_heap::{Heap, Ref, Refs, Word};
use cp_request::{resource_error_of, type_error_of};
use std::alloc::{AllocError, Global};

/// A goal with further arguments behind its own, or the kind of the error that there is none.
#[derive(Clone, Copy, Drop)]
pub(crate) enum Extended {
    Goal(Ref),
    Error(Ref),
}

impl Extended {
    /// The goal with one or more further arguments: a compound of at most 255 (ISO/IEC 13211-1:1995/Cor.2, 8.15.4).
    pub(crate) fn of(
        alloc: Global,
        heap: &mut Heap,
        goal: Ref,
        extra: &Refs,
    ) -> Result<Extended, AllocError>
        requires goal { goal.at < length heap.old.terms }
        requires extra { AreRefs heap.old extra.now }
        requires some { 0 < length extra.now }
        ensures goal { IfOk result (λ e. IsGoalOr heap.new (tree.longer (instance_at heap.old goal.at) (map (apply (substitution heap.old)) (terms_at heap.old extra.now))) e) }
        ensures gains { OnOk result (GainsTerms heap.old heap.new) }
    {
        let _mark = heap.mark();
        let end = heap.end(goal);
        match heap.word(end) {
            Word::Compound(arity, name, first) => {
                with_arguments(alloc, heap, name, first, arity, extra)
            }
            Word::Atom(name) => with_arguments(alloc, heap, name, 0, 0, extra),
            Word::Integer(_) => not_callable(alloc, heap, end),
            Word::Variable(_) => not_callable(alloc, heap, end),
        }
    }
}

/// No arguments can be put behind those of a term that is neither an atom nor a compound.
fn not_callable(alloc: Global, heap: &mut Heap, goal: Ref) -> Result<Extended, AllocError>
    requires { goal.at < length heap.old.terms }
    ensures error { IfOk result (λ e. IsGoalOr heap.new (Err (type_error (codes "callable") (instance_at heap.old goal.at))) e) }
    ensures gains { OnOk result (GainsTerms heap.old heap.new) }
{
    let kind = type_error_of(alloc, heap, b"callable", goal)?;
    Ok(Extended::Error(kind))
}

/// The compound of a name, the arguments that stand side by side from a place on, and further ones behind them.
fn with_arguments(
    alloc: Global,
    heap: &mut Heap,
    name: u32,
    first: u32,
    arity: u16,
    extra: &Refs,
) -> Result<Extended, AllocError>
    requires name { name < length heap.old.names }
    requires places { first + arity ≤ length heap.old.terms }
    requires fits { length heap.old.terms < 2 ^ 32 }
    requires extra { AreRefs heap.old extra.now }
    requires some { 0 < length extra.now }
    ensures goal { IfOk result (λ e. IsGoalOr heap.new (with_arity (arity + length extra.now) (Func (get_or heap.old.names name []) (arity + length extra.now) ∷ apply (substitution heap.old) (flat_map (λ t. t) (take arity (drop first heap.old.terms))) ++ flat_map (λ t. t) (map (apply (substitution heap.old)) (terms_at heap.old extra.now)))) e) }
    ensures gains { OnOk result (GainsTerms heap.old heap.new) }
{
    if arity as u64 + extra.len() as u64 > 255 {
        let kind = resource_error_of(alloc, heap, b"arity")?;
        return Ok(Extended::Error(kind));
    }
    let mut arguments = places_from(alloc, first, arity)?;
    push_all(&mut arguments, extra.as_slice())?;
    let name = heap.name_at(name).clone()?;
    let goal = heap.compound(&name, &arguments)?;
    Ok(Extended::Goal(goal))
}

/// So many places that stand side by side, from this one on.
pub(crate) fn places_from(alloc: Global, first: u32, count: u16) -> Result<Refs, AllocError>
    requires { first + count < 2 ^ 32 }
    ensures terms { IfOk result (λ refs. (terms : List (List Cell)) → first + count ≤ length terms → map (λ r. get_or terms r.at []) refs ≡ take count (drop first terms)) }
    ensures live { IfOk result (λ refs. (n : ℕ) → first + count ≤ n → All (λ r. r.at < n) refs) }
    ensures len { IfOk result (λ refs. length refs ≡ count) }
{
    let mut places = Refs::new(alloc);
    'places: for index in 0..count {
        places.push(Ref {
            at: first + index as u32,
        })?;
    }
    Ok(places)
}

/// Adds places behind others.
fn push_all(places: &mut Refs, more: &[Ref]) -> Result<(), AllocError>
    ensures { OnOk result (places.new ≡ places.old ++ more.now) }
{
    'places: for place in more {
        places.push(*place)?;
    }
    Ok(())
}
