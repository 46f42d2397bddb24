ghost use Rattle.std.specs.Prelude.{◌≡◌, ◌+◌, ◌<◌, true, false, length, cond, None, [], ◌∷◌, ◌++◌, List, IfOk, OnOk, IfSome, IsTrue};
ghost use Rattle.std.specs.Option.{option_map};
ghost use Rattle.cp_term.specs.declared.cell.Cell.{Cell as CellOf};
ghost use Rattle.cp_term.specs.declared.cell.Cell.TheVariants as cells;
ghost use Rattle.cp_term.specs.Preorder.{arity_of, is_terms};
ghost use Rattle.cp_goal.specs.Builtins.{is_bound_cell};
ghost use Rattle.cp_heap.specs.State.{instance_at, AreRefs};
ghost use Rattle.cp_heap.specs.Looks.{name_of};
ghost use Rattle.cp_code.specs.Properties.{matched};
ghost use Rattle.cp_props.specs.Pending.{pending};
ghost use Rattle.cp_props.specs.Patterns.{begins_with, has_name, places_shown, ArePlaces, found};

use crate::place::{Place, Places};
use crate::stack::{push_arguments, stack_of};
use cp_heap::{Heap, Look, Ref, Refs};
use cp_term::{Cell, Name};
use std::alloc::{AllocError, Global};

/// The places of the variables of a pattern in the term at a place; None where the term is not of the pattern's form.
pub(crate) fn matched(
    alloc: Global,
    heap: &Heap,
    pattern: &[Cell],
    at: Ref,
) -> Result<Option<Places>, AllocError>
    requires place { at.at < length heap.now.terms }
    requires term { is_terms 1 pattern.now ≡ true }
    ensures places { IfOk result (λ places. option_map (places_shown heap.now) places ≡ matched pattern.now (instance_at heap.now at.at)) }
    ensures live { IfOk result (λ places. IfSome places (ArePlaces heap.now)) }
{
    let mut places = Places::new(alloc);
    let mut stack = stack_of(alloc, at)?;
    'cells: for cell in pattern {
        if !match_cell(heap, cell, &mut stack, &mut places)? {
            return Ok(None);
        }
    }
    Ok(Some(places))
}

/// Matches one cell of a pattern with the term on top of the stack, whose arguments take its place. A variable is put
/// behind the places. Whether the term is of the form.
fn match_cell(
    heap: &Heap,
    cell: &Cell,
    stack: &mut Refs,
    places: &mut Places,
) -> Result<bool, AllocError>
    requires some { 0 < length stack.old }
    requires stack { AreRefs heap.now stack.old }
    requires places { ArePlaces heap.now places.old }
    ensures stack { OnOk result (AreRefs heap.now stack.new) }
    ensures places { OnOk result (ArePlaces heap.now places.new) }
    ensures matched { IfOk result (λ ok. (rest : List CellOf) → found (places_shown heap.now places.old) (matched (cell.now ∷ rest) (pending heap.now stack.old)) ≡ cond ok (found (places_shown heap.now places.new) (matched rest (pending heap.now stack.new))) None) }
    ensures count { IfOk result (λ ok. IsTrue ok → length stack.new + 1 ≡ length stack.old + arity_of cell.now) }
{
    match stack.pop() {
        Some(at) => match_at(heap, cell, at, stack, places),
        None => unreachable!(),
    }
}

/// Matches one cell of a pattern with the term at a place, whose arguments are put on the stack.
fn match_at(
    heap: &Heap,
    cell: &Cell,
    at: Ref,
    stack: &mut Refs,
    places: &mut Places,
) -> Result<bool, AllocError>
    requires place { at.at < length heap.now.terms }
    requires stack { AreRefs heap.now stack.old }
    requires places { ArePlaces heap.now places.old }
    ensures stack { OnOk result (AreRefs heap.now stack.new) }
    ensures places { OnOk result (ArePlaces heap.now places.new) }
    ensures matched { IfOk result (λ ok. (rest : List CellOf) → found (places_shown heap.now places.old) (matched (cell.now ∷ rest) (instance_at heap.now at.at ++ pending heap.now stack.old)) ≡ cond ok (found (places_shown heap.now places.new) (matched rest (pending heap.now stack.new))) None) }
    ensures count { IfOk result (λ ok. IsTrue ok → length stack.new ≡ length stack.old + arity_of cell.now) }
{
    match cell {
        Cell::Var(var) => put_place(heap, *var, at, places),
        Cell::Int(_) => match_bound(heap, cell, at, stack),
        Cell::Atom(_) => match_bound(heap, cell, at, stack),
        Cell::Func(_, _) => match_bound(heap, cell, at, stack),
    }
}

/// Puts a variable of a pattern behind the places.
fn put_place(heap: &Heap, var: u32, at: Ref, places: &mut Places) -> Result<bool, AllocError>
    requires place { at.at < length heap.now.terms }
    requires places { ArePlaces heap.now places.old }
    ensures places { OnOk result (ArePlaces heap.now places.new) }
    ensures ok { IfOk result (λ ok. ok ≡ true) }
    ensures matched { OnOk result ((rest terms : List CellOf) → found (places_shown heap.now places.old) (matched (cells.Var var ∷ rest) (instance_at heap.now at.at ++ terms)) ≡ found (places_shown heap.now places.new) (matched rest terms)) }
{
    let _look = heap.look(at);
    places.push(Place { var, at })?;
    Ok(true)
}

/// Matches a cell that is no variable with the term at a place, whose arguments are put on the stack.
fn match_bound(heap: &Heap, cell: &Cell, at: Ref, stack: &mut Refs) -> Result<bool, AllocError>
    requires bound { is_bound_cell cell.now ≡ true }
    requires place { at.at < length heap.now.terms }
    requires stack { AreRefs heap.now stack.old }
    ensures stack { OnOk result (AreRefs heap.now stack.new) }
    ensures matched { IfOk result (λ ok. (rest : List CellOf) → matched (cell.now ∷ rest) (instance_at heap.now at.at ++ pending heap.now stack.old) ≡ cond ok (matched rest (pending heap.now stack.new)) None) }
    ensures count { IfOk result (λ ok. IsTrue ok → length stack.new ≡ length stack.old + arity_of cell.now) }
{
    if begins_with(heap, at, cell) {
        push_arguments(heap, at, stack)?;
        Ok(true)
    } else {
        let _look = heap.look(at);
        Ok(false)
    }
}

/// Whether the first cell of the term at a place is this one.
fn begins_with(heap: &Heap, at: Ref, cell: &Cell) -> bool
    requires { at.at < length heap.now.terms }
    ensures { result ≡ begins_with cell.now (instance_at heap.now at.at) }
{
    match cell {
        Cell::Var(var) => is_variable(heap, at, *var),
        Cell::Int(integer) => is_integer(heap, at, *integer),
        Cell::Atom(name) => is_atom(heap, at, name),
        Cell::Func(name, arity) => is_compound(heap, at, name, *arity),
    }
}

fn is_variable(heap: &Heap, at: Ref, var: u32) -> bool
    requires { at.at < length heap.now.terms }
    ensures { result ≡ begins_with (cells.Var var) (instance_at heap.now at.at) }
{
    match heap.look(at) {
        Look::Var(_, own) => own == u64::from(var),
        Look::Int(_) => false,
        Look::Atom => false,
        Look::Func(_) => false,
    }
}

fn is_integer(heap: &Heap, at: Ref, integer: i64) -> bool
    requires { at.at < length heap.now.terms }
    ensures { result ≡ begins_with (cells.Int integer) (instance_at heap.now at.at) }
{
    match heap.look(at) {
        Look::Var(_, _) => false,
        Look::Int(own) => own == integer,
        Look::Atom => false,
        Look::Func(_) => false,
    }
}

fn is_atom(heap: &Heap, at: Ref, name: &Name) -> bool
    requires { at.at < length heap.now.terms }
    ensures { result ≡ begins_with (cells.Atom name.now) (instance_at heap.now at.at) }
{
    match heap.look(at) {
        Look::Var(_, _) => false,
        Look::Int(_) => false,
        Look::Atom => has_name(heap, at, name),
        Look::Func(_) => false,
    }
}

fn is_compound(heap: &Heap, at: Ref, name: &Name, arity: u16) -> bool
    requires { at.at < length heap.now.terms }
    ensures { result ≡ begins_with (cells.Func name.now arity) (instance_at heap.now at.at) }
{
    match heap.look(at) {
        Look::Var(_, _) => false,
        Look::Int(_) => false,
        Look::Atom => false,
        Look::Func(own) => own == arity && has_name(heap, at, name),
    }
}

/// Whether the term is an atom or a compound of this name.
fn has_name(heap: &Heap, at: Ref, name: &Name) -> bool
    requires { at.at < length heap.now.terms }
    ensures { result ≡ has_name name.now (name_of (instance_at heap.now at.at)) }
{
    match heap.name(at) {
        Some(own) => own == name,
        None => false,
    }
}
