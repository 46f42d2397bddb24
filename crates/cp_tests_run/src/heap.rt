ghost use Rattle.std.specs.Prelude.{◌<◌, length, OnOk};
ghost use Rattle.cp_heap.specs.State.{Extends};

use cp_heap::{Heap, Look, Ref};
use cp_term::{Cell, Cells, Name, Term};
use std::alloc::{AllocError, Global};
use std::test::Fail;

/// The compound f of these variables, with 7 in the place of one that is not given.
fn compound(alloc: Global, arguments: &[Option<u32>]) -> Result<Term, Fail>
    requires { length arguments.now < 256 }
{
    let mut cells = Cells::new(alloc);
    cells.push(Cell::Func(Name::of(alloc, b"f")?, arguments.len() as u16))?;
    for argument in arguments {
        cells.push(cell(*argument))?;
    }
    Ok(Term::from_cells(cells)?)
}

fn cell(argument: Option<u32>) -> Cell {
    match argument {
        Some(variable) => Cell::Var(variable),
        None => Cell::Int(7),
    }
}

/// The integer that an argument is, if it is one.
fn integer(heap: &Heap, at: Ref, index: u16) -> Option<i64>
    requires { at.at < length heap.now.terms }
{
    match heap.look(heap.argument(at, index)?) {
        Look::Int(integer) => Some(integer),
        _ => None,
    }
}

/// Binds an argument to another, where it is a variable and the other is an integer or an older variable.
fn bind_argument(heap: &mut Heap, at: Ref, index: u16, to: u16) -> Result<(), AllocError>
    requires { at.at < length heap.old.terms }
    ensures { OnOk result (Extends heap.old heap.new) }
{
    let _mark = heap.mark();
    let Some(first) = heap.argument(at, index) else {
        return Ok(());
    };
    let Some(second) = heap.argument(at, to) else {
        return Ok(());
    };
    let Look::Var(variable, number) = heap.look(first) else {
        return Ok(());
    };
    match heap.look(second) {
        Look::Int(_) => heap.bind(variable, second),
        Look::Var(_, older) if older < number => heap.bind(variable, second),
        _ => Ok(()),
    }
}

/// What the first argument is, bound and after that is taken back.
fn bound_and_back(heap: &mut Heap, at: Ref) -> Result<(Option<i64>, Option<i64>), AllocError>
    requires { at.at < length heap.old.terms }
{
    let mark = heap.mark();
    bind_argument(heap, at, 0, 1)?;
    let bound = integer(heap, at, 0);
    heap.undo_to(mark);
    let free = integer(heap, at, 0);
    Ok((bound, free))
}

#[test]
fn a_binding_is_seen_and_taken_back(rt: HostRuntime) -> Result<(), Fail> {
    let mut heap = Heap::new(rt.alloc());
    let at = heap.import(&compound(rt.alloc(), &[Some(0), None])?)?;
    assert_eq!(rt; bound_and_back(&mut heap, at)?, (Some(7), None));
    Ok(())
}

/// An instance of a term whose second argument is bound to its first, and the third to the fourth.
fn instance_of(alloc: Global, term: &Term) -> Result<Term, AllocError> {
    let mut heap = Heap::new(alloc);
    let at = heap.import(term)?;
    bind_argument(&mut heap, at, 1, 0)?;
    bind_argument(&mut heap, at, 2, 3)?;
    let made = heap.instance(at)?;
    heap.whole(made)
}

#[test]
fn an_instance_has_all_bindings(rt: HostRuntime) -> Result<(), Fail> {
    let term = compound(rt.alloc(), &[Some(0), Some(1), Some(2), None])?;
    let made = compound(rt.alloc(), &[Some(0), Some(0), None, None])?;
    assert_eq!(rt; instance_of(rt.alloc(), &term)?, made);
    Ok(())
}
