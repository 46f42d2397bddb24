use crate::building::Part::{Atom, Func, Int, Var};
use crate::building::{Part, push_parts};
use cp_heap::{ExportError, Heap};
use cp_term::{Cell, Cells, Name, Term};
use cp_unify::{compare, unify};
use std::alloc::{AllocError, Global};
use std::cmp::Ordering;
use std::test::Fail;

/// The compound `=` of the two terms that are written out one behind the other.
fn equation(alloc: Global, parts: &[Part]) -> Result<Term, Fail> {
    let mut cells = Cells::new(alloc);
    push_parts(alloc, &mut cells, &[Func(b"=", 2)])?;
    push_parts(alloc, &mut cells, parts)?;
    let term = Term::from_cells(cells)?;
    Ok(term)
}

/// Whether the two arguments of a term unify.
fn arguments_unify(alloc: Global, term: &Term) -> Result<Option<bool>, AllocError> {
    let mut heap = Heap::new(alloc);
    let at = heap.import(term)?;
    let Some(left) = heap.argument(at, 0) else {
        return Ok(None);
    };
    let Some(right) = heap.argument(at, 1) else {
        return Ok(None);
    };
    Ok(Some(unify(alloc, &mut heap, left, right)?))
}

/// The order of the two arguments of a term.
fn arguments_order(alloc: Global, term: &Term) -> Result<Option<Ordering>, AllocError> {
    let mut heap = Heap::new(alloc);
    let at = heap.import(term)?;
    let Some(left) = heap.argument(at, 0) else {
        return Ok(None);
    };
    let Some(right) = heap.argument(at, 1) else {
        return Ok(None);
    };
    Ok(Some(compare(&heap, left, right)))
}

/// Whether the first argument of a term has too many cells to be exported.
fn is_too_large(alloc: Global, term: &Term) -> Result<bool, AllocError> {
    let mut heap = Heap::new(alloc);
    let at = heap.import(term)?;
    match heap.argument(at, 0) {
        Some(first) => Ok(matches!(heap.export(first), Err(ExportError::TooLarge))),
        None => Ok(false),
    }
}

const F: Part = Func(b"f", 2);

const G: Part = Func(b"g", 1);

const A: Part = Atom(b"a");

const B: Part = Atom(b"b");

const X: Part = Var(0);

const Y: Part = Var(1);

/// Two terms, and whether they unify.
const UNIFIED: [(&[Part], bool); 7] = [
    (&[F, X, X, F, Y, G, Y], false),
    (&[X, G, X], false),
    (&[F, X, Y, F, G, Y, G, X], false),
    (&[F, X, Y, F, Y, A], true),
    (&[F, X, G, Y, F, G, Y, X], true),
    (&[G, A, G, B], false),
    (&[G, A, A], false),
];

#[test]
fn terms_unify_with_the_occurs_check(rt: HostRuntime) -> Result<(), Fail> {
    for (parts, wanted) in UNIFIED.iter() {
        let term = equation(rt.alloc(), parts)?;
        assert_eq!(rt; arguments_unify(rt.alloc(), &term)?, Some(*wanted));
    }
    Ok(())
}

/// Two terms, and the order of the first to the second.
const ORDERED: [(&[Part], Ordering); 8] = [
    (&[X, Int(1)], Ordering::Less),
    (&[Int(-1), Int(1)], Ordering::Less),
    (&[Int(9), A], Ordering::Less),
    (&[B, A], Ordering::Greater),
    (&[B, G, A], Ordering::Less),
    (&[G, B, F, A, A], Ordering::Less),
    (&[F, A, B, F, B, A], Ordering::Less),
    (&[F, G, X, A, F, G, X, A], Ordering::Equal),
];

#[test]
fn terms_are_in_the_standard_order(rt: HostRuntime) -> Result<(), Fail> {
    for (parts, wanted) in ORDERED.iter() {
        let term = equation(rt.alloc(), parts)?;
        assert_eq!(rt; arguments_order(rt.alloc(), &term)?, Some(*wanted));
    }
    Ok(())
}

/// The compound `=` of two lists of 100,000 integers.
fn two_lists(alloc: Global) -> Result<Term, Fail> {
    let dot = Name::of(alloc, b".")?;
    let nil = Name::of(alloc, b"[]")?;
    let mut cells = Cells::new(alloc);
    push_parts(alloc, &mut cells, &[Func(b"=", 2)])?;
    for _ in 0..2u8 {
        for element in 0..100_000u32 {
            cells.push(Cell::Func(dot.clone()?, 2))?;
            cells.push(Cell::Int(element as i64))?;
        }
        cells.push(Cell::Atom(nil.clone()?))?;
    }
    Ok(Term::from_cells(cells)?)
}

#[test]
fn long_lists_need_no_deep_stack(rt: HostRuntime) -> Result<(), Fail> {
    let alloc = rt.alloc();
    let lists = two_lists(alloc)?;
    assert_eq!(rt; arguments_unify(alloc, &lists)?, Some(true));
    assert_eq!(rt; arguments_order(alloc, &lists)?, Some(Ordering::Equal));
    assert!(rt; is_too_large(alloc, &lists)?);
    Ok(())
}
