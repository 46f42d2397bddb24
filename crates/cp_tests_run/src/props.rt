use crate::building::Part::{Atom, Func, Int, Var};
use crate::building::{Part, term_of};
use cp_code::{Prop, Types};
use cp_heap::{Heap, Refs};
use cp_props::{has, holds};
use cp_term::{Name, Term};
use std::alloc::{AllocError, Global};
use std::test::Fail;

/// A property of the language, a term, and whether the term has it.
const PROPERTIES: [(&[u8], &[Part], bool); 6] = [
    (b"int", &[Int(7)], true),
    (b"int", &[Atom(b"a")], false),
    (b"gnd", &[Func(b"f", 1), Var(0)], false),
    (b"list", &[Func(b".", 2), Var(0), Atom(b"[]")], true),
    (b"list", &[Func(b".", 2), Var(0), Var(1)], false),
    (b"none", &[Int(7)], false),
];

fn term_has(alloc: Global, name: &Name, term: &Term) -> Result<bool, AllocError> {
    let mut heap = Heap::new(alloc);
    let at = heap.import(term)?;
    has(alloc, &Types::new(alloc), &heap, name, at)
}

#[test]
fn terms_have_properties_of_the_language(rt: HostRuntime) -> Result<(), Fail> {
    for (name, term, wanted) in PROPERTIES.iter() {
        let name = Name::of(rt.alloc(), name)?;
        let term = term_of(rt.alloc(), term)?;
        assert_eq!(rt; term_has(rt.alloc(), &name, &term)?, *wanted);
    }
    Ok(())
}

/// Whether a term is a list of terms of this property.
fn is_list_of(alloc: Global, element: Name, term: &Term) -> Result<bool, AllocError> {
    let mut heap = Heap::new(alloc);
    let at = heap.import(term)?;
    let mut args = Refs::new(alloc);
    args.push(at)?;
    let prop = Prop::ListOf { element, arg: 0 };
    holds(alloc, &Types::new(alloc), &heap, &prop, &args)
}

#[test]
fn a_list_has_elements_of_a_property(rt: HostRuntime) -> Result<(), Fail> {
    let list = term_of(rt.alloc(), &[Func(b".", 2), Int(7), Atom(b"[]")])?;
    assert!(rt; is_list_of(rt.alloc(), Name::of(rt.alloc(), b"int")?, &list)?);
    assert!(rt; !is_list_of(rt.alloc(), Name::of(rt.alloc(), b"atm")?, &list)?);
    Ok(())
}
