use crate::building::{Part, cells_of, term_of};
use cp_term::{Term, TermError, unifiable};
use std::test::Fail;

const BOTH_SAME: &[Part] = &[Part::Func(b"f", 2), Part::Var(0), Part::Var(0)];

/// f(Y, g(Y))
const SECOND_LARGER: &[Part] = &[
    Part::Func(b"f", 2),
    Part::Var(0),
    Part::Func(b"g", 1),
    Part::Var(0),
];

fn sent<T: Send>(value: T) -> T {
    value
}

#[test]
fn a_copy_is_equal_and_can_be_sent(rt: HostRuntime) -> Result<(), Fail> {
    let term = sent(term_of(rt.alloc(), BOTH_SAME)?);
    let copy = term.copy()?;
    assert!(rt; copy.equal(&term));
    assert_eq!(rt; copy.size(), 3);
    Ok(())
}

#[test]
fn two_terms_are_not_one(rt: HostRuntime) -> Result<(), Fail> {
    let cells = cells_of(rt.alloc(), &[Part::Atom(b"a"), Part::Int(1)])?;
    assert!(rt; matches!(Term::from_cells(cells), Err(TermError::NotOneTerm(_))));
    Ok(())
}

#[test]
fn the_occurs_check_refuses(rt: HostRuntime) -> Result<(), Fail> {
    let both = term_of(rt.alloc(), BOTH_SAME)?;
    let inner = term_of(rt.alloc(), SECOND_LARGER)?;
    assert!(rt; !unifiable(rt.alloc(), &both, &inner)?);
    assert!(rt; unifiable(rt.alloc(), &both, &both)?);
    Ok(())
}
