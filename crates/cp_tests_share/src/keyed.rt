use crate::building::{q, q_any};
use cp_counted::key_of;
use cp_keyed::Index;
use cp_term::Term;
use std::alloc::AllocError;
use std::test::Fail;

/// Adds a row behind all others.
fn add(index: &mut Index<Term>, row: Term) -> Result<(), AllocError> {
    index.drop_ahead();
    let number = index.next_number()?;
    let key = key_of(&row)?;
    index.put_back(key, number, row)?;
    index.show();
    Ok(())
}

/// The number of the first row above one that agrees with a pattern.
fn first(
    index: &Index<Term>,
    pattern: &Term,
    after: Option<i64>,
) -> Result<Option<i64>, AllocError> {
    let key = key_of(pattern)?;
    let found = index.first_agreeing(&key, after)?;
    Ok(found.map(|row| row.0))
}

#[test]
fn rows_are_found_by_key(rt: HostRuntime) -> Result<(), Fail> {
    let alloc = rt.alloc();
    let mut index: Index<Term> = Index::new(alloc);
    add(&mut index, q(alloc, 7)?)?;
    add(&mut index, q(alloc, 8)?)?;
    add(&mut index, q(alloc, 7)?)?;
    let seven = first(&index, &q(alloc, 7)?, None)?;
    let eight = first(&index, &q(alloc, 8)?, None)?;
    assert_eq!(rt; first(&index, &q_any(alloc)?, seven)?, eight);
    assert!(rt; first(&index, &q(alloc, 7)?, seven)? > eight);
    assert_eq!(rt; first(&index, &q(alloc, 9)?, None)?, None);
    assert_eq!(rt; index.into_rows().len(), 3);
    Ok(())
}
