use crate::building::Part::{Atom, Func, Int, Var};
use crate::building::{Part, term_of};
use cp_arith::{EvalError, eval};
use cp_heap::Heap;
use cp_term::Term;
use std::alloc::{AllocError, Global};
use std::test::Fail;

/// An expression, with its value or the kind of its error.
const EXPRESSIONS: [(&[Part], Result<i64, &[Part]>); 3] = [
    (
        &[Func(b"+", 2), Int(1), Func(b"*", 2), Int(2), Int(3)],
        Ok(7),
    ),
    (
        &[Func(b"+", 2), Int(1), Var(0)],
        Err(&[Atom(b"instantiation_error")]),
    ),
    (
        &[Func(b"*", 2), Int(2), Int(9223372036854775807)],
        Err(&[Func(b"evaluation_error", 1), Atom(b"int_overflow")]),
    ),
];

fn value(alloc: Global, expression: &Term) -> Result<Result<i64, EvalError>, AllocError> {
    let mut heap = Heap::new(alloc);
    let at = heap.import(expression)?;
    Ok(eval(alloc, &heap, at))
}

fn has_value(
    alloc: Global,
    expression: &[Part],
    wanted: &Result<i64, &[Part]>,
) -> Result<bool, Fail> {
    let value = value(alloc, &term_of(alloc, expression)?)?;
    match (value, wanted) {
        (Ok(value), Ok(wanted)) => Ok(value == *wanted),
        (Err(EvalError::Raised(kind)), Err(wanted)) => Ok(kind == term_of(alloc, wanted)?),
        _ => Ok(false),
    }
}

#[test]
fn an_expression_has_a_value_or_raises_an_error(rt: HostRuntime) -> Result<(), Fail> {
    for (expression, wanted) in EXPRESSIONS.iter() {
        assert!(rt; has_value(rt.alloc(), expression, wanted)?);
    }
    Ok(())
}
