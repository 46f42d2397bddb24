use crate::building::{Part, term_of};
use cp_ops::OpTable;
use cp_term::{Cell, Cells, Name, Term};
use cp_write::{write_text, writeq_text};
use std::alloc::Global;
use std::test::Fail;

/// Terms with their quoted text under the standard operators.
const QUOTED: [(&[Part], &[u8]); 12] = [
    (&[Part::Func(b"-", 1), Part::Int(1)], b"- 1"),
    (
        &[Part::Func(b"-", 2), Part::Int(1), Part::Int(-1)],
        b"1- -1",
    ),
    (
        &[
            Part::Func(b"=", 2),
            Part::Atom(b"a"),
            Part::Func(b"\\", 1),
            Part::Atom(b"b"),
        ],
        b"a= \\ b",
    ),
    (
        &[
            Part::Func(b"-", 1),
            Part::Func(b"+", 2),
            Part::Atom(b"a"),
            Part::Atom(b"b"),
        ],
        b"- (a+b)",
    ),
    (
        &[
            Part::Func(b"^", 2),
            Part::Func(b"-", 1),
            Part::Int(1),
            Part::Int(2),
        ],
        b"(- 1)^2",
    ),
    (
        &[
            Part::Func(b":-", 2),
            Part::Atom(b"a"),
            Part::Func(b",", 2),
            Part::Atom(b"b"),
            Part::Atom(b"c"),
        ],
        b"a:-b,c",
    ),
    (
        &[Part::Func(b"f", 1), Part::Func(b":-", 1), Part::Atom(b"a")],
        b"f((:- a))",
    ),
    (
        &[
            Part::Func(b":", 2),
            Part::Atom(b"m"),
            Part::Func(b"/", 2),
            Part::Atom(b"is"),
            Part::Int(2),
        ],
        b"m:(is)/2",
    ),
    (
        &[
            Part::Func(b".", 2),
            Part::Atom(b"a"),
            Part::Func(b".", 2),
            Part::Func(b",", 2),
            Part::Atom(b"b"),
            Part::Atom(b"c"),
            Part::Var(0),
        ],
        b"[a,(b,c)|_0]",
    ),
    (
        &[
            Part::Func(b"{}", 1),
            Part::Func(b":-", 2),
            Part::Atom(b"a"),
            Part::Atom(b"-"),
        ],
        b"{a:-(-)}",
    ),
    (
        &[Part::Atom(b"\n\t\x01\\'\x7f")],
        b"'\\n\\t\\x1\\\\\\\\'\\x7f\\'",
    ),
    (&[Part::Int(-9223372036854775808)], b"-9223372036854775808"),
];

#[test]
fn terms_are_written_with_quotes(rt: HostRuntime) -> Result<(), Fail> {
    let ops = OpTable::standard(rt.alloc())?;
    for (parts, text) in QUOTED.iter() {
        let term = term_of(rt.alloc(), parts)?;
        let written = writeq_text(rt.alloc(), &term, &ops)?;
        assert_eq!(rt; written.as_slice(), *text);
    }
    Ok(())
}

/// Terms with their text without quotes.
const BARE: [(&[Part], &[u8]); 3] = [
    (&[Part::Func(b"f", 1), Part::Atom(b"it's")], b"f(it's)"),
    (&[Part::Func(b"[]", 1), Part::Atom(b"A b")], b"[](A b)"),
    (
        &[Part::Func(b"=", 2), Part::Atom(b"a+"), Part::Atom(b"")],
        b"a+ =",
    ),
];

#[test]
fn terms_are_written_without_quotes(rt: HostRuntime) -> Result<(), Fail> {
    let ops = OpTable::standard(rt.alloc())?;
    for (parts, text) in BARE.iter() {
        let term = term_of(rt.alloc(), parts)?;
        let written = write_text(rt.alloc(), &term, &ops)?;
        assert_eq!(rt; written.as_slice(), *text);
    }
    Ok(())
}

/// f(f(.. f(a) ..)), so many times.
fn nested(alloc: Global, depth: u32) -> Result<Term, Fail> {
    let name = Name::of(alloc, b"f")?;
    let mut cells = Cells::new(alloc);
    for _ in 0..depth {
        cells.push(Cell::Func(name.clone()?, 1))?;
    }
    cells.push(Cell::Int(1))?;
    let term = Term::from_cells(cells)?;
    Ok(term)
}

#[test]
fn deep_terms_are_written(rt: HostRuntime) -> Result<(), Fail> {
    let ops = OpTable::standard(rt.alloc())?;
    let term = nested(rt.alloc(), 200000)?;
    let written = writeq_text(rt.alloc(), &term, &ops)?;
    assert_eq!(rt; written.len(), 600001);
    Ok(())
}
