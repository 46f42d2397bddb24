use cp_lex::tokens_of;
use cp_ops::OpTable;
use cp_read::{Bounds, ReadError, Reader, SyntaxWhy};
use cp_term::{Cell, Name, Term};
use std::alloc::{AllocError, Global};
use std::test::Fail;

/// A cell that is wanted.
enum Wanted {
    V(u32),
    I(i64),
    A(&'static [u8]),
    F(&'static [u8], u16),
}

use Wanted::{A, F, I, V};

fn is_wanted(cell: &Cell, wanted: &Wanted) -> bool {
    match (cell, wanted) {
        (Cell::Var(number), V(other)) => *number == *other,
        (Cell::Int(value), I(other)) => *value == *other,
        (Cell::Atom(name), A(other)) => name.bytes() == *other,
        (Cell::Func(name, arity), F(other, count)) => name.bytes() == *other && *arity == *count,
        _ => false,
    }
}

fn are_wanted(term: &Term, wanted: &[Wanted]) -> bool {
    let cells = term.cells();
    cells.len() == wanted.len()
        && cells
            .iter()
            .zip(wanted.iter())
            .all(|(cell, wanted)| is_wanted(cell, wanted))
}

const BOUNDS: Bounds = Bounds {
    cells: 4096,
    name: 1024,
};

fn reader(alloc: Global, text: &[u8]) -> Result<Reader, Fail> {
    if text.len() < u32::MAX as usize {
        Ok(Reader::new(alloc, tokens_of(alloc, text)?, BOUNDS))
    } else {
        Err(Fail::from(AllocError))
    }
}

/// The standard operators, and `foo`, `bar` and `/*`.
fn operators(alloc: Global) -> Result<OpTable, Fail> {
    let mut table = OpTable::standard(alloc)?;
    table.declare(100, &Name::of(alloc, b"fy")?, &Name::of(alloc, b"foo")?)?;
    table.declare(500, &Name::of(alloc, b"fy")?, &Name::of(alloc, b"bar")?)?;
    table.declare(700, &Name::of(alloc, b"xfx")?, &Name::of(alloc, b"/*")?)?;
    Ok(table)
}

const CLAUSES: [(&[u8], &[Wanted]); 14] = [
    (b"a -1.", &[F(b"-", 2), A(b"a"), I(1)]),
    (
        b"\"ab\".",
        &[F(b".", 2), I(97), F(b".", 2), I(98), A(b"[]")],
    ),
    (
        b"p(X, _, Y, X, _).",
        &[F(b"p", 5), V(0), V(1), V(2), V(0), V(3)],
    ),
    (b"[a, B|T].", &[F(b".", 2), A(b"a"), F(b".", 2), V(0), V(1)]),
    (
        b"{[ ], {}}.",
        &[F(b"{}", 1), F(b",", 2), A(b"[]"), A(b"{}")],
    ),
    (b"-9223372036854775808.", &[I(-9223372036854775808)]),
    (
        b"a - b - c.",
        &[F(b"-", 2), F(b"-", 2), A(b"a"), A(b"b"), A(b"c")],
    ),
    (
        b"a ^ b ^ c.",
        &[F(b"^", 2), A(b"a"), F(b"^", 2), A(b"b"), A(b"c")],
    ),
    (b"(- 1)^2 .", &[F(b"^", 2), F(b"-", 1), I(1), I(2)]),
    (
        b"m:(is)/2 .",
        &[F(b":", 2), A(b"m"), F(b"/", 2), A(b"is"), I(2)],
    ),
    (b"foo -1 .", &[F(b"foo", 1), I(-1)]),
    (
        b"(bar a)+b .",
        &[F(b"+", 2), F(b"bar", 1), A(b"a"), A(b"b")],
    ),
    (b"bar a+b .", &[F(b"bar", 1), F(b"+", 2), A(b"a"), A(b"b")]),
    (b"0 '/*' 1 .", &[F(b"/*", 2), I(0), I(1)]),
];

#[test]
fn clauses_are_read(rt: HostRuntime) -> Result<(), Fail> {
    let table = operators(rt.alloc())?;
    for (text, wanted) in CLAUSES.iter() {
        let mut reader = reader(rt.alloc(), text)?;
        let Some(clause) = reader.next_clause(&table)? else {
            return Err(Fail::new("no clause"));
        };
        assert!(rt; are_wanted(&clause.term, wanted));
        assert!(rt; reader.next_clause(&table)?.is_none());
    }
    Ok(())
}

/// How often a piece of a deep text stands there.
const TIMES: u32 = 50_000;

const TOO_LARGE: Option<ReadError> = Some(ReadError::Syntax {
    line: 1,
    why: SyntaxWhy::TooLarge,
});

/// What is repeated at the front of a text, what stands between, what is repeated behind it, and the refusal. Parentheses
/// make no cell; all others have more cells than the bounds.
const DEEP: [(&[u8], &[u8], &[u8], Option<ReadError>); 4] = [
    (b"(", b"a", b")", None),
    (b"\\+ ", b"a", b"", TOO_LARGE),
    (b"[a|", b"T", b"]", TOO_LARGE),
    (b"", b"[a", b",a", NOT_CLOSED),
];

const NOT_CLOSED: Option<ReadError> = Some(ReadError::Syntax {
    line: 1,
    why: SyntaxWhy::UnexpectedToken,
});

fn repeat(text: &mut Vec<u8>, piece: &[u8]) -> Result<(), AllocError> {
    for _ in 0..TIMES {
        text.extend_from_slice(piece)?;
    }
    Ok(())
}

fn deep_text(
    alloc: Global,
    front: &[u8],
    between: &[u8],
    behind: &[u8],
) -> Result<Vec<u8>, AllocError> {
    let mut text = Vec::new(alloc);
    repeat(&mut text, front)?;
    text.extend_from_slice(between)?;
    repeat(&mut text, behind)?;
    text.extend_from_slice(b" .")?;
    Ok(text)
}

#[test]
fn deep_texts_are_read(rt: HostRuntime) -> Result<(), Fail> {
    let table = operators(rt.alloc())?;
    for (front, between, behind, refusal) in DEEP.iter() {
        let text = deep_text(rt.alloc(), front, between, behind)?;
        let mut reader = reader(rt.alloc(), text.as_slice())?;
        assert_eq!(rt; reader.next_clause(&table).err(), *refusal);
    }
    Ok(())
}
