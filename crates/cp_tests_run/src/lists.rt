use cp_heap::Heap;
use cp_lists::{Spine, TextError, codes_list, digits_list, number_of, text_of, utf8_of};
use cp_term::{Cell, Cells, Name, Term};
use std::alloc::Global;
use std::test::Fail;

/// A list of these cells before this end.
fn list(alloc: Global, elements: &[Cell], end: Cell) -> Result<Term, Fail> {
    let mut cells = Cells::new(alloc);
    for element in elements {
        cells.push(Cell::Func(Name::of(alloc, b".")?, 2))?;
        cells.push(element.clone()?)?;
    }
    cells.push(end)?;
    Ok(Term::from_cells(cells)?)
}

fn empty(alloc: Global) -> Result<Cell, Fail> {
    Ok(Cell::Atom(Name::of(alloc, b"[]")?))
}

/// How many elements the list has; -1 where it is partial, -2 where it is none.
fn elements(alloc: Global, list: &Term) -> Result<i64, Fail> {
    let mut heap = Heap::new(alloc);
    let at = heap.import(list)?;
    match Spine::of(alloc, &heap, at)? {
        Spine::Proper(places) => Ok(i64::from(places.len())),
        Spine::Partial => Ok(-1),
        Spine::Improper => Ok(-2),
    }
}

#[test]
fn a_term_is_a_list_or_not(rt: HostRuntime) -> Result<(), Fail> {
    let alloc = rt.alloc();
    let two = [Cell::Int(7), Cell::Var(0)];
    assert_eq!(rt; elements(alloc, &list(alloc, &two, empty(alloc)?)?)?, 2);
    assert_eq!(rt; elements(alloc, &list(alloc, &two, Cell::Var(0))?)?, -1);
    assert_eq!(rt; elements(alloc, &list(alloc, &two, Cell::Int(7))?)?, -2);
    Ok(())
}

/// What reading a text comes to: its length, or a number for the error.
fn text(alloc: Global, list: &Term) -> Result<i64, Fail> {
    let mut heap = Heap::new(alloc);
    let at = heap.import(list)?;
    match text_of(alloc, &heap, at) {
        Ok(text) => Ok(i64::from(text.len())),
        Err(TextError::Unbound) => Ok(-1),
        Err(TextError::NotList(_)) => Ok(-2),
        Err(TextError::NotInteger(_)) => Ok(-3),
        Err(TextError::NotCode) => Ok(-4),
        Err(TextError::NoMemory) => Ok(-5),
    }
}

/// What reading the list of these integers comes to.
fn integers(alloc: Global, integers: &[i64]) -> Result<i64, Fail> {
    let mut elements = Cells::new(alloc);
    for integer in integers {
        elements.push(Cell::Int(*integer))?;
    }
    text(alloc, &list(alloc, elements.as_slice(), empty(alloc)?)?)
}

#[test]
fn a_text_has_codes_or_a_first_error(rt: HostRuntime) -> Result<(), Fail> {
    let alloc = rt.alloc();
    assert_eq!(rt; integers(alloc, &[0, 0xD7FF, 0xE000, 0x10FFFF])?, 4);
    assert_eq!(rt; integers(alloc, &[97, 0xD800])?, -4);
    assert_eq!(rt; integers(alloc, &[0x110000])?, -4);
    let bad = [Cell::Int(97), Cell::Int(0xD800), Cell::Var(0)];
    assert_eq!(rt; text(alloc, &list(alloc, &bad, Cell::Var(1))?)?, -1);
    assert_eq!(rt; text(alloc, &list(alloc, &bad, Cell::Int(1))?)?, -2);
    Ok(())
}

#[test]
fn a_text_is_written_and_read_again(rt: HostRuntime) -> Result<(), Fail> {
    let alloc = rt.alloc();
    let mut heap = Heap::new(alloc);
    let at = codes_list(alloc, &mut heap, "a\u{e9}\u{10ffff}")?;
    match text_of(alloc, &heap, at) {
        Ok(text) => {
            let bytes = utf8_of(alloc, text.as_slice())?;
            assert_eq!(rt; bytes.as_str(), "a\u{e9}\u{10ffff}");
        }
        Err(_) => panic!(rt; "no text"),
    }
    Ok(())
}

#[test]
fn an_integer_has_its_digits(rt: HostRuntime) -> Result<(), Fail> {
    let alloc = rt.alloc();
    let mut heap = Heap::new(alloc);
    let at = digits_list(alloc, &mut heap, -120)?;
    match text_of(alloc, &heap, at) {
        Ok(text) => assert_eq!(rt; number_of(text.as_slice()), Some(-120)),
        Err(_) => panic!(rt; "no text"),
    }
    Ok(())
}

fn long(alloc: Global, count: u32) -> Result<String, Fail> {
    let mut text = String::new(alloc);
    for _ in 0..count {
        text.push('x')?;
    }
    Ok(text)
}

#[test]
fn a_long_list_takes_no_stack(rt: HostRuntime) -> Result<(), Fail> {
    let alloc = rt.alloc();
    let mut heap = Heap::new(alloc);
    let text = long(alloc, 200_000)?;
    let at = codes_list(alloc, &mut heap, text.as_str())?;
    match text_of(alloc, &heap, at) {
        Ok(text) => assert_eq!(rt; text.len(), 200_000),
        Err(_) => panic!(rt; "no text"),
    }
    Ok(())
}
