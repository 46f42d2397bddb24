ghost use Rattle.std.specs.Prelude.{◌≡◌, ◌<◌, ◌^◌, length, IfOk};
ghost use Rattle.cp_declaration.specs.Declarations.{begins_with_kind, is_assertion, of_assertions, of_predicates, of_one, of_two, of_three, said, is_declaration, declaration};

use crate::cells::split_term;
use crate::declaration::Declaration;
use crate::header::header;
use crate::imports::{use_active_module, use_module, use_of, use_package};
use crate::names::are_packages;
use crate::operators::op;
use crate::preds::{meta_predicate, regtype, shared};
use crate::words::{is_kind, is_status};
use cp_term::{Cell, Name, Term};
use std::alloc::{AllocError, Global};

/// What a clause `:- D` says. None where D is no declaration that is accepted, which is refused as BadDeclaration, and
/// where the clause is not of the form `:- D`.
pub fn declaration_of(alloc: Global, clause: &Term) -> Result<Option<Declaration>, AllocError>
    ensures { IfOk result (λ said. said ≡ declaration clause.now) }
{
    let cells = clause.cells();
    if !begins_declaration(cells) {
        return Ok(None);
    }
    match cells {
        [_, rest @ ..] => said(alloc, rest),
        [] => Ok(None),
    }
}

/// Whether a clause is of the form `:- D`.
pub fn is_declaration(clause: &Term) -> bool
    ensures { result ≡ is_declaration clause.now }
{
    begins_declaration(clause.cells())
}

fn begins_declaration(cells: &[Cell]) -> bool
    ensures { result ≡ is_declaration cells.now }
{
    match cells {
        [Cell::Func(name, 1), ..] => name.bytes() == b":-".as_slice(),
        _ => false,
    }
}

/// What D says.
fn said(alloc: Global, cells: &[Cell]) -> Result<Option<Declaration>, AllocError>
    requires { length cells.now < 2 ^ 32 }
    ensures { IfOk result (λ found. found ≡ said cells.now) }
{
    match cells {
        [Cell::Func(name, 1), cells @ ..] => of_one(alloc, name, cells),
        [Cell::Func(name, 2), cells @ ..] => {
            let (first, second) = split_term(cells);
            of_two(alloc, name, first, second)
        }
        [Cell::Func(name, 3), cells @ ..] => {
            let (first, rest) = split_term(cells);
            let (second, third) = split_term(rest);
            of_three(alloc, name, first, second, third)
        }
        _ => Ok(None),
    }
}

fn of_one(alloc: Global, name: &Name, cells: &[Cell]) -> Result<Option<Declaration>, AllocError>
    requires { length cells.now < 2 ^ 32 }
    ensures { IfOk result (λ found. found ≡ of_one name.now cells.now) }
{
    if name.bytes() == b"use_module".as_slice() {
        use_module(cells)
    } else if name.bytes() == b"use_package".as_slice() {
        Ok(use_package(cells))
    } else {
        of_predicates(alloc, name, cells)
    }
}

fn of_predicates(
    alloc: Global,
    name: &Name,
    cells: &[Cell],
) -> Result<Option<Declaration>, AllocError>
    requires { length cells.now < 2 ^ 32 }
    ensures { IfOk result (λ found. found ≡ of_predicates name.now cells.now) }
{
    if name.bytes() == b"concurrent".as_slice() {
        shared(alloc, true, cells)
    } else if name.bytes() == b"data".as_slice() {
        shared(alloc, false, cells)
    } else if name.bytes() == b"meta_predicate".as_slice() {
        meta_predicate(alloc, cells)
    } else {
        of_assertions(name, cells)
    }
}

fn of_assertions(name: &Name, cells: &[Cell]) -> Result<Option<Declaration>, AllocError>
    ensures { IfOk result (λ found. found ≡ of_assertions name.now cells.now) }
{
    if name.bytes() == b"regtype".as_slice() {
        regtype(cells)
    } else if name.bytes() == b"prop".as_slice() {
        Ok(Some(Declaration::Nothing))
    } else if is_assertion(name, cells) {
        Ok(Some(Declaration::Assertion))
    } else {
        Ok(None)
    }
}

/// `Kind Body` and `Status Kind Body`, by the word in front.
fn is_assertion(name: &Name, cells: &[Cell]) -> bool
    ensures { result ≡ is_assertion name.now cells.now }
{
    is_kind(name.bytes()) || (is_status(name.bytes()) && begins_with_kind(cells))
}

fn begins_with_kind(cells: &[Cell]) -> bool
    ensures { result ≡ begins_with_kind cells.now }
{
    match cells {
        [Cell::Func(name, 1), ..] => is_kind(name.bytes()),
        _ => false,
    }
}

fn of_two(
    alloc: Global,
    name: &Name,
    first: &[Cell],
    second: &[Cell],
) -> Result<Option<Declaration>, AllocError>
    ensures { IfOk result (λ found. found ≡ of_two name.now first.now second.now) }
{
    if name.bytes() == b"module".as_slice() {
        header(alloc, first, second)
    } else if name.bytes() == b"use_module".as_slice() {
        use_of(alloc, first, second)
    } else if name.bytes() == b"use_active_module".as_slice() {
        use_active_module(alloc, first, second)
    } else {
        Ok(None)
    }
}

fn of_three(
    alloc: Global,
    name: &Name,
    first: &[Cell],
    second: &[Cell],
    third: &[Cell],
) -> Result<Option<Declaration>, AllocError>
    ensures { IfOk result (λ found. found ≡ of_three name.now first.now second.now third.now) }
{
    if name.bytes() == b"module".as_slice() {
        if are_packages(third) {
            header(alloc, first, second)
        } else {
            Ok(None)
        }
    } else if name.bytes() == b"op".as_slice() {
        op(alloc, first, second, third)
    } else {
        Ok(None)
    }
}
