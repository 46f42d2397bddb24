ghost use Rattle.std.specs.Prelude.{◌≡◌, ◌<◌, ◌&&◌, None, Some, length, IfOk, IfSome, MatchOption};
ghost use Rattle.cp_declaration.specs.Lists.{name, names, one_name, before, at_end, is_empty_list, is_package_name, is_one_package, are_packages};

use crate::cells::{is_dot, is_empty_list};
use crate::words::is_package;
use cp_list::ListOf;
use cp_term::{Cell, Name};
use std::alloc::{AllocError, Global};

pub type Names = ListOf<Name>;

/// The first element of a list whose elements are one cell, and the cells behind it.
#[derive(Clone, Copy, Drop)]
struct Element<'a> {
    cell: &'a Cell,
    behind: &'a [Cell],
}

/// The names of a list of atoms.
pub(crate) fn names(alloc: Global, cells: &[Cell]) -> Result<Option<Names>, AllocError>
    ensures { IfOk result (λ found. found ≡ names cells.now) }
{
    let mut names = Names::new(alloc);
    let mut rest = cells;
    'elements: while let Some(element) = first_element(rest) {
        match name(element.cell) {
            Some(name) => names.push(name.clone()?)?,
            None => return Ok(None),
        }
        rest = element.behind;
    }
    if is_empty_list(rest) {
        Ok(Some(names))
    } else {
        Ok(None)
    }
}

/// The list of the name that an atom is.
pub(crate) fn one_name(alloc: Global, cells: &[Cell]) -> Result<Option<Names>, AllocError>
    ensures { IfOk result (λ found. found ≡ one_name cells.now) }
{
    match cells {
        [Cell::Atom(name)] => {
            let mut names = Names::new(alloc);
            names.push(name.clone()?)?;
            Ok(Some(names))
        }
        _ => Ok(None),
    }
}

/// Whether the cells are a list of packages that a file may use.
pub(crate) fn are_packages(cells: &[Cell]) -> bool
    ensures { result ≡ are_packages cells.now }
{
    let mut rest = cells;
    'elements: while let Some(element) = first_element(rest) {
        if !is_package_name(element.cell) {
            return false;
        }
        rest = element.behind;
    }
    is_empty_list(rest)
}

/// Whether the cells are one package that a file may use.
pub(crate) fn is_one_package(cells: &[Cell]) -> bool
    ensures { result ≡ is_one_package cells.now }
{
    match cells {
        [cell] => is_package_name(cell),
        _ => false,
    }
}

fn is_package_name(cell: &Cell) -> bool
    ensures { result ≡ is_package_name cell.now }
{
    match cell {
        Cell::Atom(name) => is_package(name.bytes()),
        Cell::Var(_) => false,
        Cell::Int(_) => false,
        Cell::Func(_, _) => false,
    }
}

/// The name that an atom is.
fn name(cell: &Cell) -> Option<&Name>
    ensures { MatchOption result (name cell.now ≡ None) (λ found. name cell.now ≡ Some found.now) }
{
    match cell {
        Cell::Atom(name) => Some(name),
        Cell::Var(_) => None,
        Cell::Int(_) => None,
        Cell::Func(_, _) => None,
    }
}

fn first_element(list: &[Cell]) -> Option<Element<'_>>
    ensures names { MatchOption result (names list.now ≡ at_end list.now) (λ element. names list.now ≡ before (name element.cell.now) (names element.behind.now)) }
    ensures packages { MatchOption result (are_packages list.now ≡ is_empty_list list.now) (λ element. are_packages list.now ≡ (is_package_name element.cell.now && are_packages element.behind.now)) }
    ensures less { IfSome result (λ element. length element.behind.now < length list.now) }
{
    match list {
        [dot, cell, behind @ ..] => {
            if is_dot(dot) {
                Some(Element { cell, behind })
            } else {
                None
            }
        }
        _ => None,
    }
}
