ghost use Rattle.std.specs.Prelude.{◌≡◌, ◌<◌, length, drop, IfOk, MatchOption};
ghost use Rattle.cp_declaration.specs.Lists.{indicator, indicators, joined, before, at_end};

use crate::cells::{Three, first_three, is_comma, is_dot, is_empty_list};
use cp_list::ListOf;
use cp_term::{Cell, Name};
use std::alloc::{AllocError, Global};

/// `p/n` in a declaration: a predicate's name and its number of arguments, from 0 to 255.
#[derive(Debug, Drop)]
pub struct Indicator {
    pub name: Name,
    pub arity: u16,
}

pub type Indicators = ListOf<Indicator>;

/// The predicates of a list of p/n.
pub(crate) fn indicators(alloc: Global, cells: &[Cell]) -> Result<Option<Indicators>, AllocError>
    ensures { IfOk result (λ preds. preds ≡ indicators cells.now) }
{
    let mut preds = Indicators::new(alloc);
    let mut rest = cells;
    'elements: while let Some(three) = first_element(rest) {
        match indicator_of(three.first, three.second, three.third)? {
            Some(pred) => preds.push(pred)?,
            None => return Ok(None),
        }
        rest = three.behind;
    }
    if is_empty_list(rest) {
        Ok(Some(preds))
    } else {
        Ok(None)
    }
}

/// The predicates of one p/n, or of several that are joined by commas.
pub(crate) fn joined(alloc: Global, cells: &[Cell]) -> Result<Option<Indicators>, AllocError>
    ensures { IfOk result (λ preds. preds ≡ joined cells.now) }
{
    let mut preds = Indicators::new(alloc);
    let mut rest = cells;
    'items: while let Some(three) = first_three(rest) {
        if is_comma(three.first) {
            rest = behind_first(rest);
            continue;
        }
        match indicator_of(three.first, three.second, three.third)? {
            Some(pred) => preds.push(pred)?,
            None => return Ok(None),
        }
        rest = three.behind;
    }
    if rest.is_empty() {
        Ok(Some(preds))
    } else {
        Ok(None)
    }
}

/// The predicate that three cells name as p/n.
fn indicator_of(first: &Cell, second: &Cell, third: &Cell) -> Result<Option<Indicator>, AllocError>
    ensures { IfOk result (λ pred. pred ≡ indicator first.now second.now third.now) }
{
    match (first, second, third) {
        (Cell::Func(functor, 2), Cell::Atom(name), Cell::Int(arity)) => {
            if functor.bytes() == b"/".as_slice() && 0 <= *arity && *arity <= 255 {
                Ok(Some(Indicator {
                    name: name.clone()?,
                    arity: *arity as u16,
                }))
            } else {
                Ok(None)
            }
        }
        _ => Ok(None),
    }
}

/// The three cells of the first element of a list whose elements are of the form p/n.
fn first_element(list: &[Cell]) -> Option<Three<'_>>
    ensures { MatchOption result (indicators list.now ≡ at_end list.now) (λ three. (indicators list.now ≡ before (indicator three.first.now three.second.now three.third.now) (indicators three.behind.now)) × (length three.behind.now < length list.now)) }
{
    match list {
        [dot, first, second, third, behind @ ..] => {
            if is_dot(dot) {
                Some(Three {
                    first,
                    second,
                    third,
                    behind,
                })
            } else {
                None
            }
        }
        _ => None,
    }
}

fn behind_first(cells: &[Cell]) -> &[Cell]
    ensures { result.now ≡ drop 1 cells.now }
{
    match cells {
        [_, behind @ ..] => behind,
        [] => cells,
    }
}
