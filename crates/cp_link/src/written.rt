ghost use Rattle.std.specs.Prelude.{◌≡◌, ◌∷◌, take, drop, reverse, IfOk, OnOk};
ghost use Rattle.cp_term.specs.Preorder.{arity_of};
ghost use Rattle.cp_goal.specs.Folds.{of_terms};
ghost use Rattle.cp_code.specs.Clauses.{is_neck};
ghost use Rattle.cp_link.specs.Written.{nothing, of_compound, spot_at, second_inside, written_in};

use crate::spot::{Spot, WrittenGoals};
use cp_term::{Cell, Name};
use std::alloc::{AllocError, Global};

/// The goals that are written with another module in the body of a clause of a file of this module.
pub(crate) fn written_in(
    alloc: Global,
    own: &Name,
    clause: &[Cell],
) -> Result<WrittenGoals, AllocError>
    ensures { IfOk result (λ found. found ≡ written_in own.now clause.now) }
{
    match clause {
        [first, cells @ ..] => {
            if is_neck(first) {
                let spots = spots_of(alloc, own, cells)?;
                Ok(second_inside(alloc, spots))
            } else {
                Ok(WrittenGoals::new(alloc))
            }
        }
        [] => Ok(WrittenGoals::new(alloc)),
    }
}

/// `:-` with two arguments.
fn is_neck(cell: &Cell) -> bool
    ensures { result ≡ is_neck cell.now }
{
    match cell {
        Cell::Func(name, arity) => name.bytes() == b":-".as_slice() && *arity == 2,
        Cell::Var(_) => false,
        Cell::Int(_) => false,
        Cell::Atom(_) => false,
    }
}

/// What the second of the terms holds, the first of which comes last.
fn second_inside(alloc: Global, mut spots: Vec<Spot>) -> WrittenGoals
    ensures { result ≡ second_inside (reverse spots.items) }
{
    let Some(_) = spots.pop() else {
        return WrittenGoals::new(alloc);
    };
    match spots.pop() {
        Some(body) => body.inside,
        None => WrittenGoals::new(alloc),
    }
}

/// What the terms are that the cells are, the first one last.
fn spots_of(alloc: Global, own: &Name, cells: &[Cell]) -> Result<Vec<Spot>, AllocError>
    ensures { IfOk result (λ spots. reverse spots.items ≡ of_terms (spot_at own.now) cells.now) }
{
    let mut spots = Vec::new(alloc);
    let mut at = cells.len();
    'cells: while at > 0 {
        at -= 1;
        let spot = taken(alloc, own, &cells[at], &mut spots)?;
        spots.push(spot)?;
    }
    Ok(spots)
}

/// What the term is that begins with the cell and goes on with the last of the spots, which are taken out.
fn taken(alloc: Global, own: &Name, cell: &Cell, spots: &mut Vec<Spot>) -> Result<Spot, AllocError>
    ensures spot { IfOk result (λ spot. spot ≡ spot_at own.now cell.now (take (arity_of cell.now) (reverse spots.old.items))) }
    ensures rest { OnOk result (reverse spots.new.items ≡ drop (arity_of cell.now) (reverse spots.old.items)) }
{
    let first = cell.clone()?;
    match cell {
        Cell::Func(name, count) => taken_compound(alloc, own, first, name, *count, spots),
        Cell::Var(_) | Cell::Int(_) | Cell::Atom(_) => Ok(Spot::nothing(alloc, first)),
    }
}

fn taken_compound(
    alloc: Global,
    own: &Name,
    first: Cell,
    name: &Name,
    count: u16,
    spots: &mut Vec<Spot>,
) -> Result<Spot, AllocError>
    ensures spot { IfOk result (λ spot. spot ≡ of_compound own.now first name.now count (take count (reverse spots.old.items))) }
    ensures rest { OnOk result (reverse spots.new.items ≡ drop count (reverse spots.old.items)) }
{
    match count {
        1 => match spots.pop() {
            Some(spot) => Ok(Spot::of_one(alloc, first, name, spot)),
            None => Ok(Spot::nothing(alloc, first)),
        },
        2 => taken_two(alloc, own, first, name, spots),
        _ => {
            taken_away(spots, count);
            Ok(Spot::nothing(alloc, first))
        }
    }
}

fn taken_two(
    alloc: Global,
    own: &Name,
    first: Cell,
    name: &Name,
    spots: &mut Vec<Spot>,
) -> Result<Spot, AllocError>
    ensures spot { IfOk result (λ spot. spot ≡ of_compound own.now first name.now 2 (take 2 (reverse spots.old.items))) }
    ensures rest { OnOk result (reverse spots.new.items ≡ drop 2 (reverse spots.old.items)) }
{
    let Some(left) = spots.pop() else {
        return Ok(Spot::nothing(alloc, first));
    };
    let Some(right) = spots.pop() else {
        return Ok(Spot::nothing(alloc, first));
    };
    Spot::of_pair(alloc, own, first, name, left, right)
}

/// Takes the last so many spots out.
fn taken_away(spots: &mut Vec<Spot>, count: u16)
    ensures { reverse spots.new.items ≡ drop count (reverse spots.old.items) }
{
    let mut taken: u16 = 0;
    'taking: while taken < count {
        take_away(spots);
        taken += 1;
    }
}

fn take_away(spots: &mut Vec<Spot>)
    ensures { reverse spots.new.items ≡ drop 1 (reverse spots.old.items) }
{
    let _ = spots.pop();
}
