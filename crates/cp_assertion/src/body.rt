ghost use Rattle.std.specs.Prelude.{◌≡◌, take, drop, reverse, IfOk, OnOk};
ghost use Rattle.cp_term.specs.Preorder.{arity_of};
ghost use Rattle.cp_goal.specs.Folds.{of_terms};
ghost use Rattle.cp_assertion.specs.RegularTypes.{part_of, compound_part, demands_of};

use crate::body_part::BodyPart;
use crate::demand::Demands;
use cp_term::{Cell, Name};
use std::alloc::{AllocError, Global};

/// The properties that a body joins by commas; None where it holds another goal.
#[tactic(auto, unfolding(crate::specs::RegularTypes::demands_of))]
pub(crate) fn demands_of(alloc: Global, body: &[Cell]) -> Result<Option<Demands>, AllocError>
    ensures { IfOk result (λ ds. ds ≡ demands_of body.now) }
{
    let mut parts = parts_of(alloc, body)?;
    match parts.pop() {
        Some(part) => Ok(part.demands()),
        None => Ok(None),
    }
}

/// What the terms are that the cells are, the first one last.
fn parts_of(alloc: Global, cells: &[Cell]) -> Result<Vec<BodyPart>, AllocError>
    ensures { IfOk result (λ parts. reverse parts.items ≡ of_terms part_of cells.now) }
{
    let mut parts = Vec::new(alloc);
    let mut at = cells.len();
    'cells: while at > 0 {
        at -= 1;
        let part = taken(alloc, &cells[at], &mut parts)?;
        parts.push(part)?;
    }
    Ok(parts)
}

/// What the term is that begins with the cell and goes on with the last of the parts, which are taken out.
fn taken(alloc: Global, cell: &Cell, parts: &mut Vec<BodyPart>) -> Result<BodyPart, AllocError>
    ensures part { IfOk result (λ p. p ≡ part_of cell.now (take (arity_of cell.now) (reverse parts.old.items))) }
    ensures rest { OnOk result (reverse parts.new.items ≡ drop (arity_of cell.now) (reverse parts.old.items)) }
{
    match cell {
        Cell::Var(variable) => Ok(BodyPart::Variable(*variable)),
        Cell::Int(_) => Ok(BodyPart::Other),
        Cell::Atom(name) => Ok(BodyPart::Word(name.clone()?)),
        Cell::Func(name, count) => taken_compound(alloc, name, *count, parts),
    }
}

fn taken_compound(
    alloc: Global,
    name: &Name,
    count: u16,
    parts: &mut Vec<BodyPart>,
) -> Result<BodyPart, AllocError>
    ensures part { IfOk result (λ p. p ≡ compound_part name.now count (take count (reverse parts.old.items))) }
    ensures rest { OnOk result (reverse parts.new.items ≡ drop count (reverse parts.old.items)) }
{
    match count {
        1 => taken_one(alloc, name, parts),
        2 => taken_two(alloc, name, parts),
        _ => {
            taken_away(parts, count);
            Ok(BodyPart::Other)
        }
    }
}

fn taken_one(alloc: Global, name: &Name, parts: &mut Vec<BodyPart>) -> Result<BodyPart, AllocError>
    ensures part { IfOk result (λ p. p ≡ compound_part name.now 1 (take 1 (reverse parts.old.items))) }
    ensures rest { OnOk result (reverse parts.new.items ≡ drop 1 (reverse parts.old.items)) }
{
    match parts.pop() {
        Some(part) => part.demand(alloc, name),
        None => Ok(BodyPart::Other),
    }
}

fn taken_two(alloc: Global, name: &Name, parts: &mut Vec<BodyPart>) -> Result<BodyPart, AllocError>
    ensures part { IfOk result (λ p. p ≡ compound_part name.now 2 (take 2 (reverse parts.old.items))) }
    ensures rest { OnOk result (reverse parts.new.items ≡ drop 2 (reverse parts.old.items)) }
{
    let Some(first) = parts.pop() else {
        return Ok(BodyPart::Other);
    };
    let Some(second) = parts.pop() else {
        return Ok(BodyPart::Other);
    };
    BodyPart::binary(alloc, name, first, second)
}

/// Takes the last so many parts out.
fn taken_away(parts: &mut Vec<BodyPart>, count: u16)
    ensures { reverse parts.new.items ≡ drop count (reverse parts.old.items) }
{
    let mut taken: u16 = 0;
    'taking: while taken < count {
        take_away(parts);
        taken += 1;
    }
}

fn take_away(parts: &mut Vec<BodyPart>)
    ensures { reverse parts.new.items ≡ drop 1 (reverse parts.old.items) }
{
    let _ = parts.pop();
}
