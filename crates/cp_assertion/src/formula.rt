ghost use Rattle.std.specs.Prelude.{◌≡◌, ◌∷◌, take, drop, IfOk, OnOk};
ghost use Rattle.std.specs.Option.{option_map};
ghost use Rattle.cp_term.specs.Preorder.{arity_of};
ghost use Rattle.cp_goal.specs.Folds.{of_terms};
ghost use Rattle.cp_code.specs.Programs.{prop_of};
ghost use Rattle.cp_assertion.specs.Formulas.{part_shown, stack_shown, part_of, compound_part, formula};

use crate::part::Part;
use cp_code::Prop;
use cp_term::{Cell, Name};
use std::alloc::{AllocError, Global};

/// The formula on so many arguments that a term is, if it is one. Its names are not looked up.
#[tactic(auto, unfolding(crate::specs::Formulas::formula))]
pub(crate) fn formula(alloc: Global, cells: &[Cell], arity: u16) -> Result<Option<Prop>, AllocError>
    ensures { IfOk result (λ p. option_map prop_of p ≡ formula arity cells.now) }
{
    let mut parts = parts_of(alloc, cells, arity)?;
    match parts.pop() {
        Some(part) => Ok(part.formula(arity)),
        None => Ok(None),
    }
}

/// What the terms are that the cells are, the first one last.
fn parts_of(alloc: Global, cells: &[Cell], arity: u16) -> Result<Vec<Part>, AllocError>
    ensures { IfOk result (λ parts. stack_shown parts.items ≡ of_terms (part_of arity) cells.now) }
{
    let mut parts = Vec::new(alloc);
    let mut at = cells.len();
    'cells: while at > 0 {
        at -= 1;
        let part = taken(alloc, &cells[at], arity, &mut parts)?;
        parts.push(part)?;
    }
    Ok(parts)
}

/// What the term is that begins with the cell and goes on with the last of the parts, which are taken out.
fn taken(alloc: Global, cell: &Cell, arity: u16, parts: &mut Vec<Part>) -> Result<Part, AllocError>
    ensures part { IfOk result (λ p. part_shown p ≡ part_of arity cell.now (take (arity_of cell.now) (stack_shown parts.old.items))) }
    ensures rest { OnOk result (stack_shown parts.new.items ≡ drop (arity_of cell.now) (stack_shown parts.old.items)) }
{
    match cell {
        Cell::Var(variable) => Ok(Part::Variable(*variable)),
        Cell::Int(_) => Ok(Part::Other),
        Cell::Atom(name) => Ok(Part::Word(name.clone()?)),
        Cell::Func(name, count) => taken_compound(alloc, name, *count, arity, parts),
    }
}

fn taken_compound(
    alloc: Global,
    name: &Name,
    count: u16,
    arity: u16,
    parts: &mut Vec<Part>,
) -> Result<Part, AllocError>
    ensures part { IfOk result (λ p. part_shown p ≡ compound_part arity name.now count (take count (stack_shown parts.old.items))) }
    ensures rest { OnOk result (stack_shown parts.new.items ≡ drop count (stack_shown parts.old.items)) }
{
    match count {
        1 => taken_one(name, arity, parts),
        2 => taken_two(alloc, name, arity, parts),
        _ => {
            taken_away(parts, count);
            Ok(Part::Other)
        }
    }
}

fn taken_one(name: &Name, arity: u16, parts: &mut Vec<Part>) -> Result<Part, AllocError>
    ensures part { IfOk result (λ p. part_shown p ≡ compound_part arity name.now 1 (take 1 (stack_shown parts.old.items))) }
    ensures rest { OnOk result (stack_shown parts.new.items ≡ drop 1 (stack_shown parts.old.items)) }
{
    match parts.pop() {
        Some(part) => part.property(name, arity),
        None => Ok(Part::Other),
    }
}

fn taken_two(
    alloc: Global,
    name: &Name,
    arity: u16,
    parts: &mut Vec<Part>,
) -> Result<Part, AllocError>
    ensures part { IfOk result (λ p. part_shown p ≡ compound_part arity name.now 2 (take 2 (stack_shown parts.old.items))) }
    ensures rest { OnOk result (stack_shown parts.new.items ≡ drop 2 (stack_shown parts.old.items)) }
{
    let Some(first) = parts.pop() else {
        return Ok(Part::Other);
    };
    let Some(second) = parts.pop() else {
        return Ok(Part::Other);
    };
    Part::binary(alloc, name, first, second, arity)
}

/// Takes the last so many parts out.
fn taken_away(parts: &mut Vec<Part>, count: u16)
    ensures { stack_shown parts.new.items ≡ drop count (stack_shown parts.old.items) }
{
    let mut taken: u16 = 0;
    'taking: while taken < count {
        take_away(parts);
        taken += 1;
    }
}

fn take_away(parts: &mut Vec<Part>)
    ensures { stack_shown parts.new.items ≡ drop 1 (stack_shown parts.old.items) }
{
    let _ = parts.pop();
}
