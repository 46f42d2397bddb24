ghost use Rattle.std.specs.Prelude.{◌≡◌, IfOk};
ghost use Rattle.cp_call.specs.declared.outcome.FactRow.{FactRow};
ghost use Rattle.cp_call.specs.Object.{woken_by, left_parked, callers_of};
ghost use Rattle.cp_fact.specs.Effect.{without_caller};

use crate::look::sees_fact;
use cp_call::{Callers, FactRow, ParkedRow};
use cp_list::ReservedList;
use cp_term::Term;
use std::alloc::{AllocError, Global};

/// The parked callers that a fact wakes, and the rows of those that it leaves parked.
#[derive(Drop)]
pub struct Woken {
    pub callers: Callers,
    pub left: ReservedList<ParkedRow>,
}

pub fn copy_row(row: &ParkedRow) -> Result<ParkedRow, AllocError>
    ensures { IfOk result (λ copy. copy ≡ row.now) }
{
    Ok(ParkedRow {
        caller: row.caller,
        pattern: row.pattern.copy()?,
        after: row.after,
    })
}

/// Whom a new fact wakes, and whom it leaves parked.
pub fn wakes(alloc: Global, parked: &[ParkedRow], fact: &FactRow) -> Result<Woken, AllocError>
    ensures callers { IfOk result (λ woken. woken.callers ≡ callers_of (woken_by fact.now parked.now)) }
    ensures left { IfOk result (λ woken. woken.left.items ≡ left_parked fact.now parked.now) }
{
    let mut callers = Callers::new(alloc);
    let mut left = ReservedList::new(alloc);
    for row in parked {
        if sees_fact(alloc, &row.pattern, row.after, fact)? {
            callers.push(row.caller)?;
        } else {
            left.push(copy_row(row)?)?;
        }
    }
    Ok(Woken { callers, left })
}

/// The numbers of all parked callers.
pub fn all_callers(alloc: Global, parked: &[ParkedRow]) -> Result<Callers, AllocError>
    ensures { IfOk result (λ callers. callers ≡ callers_of parked.now) }
{
    let mut callers = Callers::new(alloc);
    for row in parked {
        callers.push(row.caller)?;
    }
    Ok(callers)
}

/// The parked callers but for this one.
pub fn without(
    alloc: Global,
    parked: &[ParkedRow],
    caller: u32,
) -> Result<ReservedList<ParkedRow>, AllocError>
    ensures { IfOk result (λ left. left.items ≡ without_caller caller parked.now) }
{
    let mut left = ReservedList::new(alloc);
    for row in parked {
        if row.caller != caller {
            left.push(copy_row(row)?)?;
        }
    }
    Ok(left)
}
