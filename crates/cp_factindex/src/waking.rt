ghost use Rattle.std.specs.Prelude.{◌≡◌, ◌≤◌, ◌+◌, IfOk};
ghost use Rattle.cp_call.specs.Object.{sees, callers_of};
ghost use Rattle.cp_counted.specs.Keys.{term_key};
ghost use Rattle.cp_factindex.specs.Contents.{parked_in};
ghost use Rattle.cp_factindex.specs.Woken.{IsWokenBy, steps_to_see};
ghost use Rattle.cp_factindex.specs.Steps.{steps_to_wake};

use crate::look::lies_above;
use crate::waiting::Waiting;
use cp_call::{Callers, FactRow, ParkedRow};
use cp_counted::{Key, Steps, key_of, unifiable_counted};
use cp_keyed::{Keyed, Spot};
use std::alloc::{AllocError, Global};
use std::sync::ledger::Ledger;

/// The parked callers that a fact wakes, with the keys and the numbers of their rows.
#[derive(Drop)]
pub struct Woken {
    pub callers: Callers,
    pub spots: Vec<Spot>,
}

/// Whether a parked caller sees the fact.
pub fn sees_fact<L: Ledger>(
    alloc: Global,
    row: &ParkedRow,
    fact: &FactRow,
    steps: &mut Steps<L>,
) -> Result<bool, AllocError>
    ensures seen { IfOk result (λ seen. seen ≡ sees row.now.pattern row.now.after fact.now) }
    ensures steps { steps.new ≡ steps.old + steps_to_see row.now fact.now }
{
    if !lies_above(row.after, fact.place) {
        return Ok(false);
    }
    unifiable_counted(alloc, &row.pattern, &fact.fact, steps)
}

/// Whom a new fact of this key wakes.
fn wakes_by<L: Ledger>(
    alloc: Global,
    waiting: &Waiting,
    key: &Key,
    fact: &FactRow,
    steps: &mut Steps<L>,
) -> Result<Woken, AllocError>
    requires whole { waiting.now.whole ≡ waiting.now.rows }
    requires key { key.now ≡ term_key fact.now.fact }
    ensures woken { IfOk result (λ woken. IsWokenBy fact.now waiting.now.rows woken) }
    ensures counted { steps.old ≤ steps.new }
    ensures steps { steps.new ≤ steps.old + steps_to_wake fact.now (parked_in waiting.now.rows) }
{
    let mut callers = Callers::new(alloc);
    let mut spots = Vec::new(alloc);
    let mut cursor = None;
    'rows: while let Some((number, waiter)) = waiting.first_agreeing(key, cursor)? {
        if sees_fact(alloc, &waiter.row, fact, steps)? {
            callers.push(waiter.row.caller)?;
            spots.push((waiter.key()?, number))?;
        }
        cursor = Some(number);
    }
    Ok(Woken { callers, spots })
}

/// Whom a new fact wakes.
pub fn wakes<L: Ledger>(
    alloc: Global,
    waiting: &Waiting,
    fact: &FactRow,
    steps: &mut Steps<L>,
) -> Result<Woken, AllocError>
    requires { waiting.now.whole ≡ waiting.now.rows }
    ensures woken { IfOk result (λ woken. IsWokenBy fact.now waiting.now.rows woken) }
    ensures counted { steps.old ≤ steps.new }
    ensures steps { steps.new ≤ steps.old + steps_to_wake fact.now (parked_in waiting.now.rows) }
{
    let key = key_of(&fact.fact)?;
    wakes_by(alloc, waiting, &key, fact, steps)
}

/// The numbers of all parked callers.
pub fn all_callers(alloc: Global, waiting: &Waiting) -> Result<Callers, AllocError>
    requires { waiting.now.whole ≡ waiting.now.rows }
    ensures { IfOk result (λ callers. callers ≡ callers_of (parked_in waiting.now.rows)) }
{
    let mut callers = Callers::new(alloc);
    let mut cursor = None;
    'rows: while let Some((number, waiter)) = waiting.first_agreeing(&Key::Missing, cursor)? {
        callers.push(waiter.row.caller)?;
        cursor = Some(number);
    }
    Ok(callers)
}
