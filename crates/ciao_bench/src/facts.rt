ghost use Rattle.std.specs.Prelude.{◌≤◌, IfOk};

use crate::object::Object;
use crate::pieces::{named, term_of};
use cp_call::{Call, Reply};
use cp_term::{Cell, Cells, Term};
use std::alloc::{AllocError, Global};

/// How many callers wait for a fact of their own.
const WAITERS: u32 = 1000;

/// Adds so many facts with different arguments behind the others, looks a tenth of them up by their arguments and takes
/// all out, the first one first. It counts what was found.
pub(crate) fn facts(alloc: Global, object: &mut Object, count: u32) -> Result<u64, AllocError> {
    fill(alloc, object, count)?;
    let looked = looked_up(alloc, object, count)?;
    let taken = taken(alloc, object, count)?;
    Ok(looked as u64 + taken as u64)
}

/// `facts` on a list of facts.
pub(crate) fn facts_listed(alloc: Global, count: u32) -> Result<u64, AllocError> {
    let mut object = Object::listed(alloc)?;
    facts(alloc, &mut object, count)
}

/// `facts` on facts by place and by key.
pub(crate) fn facts_indexed(alloc: Global, count: u32) -> Result<u64, AllocError> {
    let mut object = Object::indexed(alloc)?;
    facts(alloc, &mut object, count)
}

/// Callers wait, each for a fact of its own; so many facts are added, of which each wakes one, who waits again. It counts
/// who was woken.
pub(crate) fn waiters(alloc: Global, object: &mut Object, count: u32) -> Result<u64, AllocError> {
    all_wait(alloc, object)?;
    let found = woken(alloc, object, count)?;
    Ok(found as u64)
}

/// `waiters` on a list of parked callers.
pub(crate) fn waiters_listed(alloc: Global, count: u32) -> Result<u64, AllocError> {
    let mut object = Object::listed(alloc)?;
    waiters(alloc, &mut object, count)
}

/// `waiters` on parked callers by key.
pub(crate) fn waiters_indexed(alloc: Global, count: u32) -> Result<u64, AllocError> {
    let mut object = Object::indexed(alloc)?;
    waiters(alloc, &mut object, count)
}

/// q(C)
fn fact(alloc: Global, argument: Cell) -> Result<Term, AllocError> {
    let mut cells = Cells::new(alloc);
    cells.push(Cell::Func(named(alloc, b"q")?, 1))?;
    cells.push(argument)?;
    term_of(cells)
}

/// Adds so many facts behind the others.
fn fill(alloc: Global, object: &mut Object, count: u32) -> Result<(), AllocError> {
    for number in 0..count {
        let fact = fact(alloc, Cell::Int(number as i64))?;
        object.ask(1, &Call::AddBack { fact })?;
    }
    Ok(())
}

/// How many of every tenth fact were found by its argument.
fn looked_up(alloc: Global, object: &mut Object, count: u32) -> Result<u32, AllocError>
    ensures { IfOk result (λ found. found ≤ count) }
{
    let mut found = 0;
    for number in 0..count {
        if number % 10 == 0 && is_there(alloc, object, number)? {
            found += 1;
        }
    }
    Ok(found)
}

fn is_there(alloc: Global, object: &mut Object, number: u32) -> Result<bool, AllocError> {
    let pattern = fact(alloc, Cell::Int(number as i64))?;
    let reply = object.ask(
        1,
        &Call::NextNb {
            pattern,
            after: None,
        },
    )?;
    Ok(is_found(&reply))
}

/// How often the first fact was taken out, in so many tries.
fn taken(alloc: Global, object: &mut Object, count: u32) -> Result<u32, AllocError>
    ensures { IfOk result (λ found. found ≤ count) }
{
    let mut found = 0;
    for _ in 0..count {
        let pattern = fact(alloc, Cell::Var(0))?;
        let reply = object.ask(
            1,
            &Call::TakeNb {
                pattern,
                after: None,
            },
        )?;
        if is_found(&reply) {
            found += 1;
        }
    }
    Ok(found)
}

fn is_found(reply: &Reply) -> bool {
    match reply {
        Reply::Found { .. } => true,
        _ => false,
    }
}

/// Each caller asks for a fact of its own.
fn all_wait(alloc: Global, object: &mut Object) -> Result<(), AllocError> {
    for number in 0..WAITERS {
        wait(alloc, object, number)?;
    }
    Ok(())
}

/// How often a fact has woken the caller that waits for it, of so many facts.
fn woken(alloc: Global, object: &mut Object, count: u32) -> Result<u32, AllocError>
    ensures { IfOk result (λ found. found ≤ count) }
{
    let mut found = 0;
    for number in 0..count {
        if has_woken(alloc, object, number % WAITERS)? {
            found += 1;
        }
    }
    Ok(found)
}

/// The caller with this number asks for the fact of this number, and takes it or waits for it.
fn wait(alloc: Global, object: &mut Object, number: u32) -> Result<(), AllocError> {
    let pattern = fact(alloc, Cell::Int(number as i64))?;
    object.ask(
        number,
        &Call::Take {
            pattern,
            after: None,
        },
    )?;
    Ok(())
}

/// Whether the fact of this number has woken one caller. That one takes it, and waits for the next one.
fn has_woken(alloc: Global, object: &mut Object, number: u32) -> Result<bool, AllocError> {
    let fact = fact(alloc, Cell::Int(number as i64))?;
    let woken = match object.ask(WAITERS, &Call::AddBack { fact })? {
        Reply::Added { woken, .. } => woken.len() == 1,
        _ => false,
    };
    wait(alloc, object, number)?;
    wait(alloc, object, number)?;
    Ok(woken)
}
