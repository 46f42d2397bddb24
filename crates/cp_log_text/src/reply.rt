ghost use Rattle.std.specs.Prelude.{[], ◌∷◌, ◌++◌, OnOk, map};
ghost use Rattle.cp_term.specs.declared.cell.Cell.TheVariants.{Func};
ghost use Rattle.cp_log_text.specs.Line.{functor, integer, number, element_parts};
ghost use Rattle.cp_log_text.specs.History.{reply_parts, woken_parts, limit};
ghost use Rattle.cp_log_text.specs.Building.{Gains};

use crate::line::Line;
use cp_call::{Callers, FullBy, Reply};
use cp_term::Term;
use std::alloc::AllocError;

/// Adds what a shared object replied.
pub(crate) fn add_reply(line: &mut Line, reply: &Reply) -> Result<(), AllocError>
    ensures { OnOk result (Gains line.old line.new (reply_parts reply.now)) }
{
    match reply {
        Reply::Added { place, woken } => add_woken_at(line, b"added", *place, woken),
        Reply::Found { place, fact } => add_found(line, *place, fact),
        Reply::NoMore => line.word(b"no_more"),
        Reply::Parked => line.word(b"parked"),
        Reply::Purged { count } => add_purged(line, *count),
        Reply::Replaced { place, woken } => add_woken_at(line, b"replaced", *place, woken),
        Reply::Closed { woken } => add_closed(line, woken),
        Reply::Reopened => line.word(b"reopened"),
        Reply::Left => line.word(b"left"),
        Reply::NotParked => line.word(b"not_parked"),
        Reply::Full { by, count } => add_full(line, *by, *count),
    }
}

fn add_woken_at(line: &mut Line, name: &[u8], place: i64, woken: &Callers) -> Result<(), AllocError>
    ensures { OnOk result (Gains line.old line.new ((Func name.now 2 ∷ []) ∷ integer place ∷ woken_parts woken.now)) }
{
    line.functor(name, 2)?;
    line.integer(place)?;
    add_woken(line, woken)?;
    Ok(())
}

fn add_found(line: &mut Line, place: i64, fact: &Term) -> Result<(), AllocError>
    ensures { OnOk result (Gains line.old line.new (functor "found" 2 ∷ integer place ∷ fact.now ∷ [])) }
{
    line.functor(b"found", 2)?;
    line.integer(place)?;
    line.term(fact)?;
    Ok(())
}

fn add_purged(line: &mut Line, count: u32) -> Result<(), AllocError>
    ensures { OnOk result (Gains line.old line.new (functor "purged" 1 ∷ number count ∷ [])) }
{
    line.functor(b"purged", 1)?;
    line.number(count)?;
    Ok(())
}

fn add_closed(line: &mut Line, woken: &Callers) -> Result<(), AllocError>
    ensures { OnOk result (Gains line.old line.new (functor "closed" 1 ∷ woken_parts woken.now)) }
{
    line.functor(b"closed", 1)?;
    add_woken(line, woken)?;
    Ok(())
}

fn add_full(line: &mut Line, by: FullBy, count: u32) -> Result<(), AllocError>
    ensures { OnOk result (Gains line.old line.new (functor "full" 2 ∷ limit by ∷ number count ∷ [])) }
{
    line.functor(b"full", 2)?;
    add_limit(line, by, count)?;
    Ok(())
}

/// Adds a limit that was reached, and the count that has reached it.
pub(crate) fn add_limit(line: &mut Line, by: FullBy, count: u32) -> Result<(), AllocError>
    ensures { OnOk result (Gains line.old line.new (limit by ∷ number count ∷ [])) }
{
    add_limit_name(line, by)?;
    line.number(count)?;
    Ok(())
}

fn add_limit_name(line: &mut Line, by: FullBy) -> Result<(), AllocError>
    ensures { OnOk result (Gains line.old line.new (limit by ∷ [])) }
{
    match by {
        FullBy::Entries => line.word(b"entries"),
        FullBy::Cells => line.word(b"cells"),
        FullBy::Posts => line.word(b"posts"),
    }
}

/// Adds the numbers of the callers that were woken, as a list.
fn add_woken(line: &mut Line, woken: &Callers) -> Result<(), AllocError>
    ensures { OnOk result (Gains line.old line.new (woken_parts woken.now)) }
{
    add_callers(line, woken.as_slice())?;
    line.word(b"[]")?;
    Ok(())
}

/// Adds callers as elements of a list, without its end.
fn add_callers(line: &mut Line, callers: &[u32]) -> Result<(), AllocError>
    ensures { OnOk result (Gains line.old line.new (element_parts (map number callers.now))) }
{
    'callers: for caller in callers {
        add_number(line, *caller)?;
    }
    Ok(())
}

/// Adds a number as an element of a list, without the rest of the list.
pub(crate) fn add_number(line: &mut Line, value: u32) -> Result<(), AllocError>
    ensures { OnOk result (Gains line.old line.new (functor "." 2 ∷ number value ∷ [])) }
{
    line.functor(b".", 2)?;
    line.number(value)?;
    Ok(())
}
