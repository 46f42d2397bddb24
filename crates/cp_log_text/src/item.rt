ghost use Rattle.std.specs.Prelude.{◌≡◌, true, [], ◌∷◌, ◌++◌, IfOk, OnOk};
ghost use Rattle.cp_log_text.specs.Line.{functor, number};
ghost use Rattle.cp_log_text.specs.History.{call_parts, limit};
ghost use Rattle.cp_log_text.specs.Engine.{item_line, item_parts, event_parts, asked_parts, is_logged};
ghost use Rattle.cp_log_text.specs.Building.{Gains};

use crate::call::add_call;
use crate::line::Line;
use crate::remote::add_remote;
use crate::reply::add_limit;
use cp_call::{Call, FullBy, Item, Reply};
use std::alloc::{AllocError, Global};

/// The line of what an engine did.
pub(crate) fn item_line(alloc: Global, item: &Item) -> Result<Line, AllocError>
    requires { is_logged item.now ≡ true }
    ensures { IfOk result (λ line. line.cells ≡ item_line item.now) }
{
    let mut line = Line::new(alloc);
    add_item(&mut line, item)?;
    Ok(line)
}

fn add_item(line: &mut Line, item: &Item) -> Result<(), AllocError>
    requires { is_logged item.now ≡ true }
    ensures { OnOk result (Gains line.old line.new (item_parts item.now)) }
{
    line.functor(b"i", 1)?;
    add_event(line, item)?;
    Ok(())
}

fn add_event(line: &mut Line, item: &Item) -> Result<(), AllocError>
    requires { is_logged item.now ≡ true }
    ensures { OnOk result (Gains line.old line.new (event_parts item.now)) }
{
    match item {
        Item::Asked {
            object,
            call,
            reply,
        } => add_asked(line, *object, call, reply),
        Item::Wrote { bytes: _, reply: _ } => line.word(b"w"),
        Item::Remote { call, reply } => add_remote(line, call, reply),
        Item::Given { call: _ } => unreachable!(),
        Item::Answered { reply: _ } => unreachable!(),
    }
}

/// Adds a call that the engine made on a shared object.
fn add_asked(line: &mut Line, object: u32, call: &Call, reply: &Reply) -> Result<(), AllocError>
    ensures { OnOk result (Gains line.old line.new (asked_parts object call.now reply.now)) }
{
    match reply {
        Reply::Full { by, count } => add_refused(line, object, call, *by, *count),
        Reply::Added { place: _, woken: _ }
        | Reply::Found { place: _, fact: _ }
        | Reply::NoMore
        | Reply::Parked
        | Reply::Purged { count: _ }
        | Reply::Replaced { place: _, woken: _ }
        | Reply::Closed { woken: _ }
        | Reply::Reopened
        | Reply::Left
        | Reply::NotParked => add_entered(line, object),
    }
}

/// Adds a call that has an entry on the object.
fn add_entered(line: &mut Line, object: u32) -> Result<(), AllocError>
    ensures { OnOk result (Gains line.old line.new (functor "a" 1 ∷ number object ∷ [])) }
{
    line.functor(b"a", 1)?;
    line.number(object)?;
    Ok(())
}

/// Adds a call that was refused, since the object was full.
fn add_refused(
    line: &mut Line,
    object: u32,
    call: &Call,
    by: FullBy,
    count: u32,
) -> Result<(), AllocError>
    ensures { OnOk result (Gains line.old line.new (functor "f" 4 ∷ number object ∷ call_parts call.now ++ limit by ∷ number count ∷ [])) }
{
    line.functor(b"f", 4)?;
    line.number(object)?;
    add_call(line, call)?;
    add_limit(line, by, count)?;
    Ok(())
}
