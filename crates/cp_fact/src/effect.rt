ghost use Rattle.std.specs.Prelude.{◌≡◌, ◌<◌, IfOk, length, filter, not, ℤ, pos, ◌+ℤ◌, ◌-ℤ◌, ◌&&◌};
ghost use Rattle.cp_term.specs.Unification.{unifiable_apart};
ghost use Rattle.cp_call.specs.declared.outcome.FactRow.{FactRow};
ghost use Rattle.cp_call.specs.Object.{State, step, adds_front, adds_back, replaces, purges, finds, finds_nothing, removes, closes, reopens, leaves, first_seen, suspends, can_park, is_parked};
ghost use Rattle.cp_fact.specs.Contents.{state_in, facts_after, parked_after};
ghost use Rattle.cp_fact.specs.Effect.{IsEffect, IsPlaced};

use crate::contents::{Change, Contents, FactsChange, ParkedChange};
use crate::look::{first_seen_at, is_parked_in, others};
use crate::waking::{Woken, all_callers, wakes, without};
use cp_call::{Call, Callers, FactRow, ObjectKind, ParkedRow, Reply};
use cp_list::ReservedList;
use cp_term::Term;
use std::alloc::{AllocError, Global};

/// What a call is to do: the reply, and what it changes.
#[derive(Drop)]
pub struct Effect {
    pub reply: Reply,
    pub change: Change,
}

/// A change of facts and parked callers alone.
pub fn change_of(contents: &Contents, facts: FactsChange, parked: ParkedChange) -> Change
    ensures facts { result.facts ≡ facts }
    ensures parked { result.parked ≡ parked }
    ensures lowest { result.lowest ≡ contents.now.lowest }
    ensures highest { result.highest ≡ contents.now.highest }
    ensures is_open { result.is_open ≡ contents.now.is_open }
{
    Change {
        facts,
        parked,
        lowest: contents.lowest,
        highest: contents.highest,
        is_open: contents.is_open,
    }
}

/// A reply that changes nothing.
pub fn only_replies(contents: &Contents, reply: Reply) -> Effect
    ensures { IsEffect (state_in contents.now) (record { state = state_in contents.now; reply = reply }) result }
{
    Effect {
        reply,
        change: change_of(contents, FactsChange::Keep, ParkedChange::Keep),
    }
}

/// Whether callers may wait on an object of this kind.
pub fn lets_wait(kind: ObjectKind) -> bool
    ensures { result ≡ suspends kind }
{
    match kind {
        ObjectKind::Plain => false,
        ObjectKind::Goals => true,
        ObjectKind::Ended => true,
        ObjectKind::Concurrent => true,
    }
}

/// Whether a look that finds nothing waits.
pub fn may_wait(contents: &Contents) -> bool
    ensures { result ≡ can_park (state_in contents.now) }
{
    lets_wait(contents.kind) && contents.is_open
}

/// A look that finds nothing, and waits or not.
pub fn missed(
    contents: &Contents,
    caller: u32,
    pattern: &Term,
    after: Option<i64>,
    waits: bool,
) -> Result<Effect, AllocError>
    ensures { IfOk result (IsEffect (state_in contents.now) (finds_nothing (state_in contents.now) caller pattern.now after waits)) }
{
    if !waits {
        return Ok(only_replies(contents, Reply::NoMore));
    }
    let row = ParkedRow {
        caller,
        pattern: pattern.copy()?,
        after,
    };
    Ok(Effect {
        reply: Reply::Parked,
        change: change_of(contents, FactsChange::Keep, ParkedChange::Add(row)),
    })
}

/// The reply that tells a fact.
pub fn found(row: &FactRow) -> Result<Reply, AllocError>
    ensures { IfOk result (λ reply. reply ≡ Reply.Found row.now.place row.now.fact) }
{
    Ok(Reply::Found {
        place: row.place,
        fact: row.fact.copy()?,
    })
}

/// A look for a fact, which stays.
pub fn looks(
    alloc: Global,
    contents: &Contents,
    caller: u32,
    pattern: &Term,
    after: Option<i64>,
    waits: bool,
) -> Result<Effect, AllocError>
    ensures { IfOk result (IsEffect (state_in contents.now) (finds (state_in contents.now) caller pattern.now after waits (first_seen contents.now.facts.items pattern.now after))) }
{
    match first_seen_at(alloc, contents.facts.as_slice(), pattern, after)? {
        Some(at) => Ok(only_replies(contents, found(&contents.facts[at])?)),
        None => missed(contents, caller, pattern, after, waits),
    }
}

/// A look for a fact, which is taken.
pub fn takes(
    alloc: Global,
    contents: &Contents,
    caller: u32,
    pattern: &Term,
    after: Option<i64>,
    waits: bool,
) -> Result<Effect, AllocError>
    requires { IsPlaced (state_in contents.now) }
    ensures { IfOk result (IsEffect (state_in contents.now) (removes (state_in contents.now) caller pattern.now after waits (first_seen contents.now.facts.items pattern.now after))) }
{
    match first_seen_at(alloc, contents.facts.as_slice(), pattern, after)? {
        Some(at) => Ok(Effect {
            reply: found(&contents.facts[at])?,
            change: change_of(contents, FactsChange::Remove(at), ParkedChange::Keep),
        }),
        None => missed(contents, caller, pattern, after, waits),
    }
}

/// The place in front of this one.
pub fn place_before(place: i64) -> Result<i64, AllocError>
    ensures { IfOk result (λ before. before ≡ (place -ℤ pos 1)) }
{
    match place.checked_sub(1) {
        Some(before) => Ok(before),
        None => Err(AllocError),
    }
}

/// The place behind this one.
pub fn place_behind(place: i64) -> Result<i64, AllocError>
    ensures { IfOk result (λ behind. behind ≡ (place +ℤ pos 1)) }
{
    match place.checked_add(1) {
        Some(behind) => Ok(behind),
        None => Err(AllocError),
    }
}

/// A fact is added in front of all others.
pub fn goes_front(alloc: Global, contents: &Contents, fact: &Term) -> Result<Effect, AllocError>
    ensures { IfOk result (IsEffect (state_in contents.now) (adds_front (state_in contents.now) fact.now)) }
{
    let place = place_before(contents.lowest)?;
    let row = FactRow {
        place,
        fact: fact.copy()?,
    };
    let Woken { callers, left } = wakes(alloc, contents.parked.as_slice(), &row)?;
    Ok(Effect {
        reply: Reply::Added {
            place,
            woken: callers,
        },
        change: Change {
            facts: FactsChange::AddFront(row),
            parked: ParkedChange::Set(left),
            lowest: place,
            highest: contents.highest,
            is_open: contents.is_open,
        },
    })
}

/// A fact is added behind all others.
pub fn goes_back(alloc: Global, contents: &Contents, fact: &Term) -> Result<Effect, AllocError>
    ensures { IfOk result (IsEffect (state_in contents.now) (adds_back (state_in contents.now) fact.now)) }
{
    let place = place_behind(contents.highest)?;
    let row = FactRow {
        place,
        fact: fact.copy()?,
    };
    let Woken { callers, left } = wakes(alloc, contents.parked.as_slice(), &row)?;
    Ok(Effect {
        reply: Reply::Added {
            place,
            woken: callers,
        },
        change: Change {
            facts: FactsChange::AddBack(row),
            parked: ParkedChange::Set(left),
            lowest: contents.lowest,
            highest: place,
            is_open: contents.is_open,
        },
    })
}

/// A fact takes the place of all others.
pub fn goes_alone(alloc: Global, contents: &Contents, fact: &Term) -> Result<Effect, AllocError>
    ensures { IfOk result (IsEffect (state_in contents.now) (replaces (state_in contents.now) fact.now)) }
{
    let place = place_behind(contents.highest)?;
    let row = FactRow {
        place,
        fact: fact.copy()?,
    };
    let Woken { callers, left } = wakes(alloc, contents.parked.as_slice(), &row)?;
    let mut rows = Vec::new(alloc);
    rows.push(row)?;
    Ok(Effect {
        reply: Reply::Replaced {
            place,
            woken: callers,
        },
        change: Change {
            facts: FactsChange::Set(rows),
            parked: ParkedChange::Set(left),
            lowest: contents.lowest,
            highest: place,
            is_open: contents.is_open,
        },
    })
}

/// Every fact that unifies with the pattern goes.
pub fn clears(alloc: Global, contents: &Contents, pattern: &Term) -> Result<Effect, AllocError>
    ensures { IfOk result (IsEffect (state_in contents.now) (purges (state_in contents.now) pattern.now)) }
{
    let rows = others(alloc, contents.facts.as_slice(), pattern)?;
    let count = contents.facts.len() - rows.len();
    if 0xffff_ffff < count {
        return Err(AllocError);
    }
    Ok(Effect {
        reply: Reply::Purged {
            count: count as u32,
        },
        change: change_of(contents, FactsChange::Set(rows), ParkedChange::Keep),
    })
}

/// The object is closed, where it can be.
pub fn shuts(alloc: Global, contents: &Contents) -> Result<Effect, AllocError>
    ensures { IfOk result (IsEffect (state_in contents.now) (closes (state_in contents.now) (suspends contents.now.kind))) }
{
    if !lets_wait(contents.kind) {
        return Ok(only_replies(
            contents,
            Reply::Closed {
                woken: Callers::new(alloc),
            },
        ));
    }
    let woken = all_callers(alloc, contents.parked.as_slice())?;
    Ok(Effect {
        reply: Reply::Closed { woken },
        change: Change {
            facts: FactsChange::Keep,
            parked: ParkedChange::Set(ReservedList::new(alloc)),
            lowest: contents.lowest,
            highest: contents.highest,
            is_open: false,
        },
    })
}

/// The object is opened, where it can be.
pub fn opens(contents: &Contents) -> Effect
    ensures { IsEffect (state_in contents.now) (reopens (state_in contents.now) (suspends contents.now.kind)) result }
{
    if !lets_wait(contents.kind) {
        return only_replies(contents, Reply::Reopened);
    }
    Effect {
        reply: Reply::Reopened,
        change: Change {
            facts: FactsChange::Keep,
            parked: ParkedChange::Keep,
            lowest: contents.lowest,
            highest: contents.highest,
            is_open: true,
        },
    }
}

/// A parked caller gives up.
pub fn quits(alloc: Global, contents: &Contents, caller: u32) -> Result<Effect, AllocError>
    ensures { IfOk result (IsEffect (state_in contents.now) (leaves (state_in contents.now) caller (is_parked (state_in contents.now) caller))) }
{
    if !is_parked_in(contents.parked.as_slice(), caller) {
        return Ok(only_replies(contents, Reply::NotParked));
    }
    let left = without(alloc, contents.parked.as_slice(), caller)?;
    Ok(Effect {
        reply: Reply::Left,
        change: change_of(contents, FactsChange::Keep, ParkedChange::Set(left)),
    })
}

/// What the call of this caller is to do.
pub fn effect_of(
    alloc: Global,
    contents: &Contents,
    caller: u32,
    call: &Call,
) -> Result<Effect, AllocError>
    requires { IsPlaced (state_in contents.now) }
    ensures { IfOk result (IsEffect (state_in contents.now) (step (state_in contents.now) caller call.now)) }
{
    let waits = may_wait(contents);
    match call {
        Call::AddFront { fact } => goes_front(alloc, contents, fact),
        Call::AddBack { fact } => goes_back(alloc, contents, fact),
        Call::Next { pattern, after } => looks(alloc, contents, caller, pattern, *after, waits),
        Call::Take { pattern, after } => takes(alloc, contents, caller, pattern, *after, waits),
        Call::NextNb { pattern, after } => looks(alloc, contents, caller, pattern, *after, false),
        Call::TakeNb { pattern, after } => takes(alloc, contents, caller, pattern, *after, false),
        Call::Purge { pattern } => clears(alloc, contents, pattern),
        Call::Replace { fact } => goes_alone(alloc, contents, fact),
        Call::Close => shuts(alloc, contents),
        Call::Reopen => Ok(opens(contents)),
        Call::Leave => quits(alloc, contents, caller),
    }
}
