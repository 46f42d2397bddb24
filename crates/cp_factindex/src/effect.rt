ghost use Rattle.std.specs.Prelude.{◌≡◌, ◌≤◌, ◌+◌, ◌&&◌, true, false, not, IfOk, pos, ◌+ℤ◌, ◌-ℤ◌};
ghost use Rattle.cp_call.specs.Object.{step, adds_front, adds_back, replaces, purges, finds, finds_nothing, removes, closes, reopens, leaves, first_seen, suspends, can_park, is_parked};
ghost use Rattle.cp_call.specs.History.{is_leave};
ghost use Rattle.cp_factindex.specs.Contents.{state_in, facts_in, parked_in, IsFresh};
ghost use Rattle.cp_factindex.specs.Effect.{IsEffect, IsPlaced};
ghost use Rattle.cp_factindex.specs.Steps.{steps_to_look, steps_to_purge, steps_to_wake, steps_at};

use crate::contents::{Change, Contents, FactsChange, ParkedChange};
use crate::look::{first_seen_row, unifying};
use crate::waking::{Woken, all_callers, wakes};
use cp_call::{Call, Callers, FactRow, ObjectKind, ParkedRow, Reply};
use cp_counted::{Steps, key_of};
use cp_keyed::Index;
use cp_term::Term;
use std::alloc::{AllocError, Global};
use std::sync::ledger::Ledger;

/// What a call is to do: the reply, and what it changes.
#[derive(Drop)]
pub struct Effect {
    pub reply: Reply,
    pub change: Change,
}

/// A change of facts and parked callers alone.
pub fn change_of(contents: &Contents, facts: FactsChange, parked: ParkedChange) -> Change
    ensures facts { result.facts ≡ facts }
    ensures parked { result.parked ≡ parked }
    ensures lowest { result.lowest ≡ contents.now.lowest }
    ensures highest { result.highest ≡ contents.now.highest }
    ensures is_open { result.is_open ≡ contents.now.is_open }
{
    Change {
        facts,
        parked,
        lowest: contents.lowest,
        highest: contents.highest,
        is_open: contents.is_open,
    }
}

/// A reply that changes nothing.
pub fn only_replies(contents: &Contents, reply: Reply) -> Effect
    ensures { IsEffect contents.now (record { state = state_in contents.now; reply = reply }) result }
{
    Effect {
        reply,
        change: change_of(contents, FactsChange::Keep, ParkedChange::Keep),
    }
}

/// Whether callers may wait on an object of this kind.
pub fn lets_wait(kind: ObjectKind) -> bool
    ensures { result ≡ suspends kind }
{
    match kind {
        ObjectKind::Plain => false,
        ObjectKind::Goals => true,
        ObjectKind::Ended => true,
        ObjectKind::Concurrent => true,
    }
}

/// Whether a look that finds nothing waits.
pub fn may_wait(contents: &Contents) -> bool
    ensures { result ≡ can_park (state_in contents.now) }
{
    lets_wait(contents.kind) && contents.is_open
}

/// A look that finds nothing, and waits or not.
pub fn missed(
    contents: &mut Contents,
    caller: u32,
    pattern: &Term,
    after: Option<i64>,
    waits: bool,
) -> Result<Effect, AllocError>
    requires fresh { IsFresh contents.old }
    requires awake { waits ≡ true → is_parked (state_in contents.old) caller ≡ false }
    ensures effect { IfOk result (IsEffect contents.new (finds_nothing (state_in contents.old) caller pattern.now after waits)) }
    ensures state { state_in contents.new ≡ state_in contents.old }
{
    if !waits {
        return Ok(only_replies(contents, Reply::NoMore));
    }
    contents.waiting.put_ahead(ParkedRow {
        caller,
        pattern: pattern.copy()?,
        after,
    })?;
    Ok(Effect {
        reply: Reply::Parked,
        change: change_of(contents, FactsChange::Keep, ParkedChange::Show),
    })
}

/// A look for a fact, which stays.
pub fn looks<L: Ledger>(
    alloc: Global,
    contents: &mut Contents,
    caller: u32,
    pattern: &Term,
    after: Option<i64>,
    waits: bool,
    steps: &mut Steps<L>,
) -> Result<Effect, AllocError>
    requires fresh { IsFresh contents.old }
    requires awake { waits ≡ true → is_parked (state_in contents.old) caller ≡ false }
    ensures effect { IfOk result (IsEffect contents.new (finds (state_in contents.old) caller pattern.now after waits (first_seen (facts_in contents.old.facts.rows) pattern.now after))) }
    ensures state { state_in contents.new ≡ state_in contents.old }
    ensures counted { steps.old ≤ steps.new }
    ensures steps { steps.new ≤ steps.old + steps_to_look pattern.now after (facts_in contents.old.facts.rows) }
{
    match first_seen_row(alloc, &contents.facts, pattern, after, steps)? {
        Some(FactRow { place, fact }) => {
            Ok(only_replies(contents, Reply::Found { place, fact }))
        }
        None => missed(contents, caller, pattern, after, waits),
    }
}

/// A look for a fact, which is taken.
pub fn takes<L: Ledger>(
    alloc: Global,
    contents: &mut Contents,
    caller: u32,
    pattern: &Term,
    after: Option<i64>,
    waits: bool,
    steps: &mut Steps<L>,
) -> Result<Effect, AllocError>
    requires fresh { IsFresh contents.old }
    requires awake { waits ≡ true → is_parked (state_in contents.old) caller ≡ false }
    ensures effect { IfOk result (IsEffect contents.new (removes (state_in contents.old) caller pattern.now after waits (first_seen (facts_in contents.old.facts.rows) pattern.now after))) }
    ensures state { state_in contents.new ≡ state_in contents.old }
    ensures counted { steps.old ≤ steps.new }
    ensures steps { steps.new ≤ steps.old + steps_to_look pattern.now after (facts_in contents.old.facts.rows) }
{
    match first_seen_row(alloc, &contents.facts, pattern, after, steps)? {
        Some(FactRow { place, fact }) => {
            let spot = (key_of(&fact)?, place);
            Ok(Effect {
                reply: Reply::Found { place, fact },
                change: change_of(contents, FactsChange::Remove(spot), ParkedChange::Keep),
            })
        }
        None => missed(contents, caller, pattern, after, waits),
    }
}

/// The place in front of this one.
pub fn place_before(place: i64) -> Result<i64, AllocError>
    ensures { IfOk result (λ before. before ≡ (place -ℤ pos 1)) }
{
    match place.checked_sub(1) {
        Some(before) => Ok(before),
        None => Err(AllocError),
    }
}

/// The place behind this one.
pub fn place_behind(place: i64) -> Result<i64, AllocError>
    ensures { IfOk result (λ behind. behind ≡ (place +ℤ pos 1)) }
{
    match place.checked_add(1) {
        Some(behind) => Ok(behind),
        None => Err(AllocError),
    }
}

/// A fact is added in front of all others.
pub fn goes_front<L: Ledger>(
    alloc: Global,
    contents: &mut Contents,
    fact: &Term,
    steps: &mut Steps<L>,
) -> Result<Effect, AllocError>
    requires fresh { IsFresh contents.old }
    requires placed { IsPlaced (state_in contents.old) }
    ensures effect { IfOk result (IsEffect contents.new (adds_front (state_in contents.old) fact.now)) }
    ensures state { state_in contents.new ≡ state_in contents.old }
    ensures counted { steps.old ≤ steps.new }
    ensures steps { steps.new ≤ steps.old + steps_to_wake (record { place = contents.old.lowest -ℤ pos 1; fact = fact.now }) (parked_in contents.old.waiting.rows) }
{
    let place = place_before(contents.lowest)?;
    let row = FactRow {
        place,
        fact: fact.copy()?,
    };
    let Woken { callers, spots } = wakes(alloc, &contents.waiting, &row, steps)?;
    contents.facts.put_front(key_of(fact)?, place, row.fact)?;
    Ok(Effect {
        reply: Reply::Added {
            place,
            woken: callers,
        },
        change: Change {
            facts: FactsChange::Show,
            parked: ParkedChange::RemoveAll(spots),
            lowest: place,
            highest: contents.highest,
            is_open: contents.is_open,
        },
    })
}

/// A fact is added behind all others.
pub fn goes_back<L: Ledger>(
    alloc: Global,
    contents: &mut Contents,
    fact: &Term,
    steps: &mut Steps<L>,
) -> Result<Effect, AllocError>
    requires fresh { IsFresh contents.old }
    requires placed { IsPlaced (state_in contents.old) }
    ensures effect { IfOk result (IsEffect contents.new (adds_back (state_in contents.old) fact.now)) }
    ensures state { state_in contents.new ≡ state_in contents.old }
    ensures counted { steps.old ≤ steps.new }
    ensures steps { steps.new ≤ steps.old + steps_to_wake (record { place = contents.old.highest +ℤ pos 1; fact = fact.now }) (parked_in contents.old.waiting.rows) }
{
    let place = place_behind(contents.highest)?;
    let row = FactRow {
        place,
        fact: fact.copy()?,
    };
    let Woken { callers, spots } = wakes(alloc, &contents.waiting, &row, steps)?;
    contents.facts.put_back(key_of(fact)?, place, row.fact)?;
    Ok(Effect {
        reply: Reply::Added {
            place,
            woken: callers,
        },
        change: Change {
            facts: FactsChange::Show,
            parked: ParkedChange::RemoveAll(spots),
            lowest: contents.lowest,
            highest: place,
            is_open: contents.is_open,
        },
    })
}

/// A fact takes the place of all others.
pub fn goes_alone<L: Ledger>(
    alloc: Global,
    contents: &Contents,
    fact: &Term,
    steps: &mut Steps<L>,
) -> Result<Effect, AllocError>
    requires { IsFresh contents.now }
    ensures effect { IfOk result (IsEffect contents.now (replaces (state_in contents.now) fact.now)) }
    ensures counted { steps.old ≤ steps.new }
    ensures steps { steps.new ≤ steps.old + steps_to_wake (record { place = contents.now.highest +ℤ pos 1; fact = fact.now }) (parked_in contents.now.waiting.rows) }
{
    let place = place_behind(contents.highest)?;
    let row = FactRow {
        place,
        fact: fact.copy()?,
    };
    let Woken { callers, spots } = wakes(alloc, &contents.waiting, &row, steps)?;
    let mut facts = Index::new(alloc);
    facts.put_back(key_of(fact)?, place, row.fact)?;
    facts.show();
    Ok(Effect {
        reply: Reply::Replaced {
            place,
            woken: callers,
        },
        change: Change {
            facts: FactsChange::Set(facts),
            parked: ParkedChange::RemoveAll(spots),
            lowest: contents.lowest,
            highest: place,
            is_open: contents.is_open,
        },
    })
}

/// Every fact that unifies with the pattern goes.
pub fn clears<L: Ledger>(
    alloc: Global,
    contents: &Contents,
    pattern: &Term,
    steps: &mut Steps<L>,
) -> Result<Effect, AllocError>
    requires { IsFresh contents.now }
    ensures effect { IfOk result (IsEffect contents.now (purges (state_in contents.now) pattern.now)) }
    ensures counted { steps.old ≤ steps.new }
    ensures steps { steps.new ≤ steps.old + steps_to_purge pattern.now (facts_in contents.now.facts.rows) }
{
    let spots = unifying(alloc, &contents.facts, pattern, steps)?;
    let count = spots.len();
    if 0xffff_ffff < count {
        return Err(AllocError);
    }
    Ok(Effect {
        reply: Reply::Purged {
            count: count as u32,
        },
        change: change_of(contents, FactsChange::RemoveAll(spots), ParkedChange::Keep),
    })
}

/// The object is closed, where it can be.
pub fn shuts(alloc: Global, contents: &Contents) -> Result<Effect, AllocError>
    requires { IsFresh contents.now }
    ensures { IfOk result (IsEffect contents.now (closes (state_in contents.now) (suspends contents.now.kind))) }
{
    if !lets_wait(contents.kind) {
        return Ok(only_replies(
            contents,
            Reply::Closed {
                woken: Callers::new(alloc),
            },
        ));
    }
    let woken = all_callers(alloc, &contents.waiting)?;
    Ok(Effect {
        reply: Reply::Closed { woken },
        change: Change {
            facts: FactsChange::Keep,
            parked: ParkedChange::Clear,
            lowest: contents.lowest,
            highest: contents.highest,
            is_open: false,
        },
    })
}

/// The object is opened, where it can be.
pub fn opens(contents: &Contents) -> Effect
    ensures { IsEffect contents.now (reopens (state_in contents.now) (suspends contents.now.kind)) result }
{
    if !lets_wait(contents.kind) {
        return only_replies(contents, Reply::Reopened);
    }
    Effect {
        reply: Reply::Reopened,
        change: Change {
            facts: FactsChange::Keep,
            parked: ParkedChange::Keep,
            lowest: contents.lowest,
            highest: contents.highest,
            is_open: true,
        },
    }
}

/// A parked caller gives up.
pub fn quits(contents: &Contents, caller: u32) -> Result<Effect, AllocError>
    requires { IsFresh contents.now }
    ensures { IfOk result (IsEffect contents.now (leaves (state_in contents.now) caller (is_parked (state_in contents.now) caller))) }
{
    match contents.waiting.spot_of(caller)? {
        Some(spot) => Ok(Effect {
            reply: Reply::Left,
            change: change_of(contents, FactsChange::Keep, ParkedChange::Remove(spot)),
        }),
        None => Ok(only_replies(contents, Reply::NotParked)),
    }
}

/// What the call of this caller is to do. What it adds is placed ahead.
pub fn effect_of<L: Ledger>(
    alloc: Global,
    contents: &mut Contents,
    caller: u32,
    call: &Call,
    steps: &mut Steps<L>,
) -> Result<Effect, AllocError>
    requires fresh { IsFresh contents.old }
    requires placed { IsPlaced (state_in contents.old) }
    requires awake { is_parked (state_in contents.old) caller && not (is_leave call.now) ≡ false }
    ensures effect { IfOk result (IsEffect contents.new (step (state_in contents.old) caller call.now)) }
    ensures state { state_in contents.new ≡ state_in contents.old }
    ensures counted { steps.old ≤ steps.new }
    ensures steps { steps.new ≤ steps.old + steps_at (state_in contents.old) call.now }
{
    let waits = may_wait(contents);
    match call {
        Call::AddFront { fact } => goes_front(alloc, contents, fact, steps),
        Call::AddBack { fact } => goes_back(alloc, contents, fact, steps),
        Call::Next { pattern, after } => {
            looks(alloc, contents, caller, pattern, *after, waits, steps)
        }
        Call::Take { pattern, after } => {
            takes(alloc, contents, caller, pattern, *after, waits, steps)
        }
        Call::NextNb { pattern, after } => {
            looks(alloc, contents, caller, pattern, *after, false, steps)
        }
        Call::TakeNb { pattern, after } => {
            takes(alloc, contents, caller, pattern, *after, false, steps)
        }
        Call::Purge { pattern } => clears(alloc, contents, pattern, steps),
        Call::Replace { fact } => goes_alone(alloc, contents, fact, steps),
        Call::Close => shuts(alloc, contents),
        Call::Reopen => Ok(opens(contents)),
        Call::Leave => quits(contents, caller),
    }
}
