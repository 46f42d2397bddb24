ghost use Rattle.std.specs.Prelude.{◌≡◌, ◌≤◌, ◌+◌, ◌&&◌, false, not, IfOk, IfErr};
ghost use Rattle.cp_call.specs.History.{cells_of_call, cells_of_reply, is_leave};
ghost use Rattle.cp_call.specs.Object.{is_parked};
ghost use Rattle.cp_factindex.specs.Contents.{state_in, IsFresh};
ghost use Rattle.cp_factindex.specs.Effect.{IsPlaced};
ghost use Rattle.cp_factindex.specs.Plan.{IsPlanFor};
ghost use Rattle.cp_factindex.specs.Steps.{steps_at};

use crate::contents::{Change, Contents};
use crate::effect::{Effect, effect_of};
use cp_call::{Call, Refused, Reply};
use cp_counted::Steps;
use std::alloc::{AllocError, Global};
use std::sync::ledger::Ledger;

/// A prepared call: who makes it, the reply twice, once for the history and once for the caller, what it changes, and
/// how many cells its entry has.
#[derive(Drop)]
pub struct Plan {
    pub caller: u32,
    pub call: Call,
    pub recorded: Reply,
    pub reply: Reply,
    pub change: Change,
    pub cells: u64,
}

/// The number of cells of the terms of a call.
pub fn call_cells(call: &Call) -> u32
    ensures { result ≡ cells_of_call call.now }
{
    match call {
        Call::AddFront { fact } => fact.size(),
        Call::AddBack { fact } => fact.size(),
        Call::Next { pattern, after: _ } => pattern.size(),
        Call::Take { pattern, after: _ } => pattern.size(),
        Call::NextNb { pattern, after: _ } => pattern.size(),
        Call::TakeNb { pattern, after: _ } => pattern.size(),
        Call::Purge { pattern } => pattern.size(),
        Call::Replace { fact } => fact.size(),
        Call::Close => 0,
        Call::Reopen => 0,
        Call::Leave => 0,
    }
}

/// The number of cells of the terms of a reply.
pub fn reply_cells(reply: &Reply) -> u32
    ensures { result ≡ cells_of_reply reply.now }
{
    match reply {
        Reply::Found { place: _, fact } => fact.size(),
        Reply::Added { place: _, woken: _ } => 0,
        Reply::NoMore => 0,
        Reply::Parked => 0,
        Reply::Purged { count: _ } => 0,
        Reply::Replaced { place: _, woken: _ } => 0,
        Reply::Closed { woken: _ } => 0,
        Reply::Reopened => 0,
        Reply::Left => 0,
        Reply::NotParked => 0,
        Reply::Full { by: _, count: _ } => 0,
    }
}

/// The plan of a call of this caller. What the call adds is placed ahead.
pub fn plan_of<L: Ledger>(
    alloc: Global,
    contents: &mut Contents,
    caller: u32,
    call: &Call,
    steps: &mut Steps<L>,
) -> Result<Plan, AllocError>
    requires fresh { IsFresh contents.old }
    requires placed { IsPlaced (state_in contents.old) }
    requires awake { is_parked (state_in contents.old) caller && not (is_leave call.now) ≡ false }
    ensures plan { IfOk result (IsPlanFor contents.new caller call.now) }
    ensures state { state_in contents.new ≡ state_in contents.old }
    ensures counted { steps.old ≤ steps.new }
    ensures steps { steps.new ≤ steps.old + steps_at (state_in contents.old) call.now }
{
    let copy = call.clone()?;
    let Effect { reply, change } = effect_of(alloc, contents, caller, call, steps)?;
    let recorded = reply.clone()?;
    let cells = call_cells(call) as u64 + reply_cells(&reply) as u64;
    Ok(Plan {
        caller,
        call: copy,
        recorded,
        reply,
        change,
        cells,
    })
}

/// The plan of a call, with want of memory as a refusal.
pub fn prepared<L: Ledger>(
    alloc: Global,
    contents: &mut Contents,
    caller: u32,
    call: &Call,
    steps: &mut Steps<L>,
) -> Result<Plan, Refused>
    requires fresh { IsFresh contents.old }
    requires placed { IsPlaced (state_in contents.old) }
    requires awake { is_parked (state_in contents.old) caller && not (is_leave call.now) ≡ false }
    ensures ok { IfOk result (IsPlanFor contents.new caller call.now) }
    ensures err { IfErr result (λ e. e ≡ Refused.NoMemory) }
    ensures state { state_in contents.new ≡ state_in contents.old }
    ensures counted { steps.old ≤ steps.new }
    ensures steps { steps.new ≤ steps.old + steps_at (state_in contents.old) call.now }
{
    match plan_of(alloc, contents, caller, call, steps) {
        Ok(plan) => Ok(plan),
        Err(_) => Err(Refused::NoMemory),
    }
}
