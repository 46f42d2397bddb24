ghost use Rattle.std.specs.Prelude.{◌≡◌, ◌+◌, ◌<◌, ◌^◌, IfOk, IfErr};
ghost use Rattle.cp_call.specs.History.{cells_of_call, cells_of_reply};
ghost use Rattle.cp_fact.specs.Contents.{state_in};
ghost use Rattle.cp_fact.specs.Effect.{IsPlaced};
ghost use Rattle.cp_fact.specs.Plan.{IsPlanFor};

use crate::contents::{Change, Contents};
use crate::effect::{Effect, effect_of};
use cp_call::{Call, Refused, Reply};
use std::alloc::{AllocError, Global};

/// A prepared call: who makes it, the reply twice, once for the history and once for the caller, what it changes, and
/// how many cells its entry has.
#[derive(Drop)]
pub struct Plan {
    pub caller: u32,
    pub call: Call,
    pub recorded: Reply,
    pub reply: Reply,
    pub change: Change,
    pub cells: u64,
}

/// The number of cells of the terms of a call.
pub fn call_cells(call: &Call) -> u32
    ensures { result ≡ cells_of_call call.now }
{
    match call {
        Call::AddFront { fact } => fact.size(),
        Call::AddBack { fact } => fact.size(),
        Call::Next { pattern, after: _ } => pattern.size(),
        Call::Take { pattern, after: _ } => pattern.size(),
        Call::NextNb { pattern, after: _ } => pattern.size(),
        Call::TakeNb { pattern, after: _ } => pattern.size(),
        Call::Purge { pattern } => pattern.size(),
        Call::Replace { fact } => fact.size(),
        Call::Close => 0,
        Call::Reopen => 0,
        Call::Leave => 0,
    }
}

/// The number of cells of the terms of a reply.
pub fn reply_cells(reply: &Reply) -> u32
    ensures { result ≡ cells_of_reply reply.now }
{
    match reply {
        Reply::Found { place: _, fact } => fact.size(),
        Reply::Added { place: _, woken: _ } => 0,
        Reply::NoMore => 0,
        Reply::Parked => 0,
        Reply::Purged { count: _ } => 0,
        Reply::Replaced { place: _, woken: _ } => 0,
        Reply::Closed { woken: _ } => 0,
        Reply::Reopened => 0,
        Reply::Left => 0,
        Reply::NotParked => 0,
        Reply::Full { by: _, count: _ } => 0,
    }
}

/// The plan of a call of this caller.
pub fn plan_of(
    alloc: Global,
    contents: &Contents,
    caller: u32,
    call: &Call,
) -> Result<Plan, AllocError>
    requires { IsPlaced (state_in contents.now) }
    ensures { IfOk result (IsPlanFor (state_in contents.now) caller call.now) }
{
    let call = call.clone()?;
    let Effect { reply, change } = effect_of(alloc, contents, caller, &call)?;
    let recorded = reply.clone()?;
    let cells = call_cells(&call) as u64 + reply_cells(&reply) as u64;
    Ok(Plan {
        caller,
        call,
        recorded,
        reply,
        change,
        cells,
    })
}

/// The plan of a call, with want of memory as a refusal.
pub fn prepared(
    alloc: Global,
    contents: &Contents,
    caller: u32,
    call: &Call,
) -> Result<Plan, Refused>
    requires { IsPlaced (state_in contents.now) }
    ensures ok { IfOk result (IsPlanFor (state_in contents.now) caller call.now) }
    ensures err { IfErr result (λ e. e ≡ Refused.NoMemory) }
{
    match plan_of(alloc, contents, caller, call) {
        Ok(plan) => Ok(plan),
        Err(_) => Err(Refused::NoMemory),
    }
}

/// Gives up a prepared call.
pub fn forget(plan: &mut Option<Plan>)
    ensures { plan.new ≡ None }
{
    *plan = None;
}
