ghost use Rattle.std.specs.Prelude.{◌≡◌, true, None, IfOk, IfSome, map};
ghost use Rattle.cp_call.specs.Sound.{stays_failed};
ghost use Rattle.cp_hall.specs.Hall.{AreLegal};
ghost use Rattle.cp_out.specs.Port.{Records};
ghost use Rattle.cp_schedule.specs.Ended.{engine_ended, record_ended};

use cp_call::{EngineEnd, EngineEnds, Machine, OutEntries, Outcome, Stand};
use cp_hall::PlainHall;
use cp_io::Sink;
use cp_out::Port;
use cp_shell::Shell;
use std::alloc::{AllocError, Global};

/// What a simulation leaves: the outcome, which is missing only for want of memory, and the sink.
#[derive(Drop)]
pub struct SimEnd<S: Sink> {
    pub outcome: Option<Outcome>,
    pub sink: S,
}

/// How a run by a list of picks ended.
#[derive(Drop)]
pub enum Picked {
    /// All workers are parked after the last pick.
    Ended { outcome: Outcome },
    /// Some worker is not parked after the last pick.
    Awake,
    /// The pick at this place, from 0, names no worker, or one that is parked.
    BadPick { place: usize },
    /// Memory has stopped it.
    NoMemory,
}

/// What a run by a list of picks leaves.
#[derive(Drop)]
pub struct PickEnd<S: Sink> {
    pub end: Picked,
    pub sink: S,
}

/// A worker at the end, parked on the object where its last event left it. A shell that memory has stopped answers so.
fn engine_end<M: Machine>(shell: Shell<M>) -> Result<EngineEnd, AllocError>
    ensures { IfOk result (λ end. end ≡ engine_ended shell) }
{
    if shell.is_stopped() {
        return Err(AllocError);
    }
    let object = shell.parked_object().unwrap_or(0);
    Ok(shell.into_end(Stand::Parked(object)))
}

/// The workers at the end, in order.
fn engine_ends<M: Machine>(alloc: Global, shells: Vec<Shell<M>>) -> Result<EngineEnds, AllocError>
    ensures { IfOk result (λ ends. ends ≡ map engine_ended shells.items) }
{
    let mut ends = EngineEnds::new(alloc);
    for shell in shells {
        ends.push(engine_end(shell)?)?;
    }
    Ok(ends)
}

fn outcome_of<M: Machine>(
    alloc: Global,
    steps: u32,
    shells: Vec<Shell<M>>,
    hall: PlainHall,
    port: OutEntries,
) -> Result<Outcome, AllocError>
    ensures ended { IfOk result (λ o. o ≡ record_ended steps shells.items hall port) }
    ensures legal { AreLegal hall }
{
    let preds = hall.into_ends()?;
    let engines = engine_ends(alloc, shells)?;
    Ok(Outcome {
        steps,
        engines,
        preds,
        port,
    })
}

/// The outcome of a run that ends here, and the sink: the engines in order, each where its last event left it parked, the
/// objects in the states that their histories leave, and the entries of the port. The outcome is missing only for want of
/// memory. That the histories are legal, and that once a write had failed all did, holds all the same.
pub fn end_record<M: Machine, S: Sink>(
    alloc: Global,
    steps: u32,
    shells: Vec<Shell<M>>,
    hall: PlainHall,
    port: Port<S>,
) -> SimEnd<S>
    ensures outcome { IfSome result.outcome (λ o. o ≡ record_ended steps shells.items hall port.entries) }
    ensures legal { AreLegal hall }
    ensures failed { stays_failed port.entries ≡ true }
    ensures records { Records S.held S.faults port.first port.entries result.sink }
{
    let (sink, entries) = port.into_parts();
    SimEnd {
        outcome: outcome_of(alloc, steps, shells, hall, entries).ok(),
        sink,
    }
}

/// Ends a run that memory has stopped.
pub(crate) fn stop<S: Sink>(hall: PlainHall, port: Port<S>) -> SimEnd<S>
    ensures outcome { result.outcome ≡ None }
    ensures records { Records S.held S.faults port.first port.entries result.sink }
{
    let _hall = hall;
    let (sink, _entries) = port.into_parts();
    SimEnd {
        outcome: None,
        sink,
    }
}
