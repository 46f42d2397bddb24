ghost use Rattle.std.specs.Prelude.{◌≡◌, ◌≢◌, [], length, IfOk, MatchBool};
ghost use Rattle.cp_call.specs.declared.outcome.Outcome.{Outcome};
ghost use Rattle.cp_call.specs.Sound.{Sound};
ghost use Rattle.cp_hall.specs.Hall.{objects_of};
ghost use Rattle.cp_out.specs.Port.{Records};
ghost use Rattle.cp_schedule.specs.Awake.{AllKnow, AllParked, awake_below};
ghost use Rattle.cp_schedule.specs.Record.{AreNew, IsReady, IsLater, RecordLeads, workers_setup};
ghost use Rattle.cp_schedule.specs.Ended.{IsFresh, IsOfWorkers, HasRunTo};
ghost use Rattle.cp_schedule.specs.Picked.{HasTaken, HasFollowed, IsEndOf, IsRunOfPicks, IfEnded};

use crate::end::{PickEnd, Picked, SimEnd, end_record};
use crate::picks::drive_pick;
use crate::seed::awake_places;
use cp_call::Machine;
use cp_hall::PlainHall;
use cp_io::Sink;
use cp_out::Port;
use cp_shell::Shell;
use std::alloc::{AllocError, Global};

/// Where a list of picks has led to.
pub(crate) enum Course {
    Rest,
    Awake,
    BadPick { place: usize },
}

/// Drives workers by picks, and answers the place of the first one that names no worker, or one that is parked.
fn take_picks<M: Machine, S: Sink>(
    shells: &mut Vec<Shell<M>>,
    picks: &[u32],
    hall: &mut PlainHall,
    port: &mut Port<S>,
) -> Result<Option<usize>, AllocError>
    requires ready { IsReady M.code M.Rule.asks M.Rule.objects shells.old.items hall.old port.old.entries }
    ensures later { IsLater M.code M.Rule.asks shells.old.items shells.new.items hall.old hall.new port.old.entries port.new.entries }
    ensures taken { IfOk result (λ bad. RecordLeads M.code M.Rule.asks shells.old.items shells.new.items hall.old hall.new port.old.entries port.new.entries (λ s before after. HasTaken s before picks.now bad after)) }
    ensures first { port.new.first ≡ port.old.first }
{
    for place in 0..picks.len() {
        let driven = drive_pick(shells, picks[place], hall, port)?;
        if !driven {
            return Ok(Some(place));
        }
    }
    Ok(None)
}

/// Whether all workers are parked.
fn are_parked<M: Machine>(
    alloc: Global,
    shells: &[Shell<M>],
    hall: &PlainHall,
) -> Result<bool, AllocError>
    requires { AllKnow (length (objects_of hall.now)) shells.now }
    ensures { IfOk result (λ parked. MatchBool parked (awake_below hall.now shells.now (length shells.now) ≡ []) (awake_below hall.now shells.now (length shells.now) ≢ [])) }
{
    let awake = awake_places(alloc, shells, hall)?;
    Ok(awake.is_empty())
}

/// Drives workers by picks, up to the first one that names no worker, or one that is parked.
fn follow_picks<M: Machine, S: Sink>(
    alloc: Global,
    picks: &[u32],
    shells: &mut Vec<Shell<M>>,
    hall: &mut PlainHall,
    port: &mut Port<S>,
) -> Result<Course, AllocError>
    requires ready { IsReady M.code M.Rule.asks M.Rule.objects shells.old.items hall.old port.old.entries }
    ensures later { IsLater M.code M.Rule.asks shells.old.items shells.new.items hall.old hall.new port.old.entries port.new.entries }
    ensures followed { IfOk result (λ course. RecordLeads M.code M.Rule.asks shells.old.items shells.new.items hall.old hall.new port.old.entries port.new.entries (λ s before after. HasFollowed s before picks.now course after)) }
    ensures parked { IfOk result (λ course. course ≡ Course.Rest → AllParked hall.new shells.new.items) }
    ensures first { port.new.first ≡ port.old.first }
{
    let bad = take_picks(shells, picks, hall, port)?;
    hall.state_invariant();
    match bad {
        Some(place) => Ok(Course::BadPick { place }),
        None => {
            let parked = are_parked(alloc, shells, hall)?;
            if parked {
                return Ok(Course::Rest);
            }
            Ok(Course::Awake)
        }
    }
}

/// Ends a run where all workers are parked.
fn rest<M: Machine, S: Sink>(
    alloc: Global,
    steps: u32,
    shells: Vec<Shell<M>>,
    hall: PlainHall,
    port: Port<S>,
) -> PickEnd<S>
    ensures end { IsEndOf steps shells.items hall port.entries result.end }
    ensures records { Records S.held S.faults port.first port.entries result.sink }
{
    let SimEnd { outcome, sink } = end_record(alloc, steps, shells, hall, port);
    let end = match outcome {
        Some(outcome) => Picked::Ended { outcome },
        None => Picked::NoMemory,
    };
    PickEnd { end, sink }
}

/// Ends a run with this answer, which has no outcome.
fn give_up<S: Sink>(end: Picked, hall: PlainHall, port: Port<S>) -> PickEnd<S>
    ensures end { result.end ≡ end }
    ensures records { Records S.held S.faults port.first port.entries result.sink }
{
    let _hall = hall;
    let (sink, _entries) = port.into_parts();
    PickEnd { end, sink }
}

/// Runs workers over the objects of a hall that nobody has asked yet, one turn after another, as a list of picks says. Each
/// pick is the number, from 1, of the worker whose turn it is. The run ends where all workers are parked after the last pick.
/// It stops where one is not, and at the first pick that names no worker, or one that is parked. However it ends, the sink
/// has what it wrote. The outcome names this budget of steps.
pub fn simulate_on<M: Machine, S: Sink>(
    alloc: Global,
    picks: &[u32],
    steps: u32,
    shells: Vec<Shell<M>>,
    hall: PlainHall,
    sink: S,
) -> PickEnd<S>
    requires fresh { IsFresh M.code M.Rule.objects shells.items hall }
    ensures sound { (k : M.Rule.Code) → AreNew M.code k shells.items → IfEnded result.end (Sound (workers_setup (M.Rule.asks k) (objects_of hall))) }
    ensures workers { IfEnded result.end (IsOfWorkers steps (length shells.items)) }
    ensures records { IfEnded result.end (λ o. Records S.held S.faults sink o.port result.sink) }
    ensures run { (k : M.Rule.Code) → AreNew M.code k shells.items → (o : Outcome) × HasRunTo S.held S.faults (workers_setup (M.Rule.asks k) (objects_of hall)) steps (length shells.items) sink result.sink o × IsRunOfPicks (workers_setup (M.Rule.asks k) (objects_of hall)) picks.now steps (length shells.items) result.end o }
{
    let mut shells = shells;
    let mut hall = hall;
    let mut port = Port::new(alloc, sink);
    match follow_picks(alloc, picks, &mut shells, &mut hall, &mut port) {
        Ok(Course::Rest) => rest(alloc, steps, shells, hall, port),
        Ok(Course::Awake) => give_up(Picked::Awake, hall, port),
        Ok(Course::BadPick { place }) => give_up(Picked::BadPick { place }, hall, port),
        Err(_) => give_up(Picked::NoMemory, hall, port),
    }
}
