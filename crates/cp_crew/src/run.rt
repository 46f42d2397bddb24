ghost use Rattle.std.specs.Prelude.{◌≡◌, ◌<◌, ℕ, [], true, false, None, IfSome, length};
ghost use Rattle.cp_call.specs.Sound.{Going, Sound};
ghost use Rattle.cp_hall.specs.Hall.{objects_of};
ghost use Rattle.cp_schedule.specs.Record.{AreNew, workers_setup};
ghost use Rattle.cp_schedule.specs.Ended.{IsFresh, record_ended};
ghost use Rattle.cp_crew.specs.Crew.{GoesIfDriven, IsSoundIfParked, HasGoneOn, MayBegin};

use crate::crew::{CallerList, Crew, Shells};
use crate::rounds::{has_ended, take_round};
use cp_call::{Caller, Machine};
use cp_crew_end::{crews_go_on, resting_crews_are_sound};
use cp_hall::PlainHall;
use cp_io::{Gate, Sink};
use cp_out::Port;
use std::alloc::Global;
use std::sync::Wait;
use std::thread::Threads;

/// Runs workers over the objects of a hall that nobody has asked yet, each on a thread of its own, in rounds until all stand
/// parked when this call has them all again. Where memory did not end the crew, the run is sound, and it is going where the
/// hall is given back. The sink has then grown by just the entries of the port. Where the system gives fewer threads than
/// there are workers it may wait for ever.
pub fn run_crew<
    R: Threads + Wait + Sync,
    M: Machine + Send,
    S: Sink + Send,
    C: Caller + Send,
    G: Gate + Sync,
>(
    rt: &R,
    alloc: Global,
    shells: Shells<M>,
    hall: PlainHall,
    port: Port<S>,
    callers: CallerList<C>,
    gate: &G,
) -> Crew<M, S, C>
where
    M::Rule: Send,
    requires some { 0 < length shells }
    requires fresh { IsFresh M.code M.Rule.objects shells hall }
    requires callers { length callers ≡ length shells }
    requires port { port.entries ≡ [] }
    ensures sound { (k : M.Rule.Code) (steps : ℕ) → AreNew M.code k shells → result.memory ≡ false → IfSome result.hall (λ h. Sound (workers_setup (M.Rule.asks k) (objects_of hall)) (record_ended steps result.shells h result.port.entries)) }
    ensures going { (k : M.Rule.Code) (steps : ℕ) → AreNew M.code k shells → IfSome result.hall (λ h. Going (workers_setup (M.Rule.asks k) (objects_of hall)) (record_ended steps result.shells h result.port.entries)) }
    ensures gone_on { HasGoneOn M.code M.Rule.asks C.went shells result.shells hall result.hall port result.port callers result.callers result.memory }
{
    let mut crew = take_round(rt, alloc, shells, hall, port, callers, gate);
    for _ in rt.forever() {
        if has_ended(&crew) {
            state_soundness(&crew);
            return crew;
        }
        crew = next_round(rt, alloc, crew, gate);
    }
    unreachable!()
}

// One round more of a crew that has its hall.
fn next_round<
    R: Threads + Wait + Sync,
    M: Machine + Send,
    S: Sink + Send,
    C: Caller + Send,
    G: Gate + Sync,
>(rt: &R, alloc: Global, crew: Crew<M, S, C>, gate: &G) -> Crew<M, S, C>
where
    M::Rule: Send,
    requires memory { crew.memory ≡ false }
    requires missing { crew.hall ≡ None → crew.memory ≡ true }
    requires may_begin { IfSome crew.hall (λ h. MayBegin M.code M.Rule.asks M.Rule.objects crew.shells h crew.port.entries crew.callers) }
    ensures { IfSome crew.hall (λ h. HasGoneOn M.code M.Rule.asks C.went crew.shells result.shells h result.hall crew.port result.port crew.callers result.callers result.memory) }
{
    let Crew {
        shells,
        hall,
        port,
        callers,
        memory: _,
    } = crew;
    match hall {
        None => unreachable!(),
        Some(hall) => take_round(rt, alloc, shells, hall, port, callers, gate),
    }
}

// States that a crew whose shells drive running workers is going, and that it is sound where all stand parked. It does nothing.
fn state_soundness<M: Machine, S: Sink, C: Caller>(crew: &Crew<M, S, C>)
    ensures going { IfSome crew.now.hall (λ h. GoesIfDriven M.code M.Rule.asks crew.now.shells h crew.now.port.entries) }
    ensures sound { IfSome crew.now.hall (λ h. IsSoundIfParked M.code M.Rule.asks crew.now.shells h crew.now.port.entries) }
{
    crew.port.state_invariant();
    crews_go_on::<M>();
    resting_crews_are_sound::<M>();
}
