ghost use Rattle.std.specs.Prelude.{◌≡◌, ◌<◌, ◌^◌, true, false, None, IfSome, All, length, vec_len};
ghost use Rattle.cp_turn.specs.Passes.{IsOutside};
ghost use Rattle.cp_turn_hall.specs.Behind.{IsPassOf};
ghost use Rattle.cp_crew.specs.Staff.{IsOut, IsPortOut};
ghost use Rattle.cp_schedule.specs.Awake.{AllKnow, AllParked};
ghost use Rattle.cp_hall.specs.Hall.{objects_of};
ghost use Rattle.cp_crew.specs.Crew.{HasGoneOn, MayBegin, NoneStopped};

use crate::crew::{CallerList, Crew, Shells};
use crate::lend::work_round;
use crate::parked::{all_parked, any_stopped};
use crate::staff::{Seated, Staff, room};
use cp_call::{Caller, Machine};
use cp_hall::PlainHall;
use cp_io::{Gate, Sink};
use cp_out::Port;
use cp_round::Bells;
use cp_turn_hall::{HallPasses, TurnHall, turn_hall};
use cp_turn_port::{PortPasses, TurnPort, turn_port};
use std::alloc::{AllocError, Global};
use std::sync::Wait;
use std::thread::Threads;

/// Whether the crew has ended: memory stopped it, or all its workers stand parked.
pub(crate) fn has_ended<M: Machine, S: Sink, C: Caller>(crew: &Crew<M, S, C>) -> bool
    requires works { crew.now.memory ≡ false → NoneStopped crew.now.shells }
    requires known { IfSome crew.now.hall (λ h. AllKnow (length (objects_of h)) crew.now.shells) }
    requires missing { crew.now.hall ≡ None → crew.now.memory ≡ true }
    ensures parked { result ≡ true → crew.now.memory ≡ false → IfSome crew.now.hall (λ h. AllParked h crew.now.shells) }
    ensures goes_on { result ≡ false → crew.now.memory ≡ false }
{
    match &crew.hall {
        None => true,
        Some(hall) => crew.memory || all_parked(crew.shells.as_slice(), hall),
    }
}

/// One round: each object and the port go behind turnstiles, each worker takes its seats to a thread of its own, and when all
/// have ended the objects and the port come out again.
pub(crate) fn take_round<
    R: Threads + Wait + Sync,
    M: Machine + Send,
    S: Sink + Send,
    C: Caller + Send,
    G: Gate + Sync,
>(
    rt: &R,
    alloc: Global,
    shells: Shells<M>,
    hall: PlainHall,
    port: Port<S>,
    callers: CallerList<C>,
    gate: &G,
) -> Crew<M, S, C>
where
    M::Rule: Send,
    requires { MayBegin M.code M.Rule.asks M.Rule.objects shells hall port.entries callers }
    ensures { HasGoneOn M.code M.Rule.asks C.went shells result.shells hall result.hall port result.port callers result.callers result.memory }
{
    let count = shells.len();
    let Ok(bells) = Bells::new(alloc, count) else {
        return refused(shells, hall, port, callers);
    };
    let Ok(room) = room(alloc, count as usize) else {
        return refused(shells, hall, port, callers);
    };
    let places: Result<Vec<Seated<'_, R, G, M, S, C>>, AllocError> = Vec::with_capacity(
        alloc,
        count as usize,
    );
    let Ok(places) = places else {
        return refused(shells, hall, port, callers);
    };
    let (turn, port_passes) = match turn_port(alloc, port, count) {
        Ok(made) => made,
        Err(port) => return refused(shells, hall, port, callers),
    };
    let Ok((objects, hall_passes)) = turn_hall(hall, count) else {
        return lost(shells, turn.close(port_passes), callers);
    };
    let staff = Staff {
        shells: shells.into_vec(),
        hall_passes: hall_passes.into_vec(),
        port_passes: port_passes.into_vec(),
        callers: callers.into_vec(),
    };
    let staff = work_round(rt, gate, &objects, &turn, &bells, staff, places, room);
    close_round(objects, turn, staff)
}
/// What the crew is without a round, for which there is no memory.
fn refused<M: Machine, S: Sink, C: Caller>(
    shells: Shells<M>,
    hall: PlainHall,
    port: Port<S>,
    callers: CallerList<C>,
) -> Crew<M, S, C>
    requires { MayBegin M.code M.Rule.asks M.Rule.objects shells hall port.entries callers }
    ensures { HasGoneOn M.code M.Rule.asks C.went shells result.shells hall result.hall port result.port callers result.callers result.memory }
{
    hall.state_invariant();
    Crew {
        shells,
        hall: Some(hall),
        port,
        callers,
        memory: true,
    }
}

/// What the crew is where its objects are lost for want of memory.
fn lost<M: Machine, S: Sink, C: Caller>(
    shells: Shells<M>,
    port: Port<S>,
    callers: CallerList<C>,
) -> Crew<M, S, C>
    ensures shells { result.shells ≡ shells }
    ensures hall { result.hall ≡ None }
    ensures port { result.port ≡ port }
    ensures callers { result.callers ≡ callers }
    ensures memory { result.memory ≡ true }
{
    Crew {
        shells,
        hall: None,
        port,
        callers,
        memory: true,
    }
}

/// The objects, out from behind their turnstiles, unless memory is short.
fn close_hall(objects: TurnHall, passes: HallPasses) -> Option<PlainHall>
    requires of_hall { All (IsPassOf objects) passes }
    requires all { All (λ t. t.callers ≡ length passes) objects }
    ensures { IfSome result (λ hall. IsOut objects passes hall) }
{
    match objects.close(passes) {
        Ok(hall) => {
            hall.state_invariant();
            Some(hall)
        }
        Err(_) => None,
    }
}

/// The crew after a round, whose objects and port come out from behind their turnstiles.
fn close_round<M: Machine, S: Sink, C: Caller>(
    objects: TurnHall,
    turn: TurnPort<S>,
    staff: Staff<M, S, C>,
) -> Crew<M, S, C>
    requires few { (vec_len staff.shells < 2 ^ 32) × (vec_len staff.hall_passes < 2 ^ 32) × (vec_len staff.port_passes < 2 ^ 32) × (vec_len staff.callers < 2 ^ 32) }
    requires hall_passes { All (IsPassOf objects) staff.hall_passes.items × All (λ t. t.callers ≡ length staff.hall_passes.items) objects }
    requires port_passes { All (IsOutside turn) staff.port_passes.items × (length staff.port_passes.items ≡ turn.callers) }
    ensures shells { result.shells ≡ staff.shells.items }
    ensures callers { result.callers ≡ staff.callers.items }
    ensures hall { IfSome result.hall (λ hall. IsOut objects staff.hall_passes.items hall) }
    ensures port { IsPortOut turn staff.port_passes.items result.port }
    ensures missing { result.hall ≡ None → result.memory ≡ true }
    ensures works { result.memory ≡ false → NoneStopped result.shells }
{
    let Staff {
        shells,
        hall_passes,
        port_passes,
        callers,
    } = staff;
    let port = turn.close(PortPasses::from_vec(port_passes));
    let hall = close_hall(objects, HallPasses::from_vec(hall_passes));
    let memory = hall.is_none() || any_stopped(shells.as_slice());
    Crew {
        shells: Shells::from_vec(shells),
        hall,
        port,
        callers: CallerList::from_vec(callers),
        memory,
    }
}
