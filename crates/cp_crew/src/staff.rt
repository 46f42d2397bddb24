ghost use Rattle.std.specs.Prelude.{◌≡◌, ◌<◌, ◌≤◌, ◌^◌, ◌+◌, ◌++◌, ◌∷◌, ℕ, [], List, All, IfOk, length, map, reverse, vec_len, vec_capacity};
ghost use Rattle.cp_turn.specs.Passes.{IsOutside};
ghost use Rattle.cp_turn_hall.specs.Behind.{IsPassOf};
ghost use Rattle.cp_crew.specs.Staff.{IsSeated, all_seated, hall_pass, seated};

use crate::crew::{CallerList, Shells};
use cp_call::{Caller, Machine};
use cp_io::{Gate, Sink};
use cp_round::{Bells, Worker};
use cp_shell::Shell;
use cp_turn_hall::{HallPass, HallPasses, HallSeat, TurnHall};
use cp_turn_port::{PortPass, PortPasses, PortSeat, TurnPort};
use std::alloc::{AllocError, Global};
use std::sync::Wait;

/// A worker at the seats of its number.
pub(crate) type Seated<'a, R, G, M, S, C> = Worker<
    'a,
    M,
    HallSeat<'a, R, G>,
    PortSeat<'a, R, S>,
    C,
>;

/// What workers are made of.
#[derive(Drop)]
pub(crate) struct Staff<M: Machine, S: Sink, C: Caller> {
    pub shells: Vec<Shell<M>>,
    pub hall_passes: Vec<HallPass>,
    pub port_passes: Vec<PortPass<S>>,
    pub callers: Vec<C>,
}

/// Room for what so many workers are made of.
pub(crate) fn room<M: Machine, S: Sink, C: Caller>(
    alloc: Global,
    workers: usize,
) -> Result<Staff<M, S, C>, AllocError>
    ensures shells { IfOk result (λ r. (r.shells.items ≡ []) × (workers ≤ vec_capacity r.shells)) }
    ensures hall_passes { IfOk result (λ r. (r.hall_passes.items ≡ []) × (workers ≤ vec_capacity r.hall_passes)) }
    ensures port_passes { IfOk result (λ r. (r.port_passes.items ≡ []) × (workers ≤ vec_capacity r.port_passes)) }
    ensures callers { IfOk result (λ r. (r.callers.items ≡ []) × (workers ≤ vec_capacity r.callers)) }
{
    Ok(Staff {
        shells: Vec::with_capacity(alloc, workers)?,
        hall_passes: Vec::with_capacity(alloc, workers)?,
        port_passes: Vec::with_capacity(alloc, workers)?,
        callers: Vec::with_capacity(alloc, workers)?,
    })
}

// Seats one worker.
fn seat_one<'a, R: Wait, G: Gate, M: Machine, S: Sink, C: Caller>(
    rt: &'a R,
    gate: &'a G,
    hall: &'a TurnHall,
    port: &'a TurnPort<S>,
    bells: &'a Bells,
    shell: Shell<M>,
    hall_pass: HallPass,
    port_pass: PortPass<S>,
    caller: C,
) -> Seated<'a, R, G, M, S, C>
    requires { IsSeated M.code M.Rule.asks M.Rule.objects (seated hall.now port.now shell hall_pass port_pass caller) }
    ensures { result ≡ seated hall.entry.now port.entry.now shell hall_pass port_pass caller }
{
    let asker = hall.seat(rt, gate, hall_pass);
    let writer = port.seat(rt, port_pass);
    Worker::new(shell, asker, writer, caller, bells)
}

/// Seats workers, in order. There is room for them.
pub(crate) fn seat_all<'a, R: Wait, G: Gate, M: Machine, S: Sink, C: Caller>(
    rt: &'a R,
    gate: &'a G,
    hall: &'a TurnHall,
    port: &'a TurnPort<S>,
    bells: &'a Bells,
    staff: Staff<M, S, C>,
    places: Vec<Seated<'a, R, G, M, S, C>>,
) -> Vec<Seated<'a, R, G, M, S, C>>
    requires hall_passes { length staff.hall_passes.items ≡ length staff.shells.items }
    requires port_passes { length staff.port_passes.items ≡ length staff.shells.items }
    requires callers { length staff.callers.items ≡ length staff.shells.items }
    requires seated { All (IsSeated M.code M.Rule.asks M.Rule.objects) (all_seated hall.now port.now staff.shells.items staff.hall_passes.items staff.port_passes.items staff.callers.items) }
    requires places { (places.items ≡ []) × (length staff.shells.items ≤ vec_capacity places) }
    ensures { result.items ≡ all_seated hall.entry.now port.entry.now staff.shells.items staff.hall_passes.items staff.port_passes.items staff.callers.items }
{
    let mut workers = places;
    let Staff {
        mut shells,
        mut hall_passes,
        mut port_passes,
        mut callers,
    } = staff;
    while let Some(shell) = shells.pop() {
        let Some(hall_pass) = hall_passes.pop() else {
            unreachable!()
        };
        let Some(port_pass) = port_passes.pop() else {
            unreachable!()
        };
        let Some(caller) = callers.pop() else {
            unreachable!()
        };
        let worker = seat_one(
            rt, gate, hall, port, bells, shell, hall_pass, port_pass, caller,
        );
        workers.push_reserved(worker);
    }
    workers.reverse();
    workers
}

/// Takes workers apart, in order. There is room for what they are made of.
pub(crate) fn dismiss_all<R: Wait, G: Gate, M: Machine, S: Sink, C: Caller>(
    workers: Vec<Seated<'_, R, G, M, S, C>>,
    room: Staff<M, S, C>,
) -> Staff<M, S, C>
    requires shells { (room.shells.items ≡ []) × (length workers.items ≤ vec_capacity room.shells) }
    requires hall_passes { (room.hall_passes.items ≡ []) × (length workers.items ≤ vec_capacity room.hall_passes) }
    requires port_passes { (room.port_passes.items ≡ []) × (length workers.items ≤ vec_capacity room.port_passes) }
    requires callers { (room.callers.items ≡ []) × (length workers.items ≤ vec_capacity room.callers) }
    ensures shells { result.shells.items ≡ map (λ w. w.shell) workers.entry.items }
    ensures hall_passes { result.hall_passes.items ≡ map hall_pass workers.entry.items }
    ensures port_passes { result.port_passes.items ≡ map (λ w. w.port.pass) workers.entry.items }
    ensures callers { result.callers.items ≡ map (λ w. w.caller) workers.entry.items }
    ensures seated { All (IsSeated M.code M.Rule.asks M.Rule.objects) workers.entry.items }
{
    let mut staff = room;
    let mut workers = workers;
    while let Some(worker) = workers.pop() {
        dismiss_one(worker, &mut staff);
    }
    reversed(staff)
}

// The same in the other order.
fn reversed<M: Machine, S: Sink, C: Caller>(staff: Staff<M, S, C>) -> Staff<M, S, C>
    ensures shells { result.shells.items ≡ reverse staff.shells.items }
    ensures hall_passes { result.hall_passes.items ≡ reverse staff.hall_passes.items }
    ensures port_passes { result.port_passes.items ≡ reverse staff.port_passes.items }
    ensures callers { result.callers.items ≡ reverse staff.callers.items }
{
    let Staff {
        mut shells,
        mut hall_passes,
        mut port_passes,
        mut callers,
    } = staff;
    shells.reverse();
    hall_passes.reverse();
    port_passes.reverse();
    callers.reverse();
    Staff {
        shells,
        hall_passes,
        port_passes,
        callers,
    }
}

// Takes one worker apart.
fn dismiss_one<R: Wait, G: Gate, M: Machine, S: Sink, C: Caller>(
    worker: Seated<'_, R, G, M, S, C>,
    staff: &mut Staff<M, S, C>,
)
    requires shells { vec_len staff.old.shells < vec_capacity staff.old.shells }
    requires hall_passes { vec_len staff.old.hall_passes < vec_capacity staff.old.hall_passes }
    requires port_passes { vec_len staff.old.port_passes < vec_capacity staff.old.port_passes }
    requires callers { vec_len staff.old.callers < vec_capacity staff.old.callers }
    ensures shells { (staff.new.shells.items ≡ staff.old.shells.items ++ worker.entry.shell ∷ []) × (vec_len staff.new.shells ≡ vec_len staff.old.shells + 1) × (vec_capacity staff.new.shells ≡ vec_capacity staff.old.shells) }
    ensures hall_passes { (staff.new.hall_passes.items ≡ staff.old.hall_passes.items ++ hall_pass worker.entry ∷ []) × (vec_len staff.new.hall_passes ≡ vec_len staff.old.hall_passes + 1) × (vec_capacity staff.new.hall_passes ≡ vec_capacity staff.old.hall_passes) }
    ensures port_passes { (staff.new.port_passes.items ≡ staff.old.port_passes.items ++ worker.entry.port.pass ∷ []) × (vec_len staff.new.port_passes ≡ vec_len staff.old.port_passes + 1) × (vec_capacity staff.new.port_passes ≡ vec_capacity staff.old.port_passes) }
    ensures callers { (staff.new.callers.items ≡ staff.old.callers.items ++ worker.entry.caller ∷ []) × (vec_len staff.new.callers ≡ vec_len staff.old.callers + 1) × (vec_capacity staff.new.callers ≡ vec_capacity staff.old.callers) }
    ensures seated { IsSeated M.code M.Rule.asks M.Rule.objects worker.entry }
{
    let (shell, asker, writer, caller) = worker.into_parts();
    staff.shells.push_reserved(shell);
    staff.hall_passes.push_reserved(asker.into_pass());
    staff.port_passes.push_reserved(writer.into_pass());
    staff.callers.push_reserved(caller);
}
