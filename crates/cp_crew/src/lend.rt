ghost use Rattle.std.specs.Prelude.{◌≡◌, ◌<◌, ◌≤◌, ℕ, [], All, length, slice_index_or, vec_capacity};
ghost use Rattle.cp_round.specs.Worker.{HasWorked};
ghost use Rattle.cp_turn_port.specs.Seat.{IsSeatOf};
ghost use Rattle.cp_crew.specs.Staff.{SeatedView, IsSeated, HaveWorked, StaysSeated, all_seated};

use crate::staff::{Seated, Staff, dismiss_all, seat_all};
use cp_call::{Caller, Machine};
use cp_io::{Gate, Sink};
use cp_round::{Bells, run_round};
use cp_turn_hall::TurnHall;
use cp_turn_port::TurnPort;
use std::sync::Wait;
use std::thread::Threads;

/// Lends each worker to a thread of its own, and ends when all have ended.
pub(crate) fn lend<
    R: Threads + Wait + Sync,
    M: Machine + Send,
    S: Sink + Send,
    C: Caller + Send,
    G: Gate + Sync,
>(rt: &R, workers: &mut Vec<Seated<'_, R, G, M, S, C>>)
where
    M::Rule: Send,
    ensures long { length workers.new.items ≡ length workers.old.items }
    ensures worked { (k : ℕ) (d : SeatedView M S C) → k < length workers.old.items → HasWorked M.code StaysSeated IsSeatOf C.went (slice_index_or workers.old.items k d) (slice_index_or workers.new.items k d) }
{
    run_round(rt, workers.as_mut_slice());
}

/// Seats workers, lends each to a thread of its own, and takes them apart when all have ended. There is room for all.
pub(crate) fn work_round<
    'a,
    R: Threads + Wait + Sync,
    M: Machine + Send,
    S: Sink + Send,
    C: Caller + Send,
    G: Gate + Sync,
>(
    rt: &'a R,
    gate: &'a G,
    hall: &'a TurnHall,
    port: &'a TurnPort<S>,
    bells: &'a Bells,
    staff: Staff<M, S, C>,
    places: Vec<Seated<'a, R, G, M, S, C>>,
    room: Staff<M, S, C>,
) -> Staff<M, S, C>
where
    M::Rule: Send,
    requires hall_passes { length staff.hall_passes.items ≡ length staff.shells.items }
    requires port_passes { length staff.port_passes.items ≡ length staff.shells.items }
    requires callers { length staff.callers.items ≡ length staff.shells.items }
    requires seated { All (IsSeated M.code M.Rule.asks M.Rule.objects) (all_seated hall.now port.now staff.shells.items staff.hall_passes.items staff.port_passes.items staff.callers.items) }
    requires places { (places.items ≡ []) × (length staff.shells.items ≤ vec_capacity places) }
    requires shell_room { (room.shells.items ≡ []) × (length staff.shells.items ≤ vec_capacity room.shells) }
    requires hall_room { (room.hall_passes.items ≡ []) × (length staff.shells.items ≤ vec_capacity room.hall_passes) }
    requires port_room { (room.port_passes.items ≡ []) × (length staff.shells.items ≤ vec_capacity room.port_passes) }
    requires caller_room { (room.callers.items ≡ []) × (length staff.shells.items ≤ vec_capacity room.callers) }
    ensures { HaveWorked M.code M.Rule.asks M.Rule.objects C.went (all_seated hall.entry.now port.entry.now staff.shells.items staff.hall_passes.items staff.port_passes.items staff.callers.items) result.shells.items result.hall_passes.items result.port_passes.items result.callers.items }
{
    let mut workers = seat_all(rt, gate, hall, port, bells, staff, places);
    lend(rt, &mut workers);
    dismiss_all(workers, room)
}
