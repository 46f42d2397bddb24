ghost use Rattle.std.specs.Prelude.{◌≡◌, ℕ, IfOk, OnOk};
ghost use Rattle.cp_call.specs.Sound.{Going};
ghost use Rattle.cp_hall.specs.Hall.{objects_of};
ghost use Rattle.cp_schedule.specs.Record.{AreDriven, IsReady, IsLater, RecordLeads, record_now, workers_setup};
ghost use Rattle.cp_schedule.specs.Turns.{HasDriven, TakesPicks};

use crate::awake::is_parked;
use crate::seat::take_turn;
use cp_call::Machine;
use cp_hall::PlainHall;
use cp_io::Sink;
use cp_out::Port;
use cp_shell::Shell;
use std::alloc::AllocError;

/// Drives the worker that a pick names by its number from 1, by one turn, and answers whether it did. A pick that names
/// none, or one that is parked, does nothing.
pub(crate) fn drive_pick<M: Machine, S: Sink>(
    shells: &mut Vec<Shell<M>>,
    pick: u32,
    hall: &mut PlainHall,
    port: &mut Port<S>,
) -> Result<bool, AllocError>
    requires ready { IsReady M.code M.Rule.asks M.Rule.objects shells.old.items hall.old port.old.entries }
    ensures later { IsLater M.code M.Rule.asks shells.old.items shells.new.items hall.old hall.new port.old.entries port.new.entries }
    ensures pick { IfOk result (λ driven. RecordLeads M.code M.Rule.asks shells.old.items shells.new.items hall.old hall.new port.old.entries port.new.entries (λ s before after. HasDriven s before pick driven after)) }
    ensures first { port.new.first ≡ port.old.first }
{
    hall.state_invariant();
    let number = pick as usize;
    if number == 0 || shells.len() < number {
        return Ok(false);
    }
    if is_parked(&shells[number - 1], hall)? {
        return Ok(false);
    }
    take_turn(shells, number - 1, hall, port)?;
    Ok(true)
}

/// Drives workers by a list of picks, one turn after another. Each pick is a worker's number from 1; one that names no
/// worker, or a worker that is parked, does nothing, and every other one drives its worker. Whatever the picks, the record
/// of the run is one that events of its workers have led to, and stays going.
pub fn drive_picks<M: Machine, S: Sink>(
    shells: &mut Vec<Shell<M>>,
    picks: &[u32],
    hall: &mut PlainHall,
    port: &mut Port<S>,
) -> Result<(), AllocError>
    requires ready { IsReady M.code M.Rule.asks M.Rule.objects shells.old.items hall.old port.old.entries }
    ensures later { IsLater M.code M.Rule.asks shells.old.items shells.new.items hall.old hall.new port.old.entries port.new.entries }
    ensures picks { OnOk result (RecordLeads M.code M.Rule.asks shells.old.items shells.new.items hall.old hall.new port.old.entries port.new.entries (λ s before after. TakesPicks s before picks.now after)) }
    ensures going { (k : M.Rule.Code) (steps : ℕ) → AreDriven M.code M.Rule.asks k (objects_of hall.old) shells.old.items hall.old port.old.entries → Going (workers_setup (M.Rule.asks k) (objects_of hall.old)) (record_now steps shells.old.items hall.old port.old.entries) → Going (workers_setup (M.Rule.asks k) (objects_of hall.old)) (record_now steps shells.new.items hall.new port.new.entries) }
    ensures first { port.new.first ≡ port.old.first }
{
    for pick in picks {
        let _driven = drive_pick(shells, *pick, hall, port)?;
    }
    Ok(())
}
