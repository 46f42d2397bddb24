ghost use Rattle.std.specs.Prelude.{◌≡◌, ◌<◌, true, vec_len, OnOk};
ghost use Rattle.cp_schedule.specs.Record.{IsReady, IsLater, RecordLeads};
ghost use Rattle.cp_schedule.specs.Turns.{is_awake, TakesTurn};

use cp_call::Machine;
use cp_hall::PlainHall;
use cp_io::Sink;
use cp_out::Port;
use cp_shell::{NoDialer, Shell};
use std::alloc::AllocError;

/// Drives the worker at a place of the shells by one turn: one event, and the remote calls that are due then, which nobody
/// dials. Where the worker is parked nothing is done.
pub(crate) fn take_turn<M: Machine, S: Sink>(
    shells: &mut Vec<Shell<M>>,
    place: usize,
    hall: &mut PlainHall,
    port: &mut Port<S>,
) -> Result<(), AllocError>
    requires within { place < vec_len shells.old }
    requires ready { IsReady M.code M.Rule.asks M.Rule.objects shells.old.items hall.old port.old.entries }
    ensures later { IsLater M.code M.Rule.asks shells.old.items shells.new.items hall.old hall.new port.old.entries port.new.entries }
    ensures turn { OnOk result (RecordLeads M.code M.Rule.asks shells.old.items shells.new.items hall.old hall.new port.old.entries port.new.entries (λ s before after. is_awake before place ≡ true → TakesTurn s before place after)) }
    ensures first { port.new.first ≡ port.old.first }
{
    let mut caller = NoDialer;
    let shell = &mut shells[place];
    let taken = shell.drive_one(hall, port, &mut caller);
    hall.state_invariant();
    port.state_invariant();
    let _parked = taken?;
    Ok(())
}
