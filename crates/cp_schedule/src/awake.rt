ghost use Rattle.std.specs.Prelude.{◌≡◌, IfOk, length};
ghost use Rattle.cp_hall.specs.Hall.{objects_of};
ghost use Rattle.cp_schedule.specs.Awake.{is_parked_now, KnowsObjects};

use cp_call::Machine;
use cp_hall::PlainHall;
use cp_shell::Shell;
use std::alloc::AllocError;

/// Whether the worker is parked: the object where its last event left it parked has it parked still. A shell that memory
/// has stopped answers so.
pub(crate) fn is_parked<M: Machine>(shell: &Shell<M>, hall: &PlainHall) -> Result<bool, AllocError>
    requires { KnowsObjects (length (objects_of hall.now)) shell.now.items }
    ensures { IfOk result (λ parked. parked ≡ is_parked_now hall.now shell.now.number shell.now.items) }
{
    if shell.is_stopped() {
        return Err(AllocError);
    }
    match shell.parked_object() {
        None => Ok(false),
        Some(object) => Ok(hall.is_parked(object, shell.number())),
    }
}
