ghost use Rattle.std.specs.Prelude.{◌≡◌, true, false, length};
ghost use Rattle.cp_hall.specs.Hall.{objects_of};
ghost use Rattle.cp_schedule.specs.Awake.{AllKnow, AllParked, KnowsObjects, is_parked_now};
ghost use Rattle.cp_crew.specs.Crew.{NoneStopped};

use cp_call::Machine;
use cp_hall::PlainHall;
use cp_shell::Shell;

/// Whether memory has stopped one of the shells.
pub(crate) fn any_stopped<M: Machine>(shells: &[Shell<M>]) -> bool
    ensures { result ≡ false → NoneStopped shells.now }
{
    for i in 0..shells.len() {
        if shells[i].is_stopped() {
            return true;
        }
    }
    false
}

// Whether the object where its last event left a worker parked has it parked still.
fn is_parked<M: Machine>(shell: &Shell<M>, hall: &PlainHall) -> bool
    requires works { shell.now.is_stopped ≡ false }
    requires known { KnowsObjects (length (objects_of hall.now)) shell.now.items }
    ensures { result ≡ is_parked_now hall.now shell.now.number shell.now.items }
{
    match shell.parked_object() {
        None => false,
        Some(object) => hall.is_parked(object, shell.number()),
    }
}

/// Whether all workers stand parked, where memory has stopped none.
pub(crate) fn all_parked<M: Machine>(shells: &[Shell<M>], hall: &PlainHall) -> bool
    requires work { NoneStopped shells.now }
    requires known { AllKnow (length (objects_of hall.now)) shells.now }
    ensures { result ≡ true → AllParked hall.now shells.now }
{
    for i in 0..shells.len() {
        if !is_parked(&shells[i], hall) {
            return false;
        }
    }
    true
}
