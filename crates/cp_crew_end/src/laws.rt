ghost use Rattle.std.specs.Prelude.{◌≡◌, true, ℕ, List, length};
ghost use Rattle.cp_call.specs.declared.outcome.OutEntry.{OutEntry};
ghost use Rattle.cp_call.specs.Sound.{Going, Sound, stays_failed};
ghost use Rattle.cp_shell.specs.Shell.{ShellView};
ghost use Rattle.cp_hall.specs.Hall.{HallObject, AreLegal, objects_of};
ghost use Rattle.cp_schedule.specs.Awake.{AllParked};
ghost use Rattle.cp_schedule.specs.Ended.{record_ended};
ghost use Rattle.cp_schedule.specs.Record.{AreDriven, workers_setup};
ghost use Rattle.cp_crew_end.specs.Engines.{HasOnlyEngines};

use cp_call::Machine;

/// Shells that drive running workers over a hall and a port, of which nobody else has entries, are going, whatever the order
/// of the turns was.
pub fn crews_go_on<M: Machine>()
    ensures { (k : M.Rule.Code) (steps : ℕ) (shells : List (ShellView M)) (hall : List HallObject) (port : List OutEntry) → AreDriven M.code M.Rule.asks k (objects_of hall) shells hall port → AreLegal hall → HasOnlyEngines (length shells) hall port → stays_failed port ≡ true → Going (workers_setup (M.Rule.asks k) (objects_of hall)) (record_ended steps shells hall port) }
{}

/// Where besides each of them stands parked in the hall, they are sound.
pub fn resting_crews_are_sound<M: Machine>()
    ensures { (k : M.Rule.Code) (steps : ℕ) (shells : List (ShellView M)) (hall : List HallObject) (port : List OutEntry) → AreDriven M.code M.Rule.asks k (objects_of hall) shells hall port → AreLegal hall → HasOnlyEngines (length shells) hall port → stays_failed port ≡ true → AllParked hall shells → Sound (workers_setup (M.Rule.asks k) (objects_of hall)) (record_ended steps shells hall port) }
{}
