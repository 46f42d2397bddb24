ghost use Rattle.std.specs.Prelude.{◌≡◌, ℕ, true, false, cond, [], ◌∷◌, ◌++◌, length, IfOk, OnOk, IfSome};
ghost use Rattle.rand_pcg.specs.Pcg.{pcg32};
ghost use Rattle.cp_call.specs.declared.outcome.Outcome.{Outcome};
ghost use Rattle.cp_call.specs.Sound.{Sound};
ghost use Rattle.cp_hall.specs.Hall.{objects_of};
ghost use Rattle.cp_out.specs.Port.{Records};
ghost use Rattle.cp_schedule.specs.Awake.{AllKnow, AllParked, awake_below};
ghost use Rattle.cp_schedule.specs.Record.{AreNew, IsReady, IsLater, RecordLeads, workers_setup};
ghost use Rattle.cp_schedule.specs.Ended.{IsFresh, IsOfWorkers, HasRunTo};
ghost use Rattle.cp_schedule.specs.Turns.{IsRunOfSeed, RunsToEnd, TakesNextTurn, all_at_rest, awake_places, generator_of};

use crate::awake::is_parked;
use crate::end::{SimEnd, end_record, stop};
use crate::seat::take_turn;
use cp_call::Machine;
use cp_hall::PlainHall;
use cp_io::Sink;
use cp_out::Port;
use cp_shell::Shell;
use rand_core::utils::NextWord;
use rand_pcg::Lcg64Xsh32;
use std::alloc::{AllocError, Global};

/// Adds a place at the end, unless it is left out.
fn push_unless(places: &mut Vec<usize>, place: usize, is_left_out: bool) -> Result<(), AllocError>
    ensures { OnOk result (places.new.items ≡ places.old.items ++ cond is_left_out [] (place ∷ [])) }
{
    if is_left_out {
        return Ok(());
    }
    places.push(place)?;
    Ok(())
}

/// The places of the workers that are not parked, by ascending number.
pub(crate) fn awake_places<M: Machine>(
    alloc: Global,
    shells: &[Shell<M>],
    hall: &PlainHall,
) -> Result<Vec<usize>, AllocError>
    requires { AllKnow (length (objects_of hall.now)) shells.now }
    ensures { IfOk result (λ places. places.items ≡ awake_below hall.now shells.now (length shells.now)) }
{
    let mut places = Vec::new(alloc);
    for place in 0..shells.len() {
        let parked = is_parked(&shells[place], hall)?;
        push_unless(&mut places, place, parked)?;
    }
    Ok(places)
}

/// Takes the turn of the worker that the next word picks among those that are not parked. It answers whether all are
/// parked, and then there was no turn.
fn take_drawn_turn<M: Machine, S: Sink>(
    alloc: Global,
    words: &mut Lcg64Xsh32,
    shells: &mut Vec<Shell<M>>,
    hall: &mut PlainHall,
    port: &mut Port<S>,
) -> Result<bool, AllocError>
    requires ready { IsReady M.code M.Rule.asks M.Rule.objects shells.old.items hall.old port.old.entries }
    ensures later { IsLater M.code M.Rule.asks shells.old.items shells.new.items hall.old hall.new port.old.entries port.new.entries }
    ensures ended { IfOk result (λ ended. ended ≡ true → RecordLeads M.code M.Rule.asks shells.old.items shells.new.items hall.old hall.new port.old.entries port.new.entries (λ s before after. (awake_places before ≡ []) × (after ≡ before))) }
    ensures turn { IfOk result (λ ended. ended ≡ false → (words.new ≡ (pcg32 words.old).1) × RecordLeads M.code M.Rule.asks shells.old.items shells.new.items hall.old hall.new port.old.entries port.new.entries (λ s before after. TakesNextTurn s words.old before after)) }
    ensures parked { IfOk result (λ ended. ended ≡ true → AllParked hall.new shells.new.items) }
    ensures first { port.new.first ≡ port.old.first }
{
    hall.state_invariant();
    let awake = awake_places(alloc, shells, hall)?;
    if awake.is_empty() {
        return Ok(true);
    }
    let place = awake[words.next_word() as usize % awake.len()];
    take_turn(shells, place, hall, port)?;
    Ok(false)
}

/// Takes turns, as the words of the seed pick them, until all workers are parked.
fn take_turns<M: Machine, S: Sink>(
    alloc: Global,
    seed: u64,
    shells: &mut Vec<Shell<M>>,
    hall: &mut PlainHall,
    port: &mut Port<S>,
) -> Result<(), AllocError>
    requires ready { IsReady M.code M.Rule.asks M.Rule.objects shells.old.items hall.old port.old.entries }
    ensures later { IsLater M.code M.Rule.asks shells.old.items shells.new.items hall.old hall.new port.old.entries port.new.entries }
    ensures run { OnOk result (RecordLeads M.code M.Rule.asks shells.old.items shells.new.items hall.old hall.new port.old.entries port.new.entries (λ s before after. (turns : ℕ) × RunsToEnd s (generator_of seed) turns before (all_at_rest after))) }
    ensures parked { OnOk result (AllParked hall.new shells.new.items) }
    ensures first { port.new.first ≡ port.old.first }
{
    let mut words = Lcg64Xsh32::new(seed, 0);
    for _ in 0..u64::MAX {
        if take_drawn_turn(alloc, &mut words, shells, hall, port)? {
            return Ok(());
        }
    }
    Err(AllocError)
}

/// Runs workers over the objects of a hall that nobody has asked yet, one turn at a time, until all are parked. The next
/// 32-bit word of the generator of the seed, of stream 0, modulo the number of workers that are not parked, picks by
/// ascending number whose turn it is. The outcome names this budget of steps; it is missing only for want of memory, and
/// then too the sink has what a run wrote.
pub fn simulate<M: Machine, S: Sink>(
    alloc: Global,
    seed: u64,
    steps: u32,
    shells: Vec<Shell<M>>,
    hall: PlainHall,
    sink: S,
) -> SimEnd<S>
    requires fresh { IsFresh M.code M.Rule.objects shells.items hall }
    ensures sound { (k : M.Rule.Code) → AreNew M.code k shells.items → IfSome result.outcome (Sound (workers_setup (M.Rule.asks k) (objects_of hall))) }
    ensures run { (k : M.Rule.Code) → AreNew M.code k shells.items → IfSome result.outcome (IsRunOfSeed (workers_setup (M.Rule.asks k) (objects_of hall)) seed steps (length shells.items)) }
    ensures workers { IfSome result.outcome (IsOfWorkers steps (length shells.items)) }
    ensures records { IfSome result.outcome (λ o. Records S.held S.faults sink o.port result.sink) }
    ensures ran { (k : M.Rule.Code) → AreNew M.code k shells.items → (o : Outcome) × HasRunTo S.held S.faults (workers_setup (M.Rule.asks k) (objects_of hall)) steps (length shells.items) sink result.sink o }
{
    let mut shells = shells;
    let mut hall = hall;
    let mut port = Port::new(alloc, sink);
    match take_turns(alloc, seed, &mut shells, &mut hall, &mut port) {
        Ok(()) => end_record(alloc, steps, shells, hall, port),
        Err(_) => stop(hall, port),
    }
}
