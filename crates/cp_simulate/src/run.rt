ghost use Rattle.std.specs.Prelude.{◌≡◌, ℕ, [], length, IfOk, IfSome};
ghost use Rattle.cp_call.specs.declared.outcome.Outcome.{Outcome};
ghost use Rattle.cp_call.specs.Sound.{Sound};
ghost use Rattle.cp_load.specs.Answers.{IsSafe};
ghost use Rattle.cp_engine.specs.Good.{IsGood};
ghost use Rattle.cp_engine.specs.Walking.{State};
ghost use Rattle.cp_hall.specs.Hall.{objects_of, history_at};
ghost use Rattle.cp_out.specs.Port.{Records};
ghost use Rattle.cp_schedule.specs.Record.{AreNew};
ghost use Rattle.cp_schedule.specs.Ended.{IsOfWorkers, HasRunTo};
ghost use Rattle.cp_schedule.specs.Picked.{IfEnded, IsRunOfPicks};
ghost use Rattle.cp_simulate.specs.Runs.{objects, setup, IsRunOf};

use crate::hall::plain_hall;
use cp_call::runs_begin_going;
use cp_code::ProgramCode;
use cp_engine::Engine;
use cp_hall::PlainHall;
use cp_io::Sink;
use cp_schedule::{PickEnd, Picked, SimEnd};
use cp_shell::Shell;
use std::alloc::{AllocError, Global};

/// So many engines of the program in their shells, which are numbered from 1 on and have done nothing yet.
fn engines_of<'p>(
    alloc: Global,
    code: &'p ProgramCode,
    engines: u32,
) -> Result<Vec<Shell<Engine<'p>>>, AllocError>
    requires { IsGood code.now.program }
    ensures count { IfOk result (λ shells. length shells.items ≡ engines) }
    ensures new { IfOk result (λ shells. AreNew (λ (e : State). e.code) code.now shells.items) }
{
    let mut shells = Vec::new(alloc);
    for place in 0..engines {
        let engine = Engine::new(alloc, code)?;
        shells.push(Shell::new(alloc, place + 1, engine))?;
    }
    Ok(shells)
}

/// The engines and the shared objects of a run that begins.
fn begin<'p>(
    alloc: Global,
    code: &'p ProgramCode,
    engines: u32,
) -> Result<(Vec<Shell<Engine<'p>>>, PlainHall), AllocError>
    requires { IsGood code.now.program }
    ensures count { IfOk result (λ begun. length begun.0.items ≡ engines) }
    ensures new { IfOk result (λ begun. AreNew (λ (e : State). e.code) code.now begun.0.items) }
    ensures objects { IfOk result (λ begun. objects_of begun.1 ≡ objects code.now.program) }
    ensures unasked { IfOk result (λ begun. (p : ℕ) → history_at begun.1 p ≡ []) }
{
    let shells = engines_of(alloc, code, engines)?;
    let hall = plain_hall(alloc, &code.program)?;
    Ok((shells, hall))
}

/// Runs the program on so many engines, which are numbered from 1 on, with its goal `M:main` to be done and `code.steps`
/// steps for each goal. The next 32-bit word of the generator `Lcg64Xsh32` of the seed and of stream 0, modulo the number of
/// engines that are not parked, picks by ascending number whose turn it is; the run ends where all are parked. The outcome
/// is missing only for want of memory, and then too the sink has what a run wrote.
pub fn simulate<S: Sink>(
    alloc: Global,
    code: &ProgramCode,
    seed: u64,
    engines: u32,
    sink: S,
) -> SimEnd<S>
    requires safe { IsSafe code.now.program }
    ensures run { IfSome result.outcome (IsRunOf code.now.program seed code.now.steps engines) }
    ensures records { IfSome result.outcome (λ o. Records S.held S.faults sink o.port result.sink) }
    ensures ran { (o : Outcome) × HasRunTo S.held S.faults (setup code.now.program code.now.steps) code.now.steps engines sink result.sink o }
{
    runs_begin_going();
    match begin(alloc, code, engines) {
        Ok((shells, hall)) => cp_schedule::simulate(alloc, seed, code.steps, shells, hall, sink),
        Err(_) => SimEnd {
            outcome: None,
            sink,
        },
    }
}

/// Runs the program on so many engines, which are numbered from 1 on, one turn after another as a list of picks says, with its
/// goal `M:main` to be done and `code.steps` steps for each goal. Each pick is the number of the engine whose turn it is. The
/// run ends where all engines are parked after the last pick. It stops where one is not, and at the first pick that names
/// none, or one that is parked. However it ends, the sink has what it wrote.
pub fn simulate_on<S: Sink>(
    alloc: Global,
    code: &ProgramCode,
    picks: &[u32],
    engines: u32,
    sink: S,
) -> PickEnd<S>
    requires safe { IsSafe code.now.program }
    ensures sound { IfEnded result.end (Sound (setup code.now.program code.now.steps)) }
    ensures workers { IfEnded result.end (IsOfWorkers code.now.steps engines) }
    ensures records { IfEnded result.end (λ o. Records S.held S.faults sink o.port result.sink) }
    ensures run { (o : Outcome) × HasRunTo S.held S.faults (setup code.now.program code.now.steps) code.now.steps engines sink result.sink o × IsRunOfPicks (setup code.now.program code.now.steps) picks.now code.now.steps engines result.end o }
{
    runs_begin_going();
    match begin(alloc, code, engines) {
        Ok((shells, hall)) => {
            cp_schedule::simulate_on(alloc, picks, code.steps, shells, hall, sink)
        }
        Err(_) => PickEnd {
            end: Picked::NoMemory,
            sink,
        },
    }
}
