ghost use Rattle.std.specs.Prelude.{◌≡◌, true};
ghost use Rattle.cp_load.specs.Answers.{IsSafe};
ghost use Rattle.cp_top.specs.Written.{end_on, IsRunEnd};
ghost use Rattle.cp_top.specs.Loading.{use_of, IsLoadEnd};

use crate::tell::tell;
use crate::told::{Told, short};
use crate::unloaded::tell_unloaded;
use cp_code::ProgramCode;
use cp_io::{Files, Sink};
use cp_load::{Need, load};
use cp_schedule::SimEnd;
use cp_simulate::simulate;
use std::alloc::Global;

/// How a program is to be run: the budget of steps of each goal, how many engines, the seed of the schedule, and whether the
/// log is wanted.
#[derive(Clone, Copy)]
pub(crate) struct Settings {
    pub steps: u32,
    pub engines: u32,
    pub seed: u64,
    pub log: bool,
}

/// Runs an accepted program and tells the run.
fn run<S: Sink>(alloc: Global, code: &ProgramCode, settings: Settings, out: S) -> Told<S>
    requires faultless { S.faults out ≡ 0 }
    requires safe { IsSafe code.now.program }
    ensures { IsRunEnd code.now.program settings.seed code.now.steps settings.engines settings.log (end_on S.held S.faults out result.out result.status result.outcome) }
{
    let SimEnd { outcome, sink } = simulate(alloc, code, settings.seed, settings.engines, out);
    match outcome {
        None => short(sink),
        Some(outcome) => tell(alloc, outcome, settings.log, sink),
    }
}

/// Loads a file, and runs the program and tells the run, or tells why there is no program.
pub(crate) fn sim<F: Files, S: Sink>(
    alloc: Global,
    files: &mut F,
    file: &[u8],
    settings: Settings,
    out: S,
) -> Told<S>
    requires { S.faults out ≡ 0 }
    ensures ending { IsLoadEnd file.now true (use_of F.tree F.faults F.misses files.old files.new) (λ p. IsRunEnd p settings.seed settings.steps settings.engines settings.log (end_on S.held S.faults out result.out result.status result.outcome)) (end_on S.held S.faults out result.out result.status result.outcome) }
    ensures tree { F.tree files.new ≡ F.tree files.old }
{
    match load(alloc, files, file, Need { main: true }) {
        Err(error) => tell_unloaded(alloc, error, out),
        Ok(program) => {
            let code = ProgramCode {
                program,
                steps: settings.steps,
            };
            run(alloc, &code, settings, out)
        }
    }
}
