ghost use Rattle.std.specs.Prelude.{◌≡◌, IfOk};
ghost use Rattle.cp_top.specs.Lines.{usage_line};
ghost use Rattle.cp_top.specs.Written.{end_on};
ghost use Rattle.cp_top.specs.Loading.{use_of};
ghost use Rattle.cp_top.specs.Top.{IsCommandEnd, IsTopEnd};

use crate::check::check;
use crate::generated::write_generated;
use crate::refuse::refuse;
use crate::sim::{Settings, sim};
use crate::told::{Told, short};
use cp_call::Outcome;
use cp_io::{Files, Sink};
use cp_words::{Command, Words, WordsError, command_of};
use std::alloc::{AllocError, Global};

/// What a top call leaves: the status of the program, the outcome of a run, and the devices.
#[derive(Drop)]
pub struct LocalEnd<F: Files, S: Sink> {
    pub status: u8,
    pub outcome: Option<Outcome>,
    pub files: F,
    pub out: S,
}

/// The line for words that are no command.
fn usage_line(alloc: Global) -> Result<Vec<u8>, AllocError>
    ensures { IfOk result (λ line. line.items ≡ usage_line) }
{
    Vec::from_slice(alloc, b"{USAGE}\n")
}

/// Does a command.
fn run_command<F: Files, S: Sink>(alloc: Global, command: Command, files: &mut F, out: S) -> Told<S>
    requires { S.faults out ≡ 0 }
    ensures ending { IsCommandEnd command (use_of F.tree F.faults F.misses files.old files.new) (end_on S.held S.faults out result.out result.status result.outcome) }
    ensures tree { F.tree files.new ≡ F.tree files.old }
{
    match command {
        Command::Check { file } => check(alloc, files, file.as_slice(), out),
        Command::Sim {
            file,
            steps,
            engines,
            seed,
            log,
        } => {
            let settings = Settings {
                steps,
                engines,
                seed,
                log,
            };
            sim(alloc, files, file.as_slice(), settings, out)
        }
        Command::Gen { items } => write_generated(alloc, items, out),
    }
}

/// Does what the words after the program's name say, if they are a command of this call.
fn run_words<F: Files, S: Sink>(alloc: Global, words: &Words, files: &mut F, out: S) -> Told<S>
    requires { S.faults out ≡ 0 }
    ensures ending { IsTopEnd words.now (use_of F.tree F.faults F.misses files.old files.new) (end_on S.held S.faults out result.out result.status result.outcome) }
    ensures tree { F.tree files.new ≡ F.tree files.old }
{
    match command_of(alloc, words) {
        Err(WordsError::NoMemory) => short(out),
        Err(WordsError::Usage) => refuse(64, usage_line(alloc), out),
        Ok(command) => run_command(alloc, command, files, out),
    }
}

/// Does what the words after the program's name say, with these files and this sink, which has not failed yet: `check FILE`,
/// `sim FILE` and `gen N`. It waits for nobody.
///
/// The status is that of the first row which applies, with its line.
/// - 64, `{USAGE}`: the words are no command.
/// - 66, `{FILE: NAME: WHY}`: a file is missing, too big (over 1,048,576 bytes) or could not be read.
/// - 65, `{REFUSED: FILE:LINE: WHY}`: the program is refused.
/// - 70, without a line: memory was short.
/// - 74, without a line: the sink failed.
/// - For `sim` 4, `{STEPS: goal 1}`: goal 1 used up its steps; 3, `{SUSPENDED: goal 1 on NAME}`: it has not ended; 2,
///   `{UNCAUGHT: BALL}`: it ended by a ball; 1, `{FAILED: goal 1}`: it failed.
/// - 0: for `check` with `{ACCEPTED: M modules, C clauses, S shared}`.
///
/// With `--log`, a newline, the line `%LOG` and the log of the run follow the line.
pub fn local_top<F: Files, S: Sink>(
    alloc: Global,
    words: &Words,
    files: F,
    out: S,
) -> LocalEnd<F, S>
    requires { S.faults out ≡ 0 }
    ensures ending { IsTopEnd words.now (use_of F.tree F.faults F.misses files result.files) (end_on S.held S.faults out result.out result.status result.outcome) }
    ensures tree { F.tree result.files ≡ F.tree files }
{
    let mut files = files;
    let Told {
        status,
        outcome,
        out,
    } = run_words(alloc, words, &mut files, out);
    LocalEnd {
        status,
        outcome,
        files,
        out,
    }
}
