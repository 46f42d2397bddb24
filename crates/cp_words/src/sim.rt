ghost use Rattle.std.specs.Prelude.{◌≡◌, true, is_some, Some, None, IfOk, IfErr, MatchOption, MatchResult};
ghost use Rattle.std.specs.List.{All};
ghost use Rattle.std.specs.Str.{IsUtf8};
ghost use Rattle.cp_words.specs.Words.{number_by};
ghost use Rattle.cp_words.specs.Commands.{steps, engines, seed, sim_from, sim_in};

use crate::command::{Command, WordsError};
use crate::flag::flag_in;
use crate::option::{NumberOption, are_known};
use crate::positional::positional_of;
use crate::reader::{matches_of, sim_reader, str_of, u32_of, u64_of};
use cp_io::{Bytes, bytes_of};
use std::alloc::Global;

const STEPS: NumberOption = NumberOption {
    beginning: b"--steps=",
    least: 1,
    most: 10_000_000,
    default: "--steps=1000000",
};

const ENGINES: NumberOption = NumberOption {
    beginning: b"--engines=",
    least: 1,
    most: 32,
    default: "--engines=16",
};

const SEED: NumberOption = NumberOption {
    beginning: b"--seed=",
    least: 0,
    most: u64::MAX,
    default: "--seed=0",
};

/// The option without a value.
const LOG: &[u8] = b"--log";

/// The words of `sim`: the file's, one for each option with a number, and whether the log is wanted.
#[derive(Clone, Copy)]
struct SimWords<'a> {
    file: &'a str,
    steps: &'a str,
    engines: &'a str,
    seed: &'a str,
    log: bool,
}

/// The words after `sim`, by what they give.
fn sim_words(words: &[Bytes]) -> Option<SimWords<'_>>
    requires { All IsUtf8 words.now }
    ensures { MatchOption result (sim_in words.now ≡ None) (λ w.
        (is_some (number_by steps w.steps.now) ≡ true)
        × (is_some (number_by engines w.engines.now) ≡ true)
        × (is_some (number_by seed w.seed.now) ≡ true)
        × (sim_in words.now ≡ sim_from (Some w.file.now) (number_by steps w.steps.now) (number_by engines w.engines.now) (number_by seed w.seed.now) (Some w.log))) }
{
    if !are_known(&[STEPS, ENGINES, SEED], &[LOG], words) {
        return None;
    }
    let file = positional_of(words)?;
    let steps = STEPS.word_in(words)?;
    let engines = ENGINES.word_in(words)?;
    let seed = SEED.word_in(words)?;
    let log = flag_in(LOG, words)?;
    Some(SimWords {
        file,
        steps,
        engines,
        seed,
        log,
    })
}

/// Reads the values of the words.
fn read_sim(alloc: Global, words: &SimWords<'_>) -> Result<Command, WordsError>
    requires steps { is_some (number_by steps words.now.steps.now) ≡ true }
    requires engines { is_some (number_by engines words.now.engines.now) ≡ true }
    requires seed { is_some (number_by seed words.now.seed.now) ≡ true }
    ensures ok { IfOk result (λ command. sim_from (Some words.now.file.now) (number_by steps words.now.steps.now) (number_by engines words.now.engines.now) (number_by seed words.now.seed.now) (Some words.now.log) ≡ Some command) }
    ensures err { IfErr result (λ e. e ≡ WordsError.NoMemory) }
{
    let list = [
        "sim",
        words.steps,
        words.engines,
        words.seed,
        "--",
        words.file,
    ];
    let reader = sim_reader(alloc)?;
    match matches_of(reader, list.as_slice()) {
        Ok(matches) => Ok(Command::Sim {
            file: bytes_of(alloc, str_of(&matches, "file").as_bytes())?,
            steps: u32_of(&matches, "steps"),
            engines: u32_of(&matches, "engines"),
            seed: u64_of(&matches, "seed"),
            log: words.log,
        }),
        Err(error) => Err(error),
    }
}

/// The command of the words after `sim`.
pub(crate) fn sim_of(alloc: Global, words: &[Bytes]) -> Result<Command, WordsError>
    requires { All IsUtf8 words.now }
    ensures { MatchResult result (λ command. sim_in words.now ≡ Some command) (λ e. e ≡ WordsError.Usage → sim_in words.now ≡ None) }
{
    match sim_words(words) {
        Some(words) => read_sim(alloc, &words),
        None => Err(WordsError::Usage),
    }
}
