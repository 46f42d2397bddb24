//! The values of words that stand in the grammar, read with `clap`.

ghost use Rattle.std.specs.Prelude.{◌≡◌, ◌^◌, ◌-◌, false, true, map, is_some, Some, IfOk, IfErr};
ghost use Rattle.clap.specs.Words.{app_of, rule_of, new_rule, takes, matches_of, rows_of, found_of, first_of};
ghost use Rattle.cp_words.specs.Readers.{option_rule, value_rule, from_one, number_at, check_app, sim_app, gen_app};

use crate::command::WordsError;
use clap::builder::ValueParser;
use clap::error::ErrorKind;
use clap::{Arg, ArgMatches, Command, value_parser};
use std::alloc::{AllocError, Global};

/// The numbers from 1 to `most`.
fn from_one<'a>(most: u32) -> ValueParser<'a>
    ensures { result ≡ from_one most }
{
    value_parser!(u32).range(1..=i64::from(most))
}

/// The argument `--name=N`.
fn option<'a>(alloc: Global, name: &'a str, values: ValueParser<'a>) -> Arg<'a>
    ensures rule { rule_of result ≡ option_rule name.entry.now values.entry }
    ensures local { result.global ≡ false }
{
    Arg::new(alloc, name).long(name).value_parser(values)
}

/// A positional argument.
fn value<'a>(alloc: Global, name: &'a str, values: ValueParser<'a>) -> Arg<'a>
    ensures rule { rule_of result ≡ value_rule name.entry.now values.entry }
    ensures local { result.global ≡ false }
{
    Arg::new(alloc, name).value_parser(values)
}

pub(crate) fn check_reader<'a>(alloc: Global) -> Result<Command<'a>, AllocError>
    ensures { IfOk result (λ command. app_of command ≡ check_app) }
{
    Command::new(alloc, "check").arg(Arg::new(alloc, "file"))
}

pub(crate) fn sim_reader<'a>(alloc: Global) -> Result<Command<'a>, AllocError>
    ensures { IfOk result (λ command. app_of command ≡ sim_app) }
{
    let steps = option(alloc, "steps", from_one(10_000_000));
    let engines = option(alloc, "engines", from_one(32));
    let seed = option(alloc, "seed", value_parser!(u64));
    Command::new(alloc, "sim")
        .arg(steps)?
        .arg(engines)?
        .arg(seed)?
        .arg(Arg::new(alloc, "file"))
}

pub(crate) fn gen_reader<'a>(alloc: Global) -> Result<Command<'a>, AllocError>
    ensures { IfOk result (λ command. app_of command ≡ gen_app) }
{
    let items = value(alloc, "items", from_one(100_000));
    Command::new(alloc, "gen").arg(items)
}

/// What a command makes of words that it takes.
pub(crate) fn matches_of<'a>(
    command: Command<'a>,
    words: &'a [&str],
) -> Result<ArgMatches<'a>, WordsError>
    requires { takes (app_of command) (map (λ word. word.now) words.now) ≡ true }
    ensures ok { IfOk result (λ m. rows_of (found_of m) ≡ matches_of (app_of command.entry) (map (λ word. word.now) words.entry.now)) }
    ensures err { IfErr result (λ e. e ≡ WordsError.NoMemory) }
{
    match command.try_get_matches_from(words) {
        Ok(matches) => Ok(matches),
        Err(error) => match error.kind() {
            ErrorKind::OutOfMemory => Err(WordsError::NoMemory),
            _ => Err(WordsError::Usage),
        },
    }
}

/// The number of an argument.
pub(crate) fn u32_of(matches: &ArgMatches, id: &str) -> u32
    requires { is_some (number_at (2 ^ 32 - 1) id.now (rows_of (found_of matches.now))) ≡ true }
    ensures { number_at (2 ^ 32 - 1) id.now (rows_of (found_of matches.now)) ≡ Some result }
{
    matches.get_one::<u32>(id).unwrap()
}

/// The number of an argument.
pub(crate) fn u64_of(matches: &ArgMatches, id: &str) -> u64
    requires { is_some (number_at (2 ^ 64 - 1) id.now (rows_of (found_of matches.now))) ≡ true }
    ensures { number_at (2 ^ 64 - 1) id.now (rows_of (found_of matches.now)) ≡ Some result }
{
    matches.get_one::<u64>(id).unwrap()
}

/// The text of an argument.
pub(crate) fn str_of<'a>(matches: &ArgMatches<'a>, id: &str) -> &'a str
    requires { is_some (first_of id.now (rows_of (found_of matches.now))) ≡ true }
    ensures { first_of id.now (rows_of (found_of matches.now)) ≡ Some result.now }
{
    matches.get_str(id).unwrap()
}
