ghost use Rattle.std.specs.Prelude.{◌≡◌, true, is_some, Some, None, IfOk, IfErr, MatchResult};
ghost use Rattle.std.specs.List.{All};
ghost use Rattle.std.specs.Str.{IsUtf8};
ghost use Rattle.cp_words.specs.Words.{number_in};
ghost use Rattle.cp_words.specs.Commands.{gen_in, gen_from};

use crate::command::{Command, WordsError};
use crate::number::is_number_in;
use crate::option::are_known;
use crate::positional::positional_of;
use crate::reader::{gen_reader, matches_of, u32_of};
use cp_io::Bytes;
use std::alloc::Global;

/// The most items of a generated program.
const MOST_ITEMS: u64 = 100_000;

/// Reads the value of the word.
fn read_gen(alloc: Global, items: &str) -> Result<Command, WordsError>
    requires { is_some (number_in 1 100000 items.now) ≡ true }
    ensures ok { IfOk result (λ command. gen_from (number_in 1 100000 items.now) ≡ Some command) }
    ensures err { IfErr result (λ e. e ≡ WordsError.NoMemory) }
{
    let list = ["gen", "--", items];
    let reader = gen_reader(alloc)?;
    match matches_of(reader, list.as_slice()) {
        Ok(matches) => Ok(Command::Gen {
            items: u32_of(&matches, "items"),
        }),
        Err(error) => Err(error),
    }
}

/// The command of the words after `gen`.
pub(crate) fn gen_of(alloc: Global, words: &[Bytes]) -> Result<Command, WordsError>
    requires { All IsUtf8 words.now }
    ensures { MatchResult result (λ command. gen_in words.now ≡ Some command) (λ e. e ≡ WordsError.Usage → gen_in words.now ≡ None) }
{
    if !are_known(&[], &[], words) {
        return Err(WordsError::Usage);
    }
    match positional_of(words) {
        Some(items) => {
            if is_number_in(1, MOST_ITEMS, items.as_bytes()) {
                read_gen(alloc, items)
            } else {
                Err(WordsError::Usage)
            }
        }
        None => Err(WordsError::Usage),
    }
}
