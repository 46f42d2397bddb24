ghost use Rattle.std.specs.Prelude.{◌≡◌, Some, None, IfOk, IfErr, MatchResult};
ghost use Rattle.std.specs.List.{All};
ghost use Rattle.std.specs.Str.{IsUtf8};
ghost use Rattle.cp_words.specs.Commands.{check_in};

use crate::command::{Command, WordsError};
use crate::option::are_known;
use crate::positional::positional_of;
use crate::reader::{check_reader, matches_of, str_of};
use cp_io::{Bytes, bytes_of};
use std::alloc::Global;

/// Reads the value of the file's word.
fn read_check(alloc: Global, file: &str) -> Result<Command, WordsError>
    ensures ok { IfOk result (λ command. command ≡ Command.Check file.now) }
    ensures err { IfErr result (λ e. e ≡ WordsError.NoMemory) }
{
    let list = ["check", "--", file];
    let reader = check_reader(alloc)?;
    match matches_of(reader, list.as_slice()) {
        Ok(matches) => Ok(Command::Check {
            file: bytes_of(alloc, str_of(&matches, "file").as_bytes())?,
        }),
        Err(error) => Err(error),
    }
}

/// The command of the words after `check`.
pub(crate) fn check_of(alloc: Global, words: &[Bytes]) -> Result<Command, WordsError>
    requires { All IsUtf8 words.now }
    ensures { MatchResult result (λ command. check_in words.now ≡ Some command) (λ e. e ≡ WordsError.Usage → check_in words.now ≡ None) }
{
    if !are_known(&[], &[], words) {
        return Err(WordsError::Usage);
    }
    match positional_of(words) {
        Some(file) => read_check(alloc, file),
        None => Err(WordsError::Usage),
    }
}
