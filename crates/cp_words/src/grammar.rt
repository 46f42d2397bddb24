ghost use Rattle.std.specs.Prelude.{◌≡◌, ◌∷◌, Some, None, MatchResult};
ghost use Rattle.std.specs.List.{All};
ghost use Rattle.std.specs.Str.{IsUtf8};
ghost use Rattle.cp_words.specs.declared.command.Command.{Command as Meant};
ghost use Rattle.cp_words.specs.Commands.{IsCommand, command_by};

use crate::check::check_of;
use crate::command::{Command, Words, WordsError};
use crate::generated::gen_of;
use crate::sim::sim_of;
use crate::text::are_utf8;
use cp_io::Bytes;
use std::alloc::Global;

/// The command of a command word and the words after it.
fn command_by(alloc: Global, word: &[u8], words: &[Bytes]) -> Result<Command, WordsError>
    requires { All IsUtf8 words.now }
    ensures { MatchResult result (λ command. command_by word.now words.now ≡ Some command) (λ e. e ≡ WordsError.Usage → command_by word.now words.now ≡ None) }
{
    if word == b"check".as_slice() {
        check_of(alloc, words)
    } else if word == b"sim".as_slice() {
        sim_of(alloc, words)
    } else if word == b"gen".as_slice() {
        gen_of(alloc, words)
    } else {
        Err(WordsError::Usage)
    }
}

/// The command that the words write. `Usage` comes exactly where they are no command of the grammar: the command word
/// first, then its positional words in order and its options anywhere among them, each at most once.
pub fn command_of(alloc: Global, words: &Words) -> Result<Command, WordsError>
    ensures { MatchResult result (λ command. IsCommand words.now command) (λ e. e ≡ WordsError.Usage → (command : Meant) → IsCommand words.now command → ⊥) }
{
    let words = words.as_slice();
    if !are_utf8(words) {
        return Err(WordsError::Usage);
    }
    match words {
        [] => Err(WordsError::Usage),
        [word, rest @ ..] => command_by(alloc, word.as_slice(), rest),
    }
}
