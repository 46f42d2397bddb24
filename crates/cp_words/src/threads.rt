ghost use Rattle.std.specs.Prelude.{◌↔◌, IsTrue};
ghost use Rattle.cp_words.specs.Commands.{IsThreaded};

use crate::command::Words;

/// Whether the first word is `run`, `serve` or `call`, the commands that start threads. It takes no memory.
pub fn wants_threads(words: &Words) -> bool
    ensures { IsTrue result ↔ IsThreaded words.now }
{
    match words.as_slice() {
        [] => false,
        [word, ..] => {
            let word = word.as_slice();
            word == b"run".as_slice() || word == b"serve".as_slice() || word == b"call".as_slice()
        }
    }
}
