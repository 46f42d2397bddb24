ghost use Rattle.std.specs.Prelude.{◌≡◌, ◌↔◌, IsTrue};
ghost use Rattle.std.specs.List.{All};
ghost use Rattle.std.specs.Str.{IsUtf8};

use cp_io::Bytes;
use std::str;

fn is_utf8(word: &[u8]) -> bool
    ensures { IsTrue result ↔ IsUtf8 word.now }
{
    str::from_utf8(word).is_ok()
}

/// Whether each word is UTF-8.
pub(crate) fn are_utf8(words: &[Bytes]) -> bool
    ensures { IsTrue result ↔ All IsUtf8 words.now }
{
    for word in words {
        if !is_utf8(word.as_slice()) {
            return false;
        }
    }
    true
}

/// The text of a word.
pub(crate) fn text_of(word: &[u8]) -> &str
    requires { IsUtf8 word.now }
    ensures { result.now ≡ word.now }
{
    str::from_utf8(word).unwrap()
}
