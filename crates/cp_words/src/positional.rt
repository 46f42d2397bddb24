ghost use Rattle.std.specs.Prelude.{◌≡◌, option_map, count_by, find};
ghost use Rattle.std.specs.List.{All};
ghost use Rattle.std.specs.Str.{IsUtf8};
ghost use Rattle.cp_words.specs.Words.{is_positional, positional_of};

use crate::text::text_of;
use cp_io::Bytes;

/// Whether the word is not empty and does not begin with `-`.
pub(crate) fn is_positional(word: &[u8]) -> bool
    ensures { result ≡ is_positional word.now }
{
    match word {
        [] => false,
        [first, ..] => *first != b'-',
    }
}

/// How many of the words are positional.
fn count_positional(words: &[Bytes]) -> usize
    ensures { result ≡ count_by is_positional words.now }
{
    words
        .iter()
        .filter(|word| is_positional(word.as_slice()))
        .count()
}

fn first_positional(words: &[Bytes]) -> Option<&Bytes>
    ensures { option_map (λ word. word.now) result ≡ find is_positional words.now }
{
    words.iter().find(|word| is_positional(word.as_slice()))
}

/// The only positional word.
pub(crate) fn positional_of(words: &[Bytes]) -> Option<&str>
    requires { All IsUtf8 words.now }
    ensures { option_map (λ word. word.now) result ≡ positional_of words.now }
{
    if count_positional(words) != 1 {
        return None;
    }
    match first_positional(words) {
        Some(word) => Some(text_of(word.as_slice())),
        None => None,
    }
}
