ghost use Rattle.std.specs.Prelude.{◌≡◌, ◌||◌, true, is_some, option_map, map, count_by, find, MatchOption, None};
ghost use Rattle.std.specs.List.{All, list_any};
ghost use Rattle.std.specs.Str.{IsUtf8};
ghost use Rattle.cp_words.specs.Words.{is_of, number_by, number_of, word_of, are_known, is_positional, is_flag};
ghost use Rattle.cp_words.specs.Options.{row_of};

use crate::flag::is_one_of;
use crate::number::is_number_in;
use crate::positional::is_positional;
use crate::text::text_of;
use cp_io::Bytes;

/// An option with a number, written in one word.
#[derive(Clone, Copy)]
pub(crate) struct NumberOption {
    /// How the word begins, with the name and `=`.
    pub(crate) beginning: &'static [u8],
    pub(crate) least: u64,
    pub(crate) most: u64,
    /// The word that stands for the option where the words have none.
    pub(crate) default: &'static str,
}

impl NumberOption {
    /// Whether the word is one of this option.
    fn is_of(&self, word: &[u8]) -> bool
        ensures { result ≡ is_of (row_of self.now) word.now }
    {
        word.starts_with(self.beginning)
    }

    /// Whether the word gives the option a number in its range.
    fn accepts(&self, word: &[u8]) -> bool
        ensures { result ≡ is_some (number_by (row_of self.now) word.now) }
    {
        match word.strip_prefix(self.beginning) {
            Some(text) => is_number_in(self.least, self.most, text),
            None => false,
        }
    }

    /// How many of the words are this option's.
    fn count(&self, words: &[Bytes]) -> usize
        ensures { result ≡ count_by (is_of (row_of self.now)) words.now }
    {
        words
            .iter()
            .filter(|word| self.is_of(word.as_slice()))
            .count()
    }

    fn first<'a>(&self, words: &'a [Bytes]) -> Option<&'a Bytes>
        ensures { option_map (λ word. word.now) result ≡ find (is_of (row_of self.now)) words.now }
    {
        words.iter().find(|word| self.is_of(word.as_slice()))
    }

    /// The word that gives the option, which may stand once.
    fn word_of<'a>(&self, words: &'a [Bytes]) -> Option<&'a str>
        requires { All IsUtf8 words.now }
        ensures { option_map (λ word. word.now) result ≡ word_of (row_of self.now) words.now }
    {
        if self.count(words) > 1 {
            return None;
        }
        match self.first(words) {
            Some(word) => Some(text_of(word.as_slice())),
            None => Some(self.default),
        }
    }

    /// The word that gives the option, if the words give it a number.
    pub(crate) fn word_in<'a>(&self, words: &'a [Bytes]) -> Option<&'a str>
        requires { All IsUtf8 words.now }
        ensures { MatchOption result (number_of (row_of self.now) words.now ≡ None) (λ word. (is_some (number_by (row_of self.now) word.now) ≡ true) × (number_of (row_of self.now) words.now ≡ number_by (row_of self.now) word.now)) }
    {
        match self.word_of(words) {
            Some(word) => {
                if self.accepts(word.as_bytes()) {
                    Some(word)
                } else {
                    None
                }
            }
            None => None,
        }
    }
}

/// Whether the word is one of these options.
fn is_option(options: &[NumberOption], word: &[u8]) -> bool
    ensures { result ≡ list_any (λ o. is_of (row_of o) word.now) options.now }
{
    options.iter().any(|option| option.is_of(word))
}

/// Whether the word is positional or one of these options.
fn is_known(options: &[NumberOption], flags: &[&[u8]], word: &[u8]) -> bool
    ensures { result ≡ (is_positional word.now || list_any (λ o. is_of o word.now) (map row_of options.now) || list_any (λ f. is_flag f word.now) (map (λ f. f.now) flags.now)) }
{
    is_positional(word) || is_option(options, word) || is_one_of(flags, word)
}

/// Whether each word is positional or one of these options.
pub(crate) fn are_known(options: &[NumberOption], flags: &[&[u8]], words: &[Bytes]) -> bool
    ensures { result ≡ are_known (map row_of options.now) (map (λ f. f.now) flags.now) words.now }
{
    words
        .iter()
        .all(|word| is_known(options, flags, word.as_slice()))
}
