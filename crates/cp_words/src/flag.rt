ghost use Rattle.std.specs.Prelude.{◌≡◌, count_by};
ghost use Rattle.std.specs.List.{list_any};
ghost use Rattle.cp_words.specs.Words.{is_flag, flag_of};

use cp_io::Bytes;

/// Whether the word is one of these options without a value.
pub(crate) fn is_one_of(flags: &[&[u8]], word: &[u8]) -> bool
    ensures { result ≡ list_any (λ f. is_flag f.now word.now) flags.now }
{
    flags.iter().any(|flag| word == *flag)
}

/// How many of the words are this option.
fn count(flag: &[u8], words: &[Bytes]) -> usize
    ensures { result ≡ count_by (is_flag flag.now) words.now }
{
    words.iter().filter(|word| word.as_slice() == flag).count()
}

/// Whether the words have this option. None where they have it more than once.
pub(crate) fn flag_in(flag: &[u8], words: &[Bytes]) -> Option<bool>
    ensures { result ≡ flag_of flag.now words.now }
{
    match count(flag, words) {
        0 => Some(false),
        1 => Some(true),
        _ => None,
    }
}
