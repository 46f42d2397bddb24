ghost use Rattle.std.specs.Prelude.{◌≡◌, is_some};
ghost use Rattle.std.specs.List.{list_all};
ghost use Rattle.std.specs.Char.{is_ascii_digit};
ghost use Rattle.cp_words.specs.Words.{is_numeral, number_in};

use std::str;

fn are_digits(text: &[u8]) -> bool
    ensures { result ≡ list_all is_ascii_digit text.now }
{
    text.iter().all(|c| c.is_ascii_digit())
}

/// Whether the text is digits that do not begin with `0`, or `0` alone.
fn is_numeral(text: &[u8]) -> bool
    ensures { result ≡ is_numeral text.now }
{
    match text {
        [] => false,
        [first, more @ ..] => are_digits(text) && (*first != b'0' || more.is_empty()),
    }
}

/// Whether the text writes a number in the range.
pub(crate) fn is_number_in(least: u64, most: u64, text: &[u8]) -> bool
    ensures { result ≡ is_some (number_in least most text.now) }
{
    if !is_numeral(text) {
        return false;
    }
    match str::from_utf8(text) {
        Ok(digits) => match digits.parse::<u64>() {
            Ok(number) => least <= number && number <= most,
            Err(_) => false,
        },
        Err(_) => false,
    }
}
