ghost use Rattle.std.specs.Prelude.{◌≡◌, ◌+◌, ◌<◌, ◌≤◌, length, Some, None, if◌then◌else◌};
ghost use lib.Utf8.{scalar};
ghost use Rattle.cp_char.specs.Characters.{first, is_octal};
ghost use Rattle.cp_lex.specs.Quoted.{by_number, by_letter, escape, is_escaped_sign, continues_octal};
ghost use Rattle.cp_lex.specs.Steps.{IsEscapeWithin};

use crate::digits::{digits_len, is_digit, number_of};
use crate::runs::begins_with;

/// What the bytes behind a backslash are.
#[derive(Clone, Copy)]
pub(crate) enum Escape {
    /// No escape: with the backslash so many bytes are passed over.
    Bad(usize),
    /// A character, and how many bytes it takes.
    Character(char, usize),
    /// A newline, which stands for nothing.
    Newline,
}

/// The escape at the front of the bytes behind a backslash.
pub(crate) fn escape_at(text: &[u8]) -> Escape
    ensures value { result ≡ escape text.now }
    ensures within { IsEscapeWithin result (length text.now) }
{
    let Some((&first, rest)) = text.split_first() else {
        return Escape::Bad(0);
    };
    if first == b'\n' {
        Escape::Newline
    } else if first == b'0' && !continues_octal(rest) {
        Escape::Character('\0', 1)
    } else if is_digit(first, 8) {
        by_number(0, 8, text)
    } else if first == b'x' {
        by_number(1, 16, rest)
    } else {
        by_letter(first)
    }
}

/// Whether an octal digit or a backslash stands at the front.
fn continues_octal(text: &[u8]) -> bool
    ensures { result ≡ continues_octal text.now }
{
    begins_with(text, b'\\') || begins_with_octal(text)
}

fn begins_with_octal(text: &[u8]) -> bool
    ensures { result ≡ is_octal (first text.now) }
{
    match text.first() {
        Some(c) => is_digit(*c, 8),
        None => false,
    }
}

/// A character by digits of a base and a closing backslash. So many bytes stand between the opening backslash and the
/// digits.
fn by_number(skipped: usize, base: u64, text: &[u8]) -> Escape
    requires base { 2 ≤ base }
    requires few { skipped ≤ 1 }
    ensures value { result ≡ by_number skipped base text.now }
    ensures within { IsEscapeWithin result (skipped + length text.now) }
{
    let len = digits_len(base, text);
    let (digits, rest) = text.split_at(len);
    if len == 0 || !begins_with(rest, b'\\') {
        return Escape::Bad(0);
    }
    match character_of(number_of(base, digits)) {
        Some(c) => Escape::Character(c, skipped + len + 1),
        None => Escape::Bad(skipped + len + 1),
    }
}

/// The character of a number.
fn character_of(number: u64) -> Option<char>
    ensures { result ≡ (if scalar number then Some number else None) }
{
    if number <= 0x10FFFF {
        char::from_u32(number as u32)
    } else {
        None
    }
}

/// A character by its letter.
fn by_letter(letter: u8) -> Escape
    ensures { result ≡ by_letter letter }
{
    if letter == b'a' {
        Escape::Character('\x07', 1)
    } else if letter == b'b' {
        Escape::Character('\x08', 1)
    } else if letter == b't' {
        Escape::Character('\t', 1)
    } else if letter == b'n' {
        Escape::Character('\n', 1)
    } else if letter == b'v' {
        Escape::Character('\x0B', 1)
    } else if letter == b'f' {
        Escape::Character('\x0C', 1)
    } else if letter == b'r' {
        Escape::Character('\r', 1)
    } else if is_escaped_sign(letter) {
        Escape::Character(letter as char, 1)
    } else {
        Escape::Bad(0)
    }
}

/// Whether a byte stands for itself behind a backslash.
fn is_escaped_sign(c: u8) -> bool
    ensures { result ≡ is_escaped_sign c }
{
    c == b'\\' || c == b'\'' || c == b'"' || c == b'`'
}
