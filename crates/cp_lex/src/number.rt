ghost use Rattle.std.specs.Prelude.{◌≡◌, ◌<◌, ◌≤◌, length};
ghost use Rattle.cp_lex.specs.Lexical.{is_wide, integer, decimal, radix, number, begins_fraction};

use crate::before::Before;
use crate::character::character;
use crate::digits::{digits_len, is_digit, number_of};
use crate::error::LexWhy;
use crate::piece::Piece;
use crate::token::TokenKind;

/// The number at the front of a text, which begins with a digit.
pub(crate) fn number(before: Before, text: &[u8]) -> Piece
    ensures { result ≡ number before text.now }
{
    if text.starts_with(b"0'") {
        character(text.split_at(2).1)
    } else if text.starts_with(b"0x") {
        radix(before, 16, text)
    } else if text.starts_with(b"0o") {
        radix(before, 8, text)
    } else if text.starts_with(b"0b") {
        radix(before, 2, text)
    } else {
        decimal(before, text)
    }
}

/// An integer in a base, whose digits stand behind two bytes. Without a digit the `0` stands for itself.
fn radix(before: Before, base: u64, text: &[u8]) -> Piece
    requires base { 2 ≤ base }
    requires marked { 2 ≤ length text.now }
    ensures { result ≡ radix before base text.now }
{
    let behind = text.split_at(2).1;
    let len = digits_len(base, behind);
    if len == 0 {
        decimal(before, text)
    } else {
        integer(before, number_of(base, behind.split_at(len).0), 2 + len)
    }
}

/// A decimal integer. A float is refused.
fn decimal(before: Before, text: &[u8]) -> Piece
    ensures { result ≡ decimal before text.now }
{
    let len = digits_len(10, text);
    let (digits, rest) = text.split_at(len);
    let value = number_of(10, digits);
    if !is_wide(before, value) && begins_fraction(rest) {
        Piece::Refused(LexWhy::Float, 0)
    } else {
        integer(before, value, len)
    }
}

/// The integer of so many bytes, where it is not too large.
fn integer(before: Before, value: u64, len: usize) -> Piece
    ensures { result ≡ integer before value len }
{
    if is_wide(before, value) {
        Piece::Refused(LexWhy::WideNumber, 0)
    } else {
        Piece::Token(TokenKind::Int(value), len)
    }
}

/// Whether an integer is too large behind what stands before it.
fn is_wide(before: Before, value: u64) -> bool
    ensures { result ≡ is_wide before value }
{
    match before {
        Before::Minus => value > 1 << 63,
        Before::OtherWord => value >= 1 << 63,
        Before::NoWord => value >= 1 << 63,
    }
}

/// Whether a full stop and a decimal digit stand at the front.
fn begins_fraction(text: &[u8]) -> bool
    ensures { result ≡ begins_fraction text.now }
{
    text.len() >= 2 && text[0] == b'.' && is_digit(text[1], 10)
}
