ghost use Rattle.std.specs.Prelude.{◌≡◌};
ghost use Rattle.cp_lex.specs.Quoted.{escape};
ghost use Rattle.cp_lex.specs.Lexical.{character, escaped_character, quote_character, plain_character};

use crate::error::LexWhy;
use crate::escape::{Escape, escape_at};
use crate::piece::Piece;
use crate::runs::begins_with;
use crate::token::TokenKind;

/// The integer of the character at the front of a text, which stands behind `0'`.
pub(crate) fn character(text: &[u8]) -> Piece
    ensures { result ≡ character text.now }
{
    let Some((&first, rest)) = text.split_first() else {
        return Piece::Refused(LexWhy::StrayByte, 0);
    };
    if first == b'\\' {
        escaped_character(rest)
    } else if first == b'\'' {
        quote_character(rest)
    } else {
        plain_character(text)
    }
}

/// An escape behind `0'` and a backslash.
fn escaped_character(rest: &[u8]) -> Piece
    ensures { result ≡ escaped_character (escape rest.now) }
{
    match escape_at(rest) {
        Escape::Bad(_) => Piece::Refused(LexWhy::BadEscape, 2),
        Escape::Character(c, len) => Piece::Token(TokenKind::Int(u64::from(c)), 3 + len),
        Escape::Newline => Piece::Refused(LexWhy::StrayByte, 0),
    }
}

/// A quote behind `0'` is written doubled.
fn quote_character(rest: &[u8]) -> Piece
    ensures { result ≡ quote_character rest.now }
{
    if begins_with(rest, b'\'') {
        Piece::Token(TokenKind::Int(u64::from(b'\'')), 4)
    } else {
        Piece::Refused(LexWhy::StrayByte, 0)
    }
}

/// A character behind `0'` that stands for itself.
fn plain_character(text: &[u8]) -> Piece
    ensures { result ≡ plain_character text.now }
{
    match bstr::decode_utf8(text) {
        (Some(c), len) => Piece::Token(TokenKind::Int(u64::from(c)), 2 + len),
        (None, _) => Piece::Refused(LexWhy::StrayByte, 0),
    }
}
