ghost use Rattle.std.specs.Prelude.{◌≡◌, ◌<◌, ◌≤◌, take, length, IfOk};
ghost use Rattle.cp_lex.specs.declared.token.TokenKind.TheVariants.{Word};
ghost use Rattle.cp_lex.specs.declared.piece.Piece.TheVariants.{Token};
ghost use Rattle.cp_lex.specs.Lexical.{piece_from, bracket_token};
ghost use Rattle.cp_lex.specs.declared.before.Before.{Before};
ghost use Rattle.cp_lex.specs.declared.start.Start.TheVariants.{SmallLetter, CapitalLetter, Symbols, Solo, WordQuote, TextQuote};

use crate::before::Before;
use crate::error::LexWhy;
use crate::piece::Piece;
use crate::quoted::{Quoted, quoted_at};
use crate::runs::{name_len, symbols_len};
use crate::token::TokenKind;
use cp_io::bytes_of;
use std::alloc::{AllocError, Global};

/// The word of so many bytes at the front of a text.
fn plain_word(alloc: Global, text: &[u8], len: usize) -> Result<Piece, AllocError>
    requires { len ≤ length text.now }
    ensures { IfOk result (λ p. p ≡ Token (Word (take len text.now)) len) }
{
    Ok(Piece::Token(TokenKind::Word(bytes_of(alloc, text.split_at(len).0)?), len))
}

/// The word of letters at the front of a text.
pub(crate) fn name_word(alloc: Global, text: &[u8]) -> Result<Piece, AllocError>
    ensures { (before : Before) → IfOk result (λ p. p ≡ piece_from SmallLetter before text.now) }
{
    plain_word(alloc, text, name_len(text))
}

/// The word of symbol characters at the front of a text.
pub(crate) fn symbol_word(alloc: Global, text: &[u8]) -> Result<Piece, AllocError>
    ensures { (before : Before) → IfOk result (λ p. p ≡ piece_from Symbols before text.now) }
{
    plain_word(alloc, text, symbols_len(text))
}

/// The word of the one character at the front of a text.
pub(crate) fn solo_word(alloc: Global, text: &[u8]) -> Result<Piece, AllocError>
    requires { 0 < length text.now }
    ensures { (before : Before) → IfOk result (λ p. p ≡ piece_from Solo before text.now) }
{
    plain_word(alloc, text, 1)
}

/// The variable at the front of a text.
pub(crate) fn variable(alloc: Global, text: &[u8]) -> Result<Piece, AllocError>
    ensures { (before : Before) → IfOk result (λ p. p ≡ piece_from CapitalLetter before text.now) }
{
    let len = name_len(text);
    Ok(Piece::Token(
        TokenKind::Variable(bytes_of(alloc, text.split_at(len).0)?),
        len,
    ))
}

/// The word in single quotes at the front of a text.
pub(crate) fn quoted_word(alloc: Global, text: &[u8]) -> Result<Piece, AllocError>
    requires { 0 < length text.now }
    ensures { (before : Before) → IfOk result (λ p. p ≡ piece_from WordQuote before text.now) }
{
    Ok(match quoted_at(alloc, b'\'', text.split_at(1).1)? {
        Quoted::Closed(bytes, len) => Piece::Token(TokenKind::Word(bytes), len + 1),
        Quoted::BadAt(len) => Piece::Refused(LexWhy::BadEscape, len + 1),
        Quoted::Unended => Piece::Refused(LexWhy::OpenQuote, 0),
    })
}

/// The text in double quotes at the front of a text.
pub(crate) fn quoted_text(alloc: Global, text: &[u8]) -> Result<Piece, AllocError>
    requires { 0 < length text.now }
    ensures { (before : Before) → IfOk result (λ p. p ≡ piece_from TextQuote before text.now) }
{
    Ok(match quoted_at(alloc, b'"', text.split_at(1).1)? {
        Quoted::Closed(bytes, len) => Piece::Token(TokenKind::Text(bytes), len + 1),
        Quoted::BadAt(len) => Piece::Refused(LexWhy::BadEscape, len + 1),
        Quoted::Unended => Piece::Refused(LexWhy::OpenQuote, 0),
    })
}

/// The token of a bracket, a comma or a bar.
pub(crate) fn bracket(before: Before, sign: u8) -> TokenKind
    ensures { result ≡ bracket_token before sign }
{
    match before {
        Before::NoWord => TokenKind::Punct(sign),
        Before::Minus | Before::OtherWord => {
            if sign == b'(' {
                TokenKind::OpenCall
            } else {
                TokenKind::Punct(sign)
            }
        }
    }
}
