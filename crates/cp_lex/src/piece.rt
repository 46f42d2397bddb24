ghost use Rattle.std.specs.Prelude.{◌≡◌, ◌<◌, length, IfOk};
ghost use Rattle.cp_lex.specs.Lexical.{piece};

use crate::before::Before;
use crate::comment::block_comment;
use crate::error::LexWhy;
use crate::number::number;
use crate::runs::{layout_len, line_len};
use crate::start::{Start, start_of};
use crate::token::TokenKind;
use crate::word::{bracket, name_word, quoted_text, quoted_word, solo_word, symbol_word, variable};
use std::alloc::{AllocError, Global};

/// What stands at the front of a text, and how many bytes it takes. What is refused is refused so many bytes from the
/// front.
#[derive(Drop)]
pub(crate) enum Piece {
    Blank(usize),
    Token(TokenKind, usize),
    Refused(LexWhy, usize),
}

/// The longest piece at the front of a text.
pub(crate) fn piece_at(alloc: Global, before: Before, text: &[u8]) -> Result<Piece, AllocError>
    requires { 0 < length text.now }
    ensures { IfOk result (λ p. p ≡ piece before text.now) }
{
    match start_of(text) {
        Start::Layout => Ok(Piece::Blank(layout_len(text))),
        Start::LineComment => Ok(Piece::Blank(line_len(text))),
        Start::BlockComment => Ok(block_comment(text)),
        Start::SmallLetter => name_word(alloc, text),
        Start::CapitalLetter => variable(alloc, text),
        Start::Digit => Ok(number(before, text)),
        Start::ClauseEnd => Ok(Piece::Token(TokenKind::End, 1)),
        Start::Symbols => symbol_word(alloc, text),
        Start::Solo => solo_word(alloc, text),
        Start::WordQuote => quoted_word(alloc, text),
        Start::TextQuote => quoted_text(alloc, text),
        Start::Bracket => Ok(Piece::Token(bracket(before, text[0]), 1)),
        Start::Nothing => Ok(Piece::Refused(LexWhy::StrayByte, 0)),
    }
}
