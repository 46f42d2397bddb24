ghost use Rattle.std.specs.Prelude.{◌≡◌};
ghost use Rattle.cp_lex.specs.Lexical.{start, sign, is_bracket};
ghost use Rattle.cp_char.specs.Characters.{ends_clause};

use crate::digits::is_digit;
use cp_char::{is_layout, is_symbol};

/// What the first character of a text begins.
#[derive(Clone, Copy)]
pub(crate) enum Start {
    Layout,
    LineComment,
    BlockComment,
    SmallLetter,
    CapitalLetter,
    Digit,
    ClauseEnd,
    Symbols,
    Solo,
    WordQuote,
    TextQuote,
    Bracket,
    Nothing,
}

/// What the first character of a text begins.
pub(crate) fn start_of(text: &[u8]) -> Start
    ensures { result ≡ start text.now }
{
    let Some((&first, rest)) = text.split_first() else {
        return Start::Nothing;
    };
    if is_layout(first) {
        Start::Layout
    } else if first == b'%' {
        Start::LineComment
    } else if text.starts_with(b"/*") {
        Start::BlockComment
    } else if first.is_ascii_lowercase() {
        Start::SmallLetter
    } else if first.is_ascii_uppercase() || first == b'_' {
        Start::CapitalLetter
    } else if is_digit(first, 10) {
        Start::Digit
    } else if first == b'.' && ends_clause(rest) {
        Start::ClauseEnd
    } else if is_symbol(first) {
        Start::Symbols
    } else {
        sign(first)
    }
}

/// What a character begins that is neither layout nor part of a comment, a name, a number or a symbol.
fn sign(first: u8) -> Start
    ensures { result ≡ sign first }
{
    if first == b'!' || first == b';' {
        Start::Solo
    } else if first == b'\'' {
        Start::WordQuote
    } else if first == b'"' {
        Start::TextQuote
    } else if is_bracket(first) {
        Start::Bracket
    } else {
        Start::Nothing
    }
}

fn is_bracket(first: u8) -> bool
    ensures { result ≡ is_bracket first }
{
    first == b'('
        || first == b')'
        || first == b'['
        || first == b']'
        || first == b'{'
        || first == b'}'
        || first == b','
        || first == b'|'
}

/// Whether a full stop before this text ends a clause.
fn ends_clause(rest: &[u8]) -> bool
    ensures { result ≡ ends_clause rest.now }
{
    match rest.first() {
        None => true,
        Some(c) => is_layout(*c) || *c == b'%',
    }
}
