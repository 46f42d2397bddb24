ghost use Rattle.std.specs.Prelude.{◌≡◌};
ghost use Rattle.cp_lex.specs.Lexical.{after};

use crate::token::TokenKind;

/// What ends directly before a place.
#[derive(Clone, Copy)]
pub(crate) enum Before {
    /// A word that is an unquoted `-`.
    Minus,
    OtherWord,
    NoWord,
}

/// What a token of so many bytes leaves behind it.
pub(crate) fn behind(kind: &TokenKind, len: usize) -> Before
    ensures { result ≡ after kind.now len }
{
    match kind {
        TokenKind::Word(name) => {
            if len == 1 && name.as_slice() == b"-".as_slice() {
                Before::Minus
            } else {
                Before::OtherWord
            }
        }
        _ => Before::NoWord,
    }
}
