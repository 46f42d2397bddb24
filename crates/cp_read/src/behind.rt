ghost use Rattle.std.specs.Prelude.{◌≡◌, ℕ, List, drop, Some, None, if◌then◌else◌};
ghost use Rattle.cp_read.specs.Lexemes.{lexemes};
ghost use Rattle.cp_read.specs.Grammar as grammar;
ghost use Rattle.cp_read.specs.Look.{IsBehind};

use crate::look::{Look, look_at};
use cp_lex::Token;

/// What stands behind an argument or an element of a list.
#[derive(Clone, Copy, Drop)]
pub(crate) enum Behind {
    Closes,
    Comma,
    Bar,
    Other,
}

pub(crate) fn closes(tokens: &[Token]) -> bool
    ensures { (list : List (List ℕ)) → grammar.behind_close (lexemes list tokens.now) ≡ (if result then Some (lexemes list (drop 1 tokens.now)) else None) }
{
    match look_at(tokens) {
        Some(Look::Closes) => true,
        _ => false,
    }
}

pub(crate) fn closes_braces(tokens: &[Token]) -> bool
    ensures { (list : List (List ℕ)) → grammar.behind_brace (lexemes list tokens.now) ≡ (if result then Some (lexemes list (drop 1 tokens.now)) else None) }
{
    match look_at(tokens) {
        Some(Look::BracesClose) => true,
        _ => false,
    }
}

pub(crate) fn closes_list(tokens: &[Token]) -> bool
    ensures { (list : List (List ℕ)) → grammar.behind_bracket (lexemes list tokens.now) ≡ (if result then Some (lexemes list (drop 1 tokens.now)) else None) }
{
    match look_at(tokens) {
        Some(Look::ListCloses) => true,
        _ => false,
    }
}

pub(crate) fn ends_clause(tokens: &[Token]) -> bool
    ensures { (list : List (List ℕ)) → grammar.behind_end (lexemes list tokens.now) ≡ (if result then Some (lexemes list (drop 1 tokens.now)) else None) }
{
    match look_at(tokens) {
        Some(Look::ClauseEnds) => true,
        _ => false,
    }
}

pub(crate) fn behind_argument(tokens: &[Token]) -> Behind
    ensures { (list : List (List ℕ)) → IsBehind result (grammar.behind_argument (lexemes list tokens.now)) (lexemes list (drop 1 tokens.now)) }
{
    match look_at(tokens) {
        Some(Look::Closes) => Behind::Closes,
        Some(Look::Comma) => Behind::Comma,
        _ => Behind::Other,
    }
}

pub(crate) fn behind_element(tokens: &[Token]) -> Behind
    ensures { (list : List (List ℕ)) → IsBehind result (grammar.behind_element (lexemes list tokens.now)) (lexemes list (drop 1 tokens.now)) }
{
    match look_at(tokens) {
        Some(Look::ListCloses) => Behind::Closes,
        Some(Look::Comma) => Behind::Comma,
        Some(Look::Bar) => Behind::Bar,
        _ => Behind::Other,
    }
}
