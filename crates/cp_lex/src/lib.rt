//! The tokens of a Prolog text.
#![tactic(auto)]

mod before;
mod character;
mod comment;
mod digits;
mod error;
mod escape;
mod laws;
mod number;
mod piece;
mod quoted;
mod runs;
mod scan;
mod start;
mod token;
mod word;

pub use error::{LexError, LexWhy};
pub use laws::{
    pieces_are_inside, texts_are_read_clause_by_clause, texts_are_scanned_by_pieces,
    what_follows_a_full_stop_is_read_anew,
};
pub use scan::{scan_text, tokens_of};
pub use token::{Refusal, Scan, Token, TokenKind, Tokens};
