use crate::error::LexWhy;
use cp_io::Bytes;
use cp_list::ListOf;

/// What a token is.
#[derive(Debug, Drop)]
pub enum TokenKind {
    /// A name, by the bytes that it stands for.
    Word(Bytes),
    /// A variable, by its name.
    Variable(Bytes),
    /// An integer up to `2 ^ 63 - 1`, or `2 ^ 63` directly behind an unquoted `-`.
    Int(u64),
    /// A text in double quotes, by the bytes that it stands for.
    Text(Bytes),
    /// One of `( ) [ ] { } , |`.
    Punct(u8),
    /// `(` directly behind a word.
    OpenCall,
    /// The full stop that ends a clause.
    End,
}

/// A token takes the bytes from the place `from` up to the place `to`, and begins on a line, counted from 1.
#[derive(Debug, Drop)]
pub struct Token {
    pub kind: TokenKind,
    pub from: u32,
    pub to: u32,
    pub line: u32,
}

pub type Tokens = ListOf<Token>;

/// What is refused in a text, with the line of its place, counted from 1.
#[derive(Debug, Clone, Copy, PartialEq, Eq)]
pub struct Refusal {
    pub line: u32,
    pub why: LexWhy,
}

/// The tokens of a text up to the first refusal in it, and that refusal, if there is one.
#[derive(Debug, Drop)]
pub struct Scan {
    pub tokens: Tokens,
    pub refusal: Option<Refusal>,
}
