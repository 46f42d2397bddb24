ghost use Rattle.std.specs.Prelude.{◌≡◌, ◌<◌, ◌≤◌, ◌==◌, length};
ghost use Rattle.cp_char.specs.Characters.{first, run, is_symbol, is_layout, is_alphanumeric};
ghost use Rattle.cp_lex.specs.Lexical.{goes_on};

use cp_char::{is_alphanumeric, is_layout, is_symbol};

/// How many bytes at the front are layout.
pub(crate) fn layout_len(text: &[u8]) -> usize
    ensures value { result ≡ run is_layout text.now }
    ensures within { result ≤ length text.now }
{
    for (at, b) in text.iter().enumerate() {
        if !is_layout(*b) {
            return at;
        }
    }
    text.len()
}

/// How many bytes there are up to the end of the line.
pub(crate) fn line_len(text: &[u8]) -> usize
    ensures value { result ≡ run goes_on text.now }
    ensures within { result ≤ length text.now }
{
    for (at, b) in text.iter().enumerate() {
        if *b == b'\n' {
            return at;
        }
    }
    text.len()
}

/// How many bytes at the front are letters, digits or underscores.
pub(crate) fn name_len(text: &[u8]) -> usize
    ensures value { result ≡ run is_alphanumeric text.now }
    ensures within { result ≤ length text.now }
{
    for (at, b) in text.iter().enumerate() {
        if !is_alphanumeric(*b) {
            return at;
        }
    }
    text.len()
}

/// How many bytes at the front are symbol characters.
pub(crate) fn symbols_len(text: &[u8]) -> usize
    ensures value { result ≡ run is_symbol text.now }
    ensures within { result ≤ length text.now }
{
    for (at, b) in text.iter().enumerate() {
        if !is_symbol(*b) {
            return at;
        }
    }
    text.len()
}

/// Whether the first byte is this one, which is not 0.
pub(crate) fn begins_with(text: &[u8], byte: u8) -> bool
    requires { 0 < byte }
    ensures { result ≡ (first text.now == byte) }
{
    match text.first() {
        Some(c) => *c == byte,
        None => false,
    }
}
