ghost use Rattle.std.specs.Prelude.{◌≡◌, ◌-◌, ◌^◌, ◌<◌, ◌≤◌, length, IfOk};
ghost use Rattle.cp_lex.specs.Tokens.{newlines, utf8_scan, scan, tokens};
ghost use Rattle.cp_lex.specs.Answers.{Lexes};

use crate::before::{Before, behind};
use crate::error::{LexError, LexWhy};
use crate::piece::{Piece, piece_at};
use crate::token::{Refusal, Scan, Token, Tokens};
use std::alloc::{AllocError, Global};

/// The tokens of a text, or the first refusal in it. It takes time in proportion to the text.
pub fn tokens_of(alloc: Global, text: &[u8]) -> Result<Tokens, LexError>
    requires { length text.now < 2 ^ 32 - 1 }
    ensures { Lexes result (tokens text.now) }
{
    match scan_text(alloc, text) {
        Ok(
            Scan {
                tokens,
                refusal: None,
            },
        ) => Ok(tokens),
        Ok(
            Scan {
                tokens: _,
                refusal: Some(Refusal { line, why }),
            },
        ) => Err(LexError::Lex { line, why }),
        Err(_) => Err(LexError::NoMemory),
    }
}

/// The tokens of a text that stand before the first refusal in it, and that refusal. A text that is no UTF-8 has no
/// token before its refusal. It takes time in proportion to the text. The only error is want of memory.
pub fn scan_text(alloc: Global, text: &[u8]) -> Result<Scan, AllocError>
    requires { length text.now < 2 ^ 32 - 1 }
    ensures { IfOk result (λ s. s ≡ scan text.now) }
{
    match bstr::validate(text) {
        Ok(()) => scan_utf8(alloc, text),
        Err(fault) => Ok(Scan {
            tokens: Tokens::new(alloc),
            refusal: Some(Refusal {
                line: 1 + newlines(text.split_at(fault.valid_up_to()).0),
                why: LexWhy::BadUtf8,
            }),
        }),
    }
}

fn newlines(text: &[u8]) -> u32
    requires { length text.now < 2 ^ 32 - 1 }
    ensures value { result ≡ newlines text.now }
    ensures within { result ≤ length text.now }
{
    let mut count = 0;
    for b in text {
        if *b == b'\n' {
            count += 1;
        }
    }
    count
}

/// The scan of a text that is UTF-8.
fn scan_utf8(alloc: Global, text: &[u8]) -> Result<Scan, AllocError>
    requires { length text.now < 2 ^ 32 - 1 }
    ensures { IfOk result (λ s. s ≡ utf8_scan text.now) }
{
    let mut tokens = Tokens::new(alloc);
    let mut before = Before::NoWord;
    let mut at = 0;
    let mut line = 1;
    let mut rest = text;
    while !rest.is_empty() {
        match piece_at(alloc, before, rest)? {
            Piece::Blank(len) => {
                let (front, more) = rest.split_at(len);
                line += newlines(front);
                before = Before::NoWord;
                at += len;
                rest = more;
            }
            Piece::Token(kind, len) => {
                let (front, more) = rest.split_at(len);
                let next = behind(&kind, len);
                tokens.push(Token {
                    kind,
                    from: at as u32,
                    to: (at + len) as u32,
                    line,
                })?;
                line += newlines(front);
                before = next;
                at += len;
                rest = more;
            }
            Piece::Refused(why, len) => {
                let line = line + newlines(rest.split_at(len).0);
                return Ok(Scan {
                    tokens,
                    refusal: Some(Refusal { line, why }),
                });
            }
        }
    }
    Ok(Scan {
        tokens,
        refusal: None,
    })
}
