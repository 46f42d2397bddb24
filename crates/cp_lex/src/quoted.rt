ghost use Rattle.std.specs.Prelude.{◌≡◌, ◌<◌, ◌≤◌, ◌^◌, ◌++◌, [], length, encode_utf8, IfOk, OnOk};
ghost use Rattle.cp_lex.specs.Quoted.{quoted, part_at, escaped, spelled};
ghost use Rattle.cp_lex.specs.Steps.{finished, closes, first_bad, IsQuotedWithin};
ghost use Rattle.cp_lex.specs.declared.quoted.Quoted.TheVariants.{Closed};

use crate::escape::{Escape, escape_at};
use crate::runs::begins_with;
use cp_io::Bytes;
use std::alloc::{AllocError, Global};

/// What stands at one place inside a quoted text.
#[derive(Clone, Copy)]
pub(crate) enum Sign {
    /// The closing quote.
    Closes,
    /// A backslash that begins no escape.
    Misspelt,
    Byte(u8),
    Character(char),
    /// A backslash before a newline.
    Nothing,
}

/// What stands at one place inside a quoted text, and how many bytes it takes beside one.
#[derive(Clone, Copy)]
pub(crate) struct Part {
    pub sign: Sign,
    pub more: usize,
}

/// A text up to its closing quote.
#[derive(Drop)]
pub(crate) enum Quoted {
    /// The bytes that it stands for, and how many bytes there are up to and with the closing quote.
    Closed(Bytes, usize),
    /// The text is closed, and so many bytes from its front a backslash begins no escape.
    BadAt(usize),
    /// There is no closing quote.
    Unended,
}

/// The text behind an opening quote.
pub(crate) fn quoted_at(alloc: Global, mark: u8, text: &[u8]) -> Result<Quoted, AllocError>
    requires { 0 < mark }
    ensures value { IfOk result (λ q. q ≡ quoted mark text.now) }
    ensures within { IfOk result (λ q. IsQuotedWithin q (length text.now)) }
{
    let mut bytes = Bytes::new(alloc);
    let mut bad = None;
    let mut at = 0;
    let mut rest = text;
    while let Some((first, behind)) = rest.split_first() {
        let part = part_at(mark, *first, behind);
        if closes(part.sign) {
            return Ok(closed(bytes, bad, at));
        }
        bad = first_bad(bad, part.sign, at);
        spell(&mut bytes, part.sign)?;
        at += 1 + part.more;
        rest = behind.split_at(part.more).1;
    }
    Ok(Quoted::Unended)
}

fn closes(sign: Sign) -> bool
    ensures { result ≡ closes sign }
{
    matches!(sign, Sign::Closes)
}

/// The first place at which a backslash begins no escape, where one more sign stands at a place.
fn first_bad(bad: Option<usize>, sign: Sign, at: usize) -> Option<usize>
    ensures { result ≡ first_bad bad sign at }
{
    match sign {
        Sign::Misspelt => match bad {
            Some(place) => Some(place),
            None => Some(at),
        },
        _ => bad,
    }
}

/// A quoted text whose closing quote stands at a place.
fn closed(bytes: Bytes, bad: Option<usize>, at: usize) -> Quoted
    requires { at < 2 ^ 63 }
    ensures { result ≡ finished bytes bad at (Closed [] 1) }
{
    match bad {
        None => Quoted::Closed(bytes, at + 1),
        Some(place) => Quoted::BadAt(place),
    }
}

/// Adds the bytes that a sign stands for.
fn spell(bytes: &mut Bytes, sign: Sign) -> Result<(), AllocError>
    ensures { OnOk result (bytes.new ≡ bytes.old ++ spelled sign) }
{
    match sign {
        Sign::Byte(b) => bytes.push(b),
        Sign::Character(c) => spell_character(bytes, c),
        _ => Ok(()),
    }
}

fn spell_character(bytes: &mut Bytes, c: char) -> Result<(), AllocError>
    ensures { OnOk result (bytes.new ≡ bytes.old ++ encode_utf8 c) }
{
    let mut room = [0; 4];
    let encoded = c.encode_utf8(&mut room).as_bytes();
    for b in encoded {
        bytes.push(*b)?;
    }
    Ok(())
}

/// What a byte inside a text in these quotes begins, with what stands behind it.
fn part_at(mark: u8, first: u8, rest: &[u8]) -> Part
    requires { 0 < mark }
    ensures value { result ≡ part_at mark first rest.now }
    ensures within { result.more ≤ length rest.now }
{
    if first == b'\\' {
        escaped(escape_at(rest))
    } else if first != mark {
        Part {
            sign: Sign::Byte(first),
            more: 0,
        }
    } else if begins_with(rest, mark) {
        Part {
            sign: Sign::Byte(mark),
            more: 1,
        }
    } else {
        Part {
            sign: Sign::Closes,
            more: 0,
        }
    }
}

/// A backslash and the escape behind it.
fn escaped(escape: Escape) -> Part
    ensures { result ≡ escaped escape }
{
    match escape {
        Escape::Bad(more) => Part {
            sign: Sign::Misspelt,
            more,
        },
        Escape::Character(c, more) => Part {
            sign: Sign::Character(c),
            more,
        },
        Escape::Newline => Part {
            sign: Sign::Nothing,
            more: 1,
        },
    }
}
