ghost use Rattle.std.specs.Prelude.{◌≡◌, ◌+◌, ◌<◌, ◌≤◌, ◌^◌, neg_ℤ, pos, nat_eq, drop, codes};
ghost use Rattle.std.specs.Str.{is_utf8, bytes_eq};
ghost use Rattle.cp_lex.specs.declared.token.TokenKind.TheVariants as kinds;
ghost use Rattle.cp_read.specs.Look.{IsLook, IsFront, IsNegative, signs, is_minus};
ghost use Rattle.cp_read.specs.Lexemes.{is_int, int_at};

use cp_lex::{Token, TokenKind};

/// A token as the grammar takes it.
#[derive(Clone, Copy, Drop)]
pub(crate) enum Look<'a> {
    Variable(&'a [u8]),
    Text(&'a [u8]),
    Number(u64),
    Word(&'a [u8]),
    CallOpens,
    Opens,
    Closes,
    ListOpens,
    ListCloses,
    BracesOpen,
    BracesClose,
    Comma,
    Bar,
    ClauseEnds,
    /// A token that no text has.
    Stray,
}

const SMALLEST_MAGNITUDE: u64 = 1 << 63;

/// The first of these tokens, if there is one.
pub(crate) fn look_at<'a>(tokens: &'a [Token]) -> Option<Look<'a>>
    ensures { IsFront result tokens.entry.now }
{
    match tokens.split_first() {
        None => None,
        Some((token, _)) => Some(look_of(token)),
    }
}

/// The tokens behind the first.
pub(crate) fn behind<'a>(tokens: &'a [Token]) -> &'a [Token]
    ensures { result.now ≡ drop 1 tokens.entry.now }
{
    match tokens.split_first() {
        None => tokens,
        Some((_, rest)) => rest,
    }
}

fn look_of<'a>(token: &'a Token) -> Look<'a>
    ensures { IsLook result token.entry.now.kind }
{
    match &token.kind {
        TokenKind::Word(name) => word(name.as_slice()),
        TokenKind::Variable(name) => Look::Variable(name.as_slice()),
        TokenKind::Int(value) => number(*value),
        TokenKind::Text(bytes) => text(bytes.as_slice()),
        TokenKind::Punct(sign) => bracket(*sign),
        TokenKind::OpenCall => Look::CallOpens,
        TokenKind::End => Look::ClauseEnds,
    }
}

fn word<'a>(name: &'a [u8]) -> Look<'a>
    ensures { IsLook result (kinds.Word name.entry.now) }
{
    if is_utf8(name) {
        Look::Word(name)
    } else {
        Look::Stray
    }
}

fn text<'a>(bytes: &'a [u8]) -> Look<'a>
    ensures { IsLook result (kinds.Text bytes.entry.now) }
{
    if is_utf8(bytes) {
        Look::Text(bytes)
    } else {
        Look::Stray
    }
}

fn number<'a>(value: u64) -> Look<'a>
    ensures { IsLook result (kinds.Int value) }
{
    if value <= SMALLEST_MAGNITUDE {
        Look::Number(value)
    } else {
        Look::Stray
    }
}

fn bracket<'a>(sign: u8) -> Look<'a>
    ensures { IsLook result (kinds.Punct sign) }
{
    match sign {
        b'(' => Look::Opens,
        b')' => Look::Closes,
        b'[' => Look::ListOpens,
        b']' => Look::ListCloses,
        b'{' => Look::BracesOpen,
        b'}' => Look::BracesClose,
        b',' => Look::Comma,
        b'|' => Look::Bar,
        _ => Look::Stray,
    }
}

fn is_utf8(bytes: &[u8]) -> bool
    ensures { result ≡ is_utf8 bytes.now }
{
    match str::from_utf8(bytes) {
        Ok(_) => true,
        Err(_) => false,
    }
}

/// Whether the first token is an unquoted `-` with an integer directly behind it.
pub(crate) fn is_sign(tokens: &[Token]) -> bool
    ensures { result ≡ signs tokens.now }
{
    match tokens.split_first() {
        None => false,
        Some((token, rest)) => is_minus(token) && is_integer_at(rest, token.to),
    }
}

/// An unquoted `-` takes one byte.
fn is_minus(token: &Token) -> bool
    ensures { result ≡ is_minus token.now }
{
    match &token.kind {
        TokenKind::Word(name) => is_hyphen(name.as_slice()) && takes_one(token.from, token.to),
        _ => false,
    }
}

fn is_hyphen(name: &[u8]) -> bool
    ensures { result ≡ bytes_eq name.now (codes "-") }
{
    name == b"-".as_slice()
}

fn takes_one(from: u32, to: u32) -> bool
    ensures { result ≡ nat_eq to (from + 1) }
{
    from < to && to - from == 1
}

/// Whether the first token is an integer that begins at this byte of the text.
fn is_integer_at(tokens: &[Token], at: u32) -> bool
    ensures { result ≡ int_at at tokens.now }
{
    match tokens.split_first() {
        None => false,
        Some((token, _)) => is_integer(&token.kind) && token.from == at,
    }
}

fn is_integer(kind: &TokenKind) -> bool
    ensures { result ≡ is_int kind.now }
{
    match kind {
        TokenKind::Int(_) => true,
        _ => false,
    }
}

/// The negative integer that the first two tokens are, if the first is the sign of the second.
pub(crate) fn negative_at(tokens: &[Token]) -> Option<i64>
    ensures { IsNegative result tokens.now }
{
    if is_sign(tokens) {
        match look_at(behind(tokens)) {
            Some(Look::Number(value)) => Some(negative(value)),
            _ => None,
        }
    } else {
        None
    }
}

/// The negative of a number of at most 2 ^ 63.
fn negative(value: u64) -> i64
    requires { value ≤ 2 ^ 63 }
    ensures { result ≡ neg_ℤ (pos value) }
{
    if value < 1 << 63 {
        -(value as i64)
    } else {
        i64::MIN
    }
}

/// A number below 2 ^ 63.
pub(crate) fn positive(value: u64) -> i64
    requires { value < 2 ^ 63 }
    ensures { result ≡ pos value }
{
    value as i64
}
