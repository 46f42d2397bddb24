use cp_lex::{LexWhy, Refusal, Scan, Token, TokenKind, scan_text, tokens_of};
use std::alloc::{AllocError, Global};
use std::test::Fail;

/// What a token is wanted to be.
enum Wanted {
    Word(&'static [u8]),
    Variable(&'static [u8]),
    Int(u64),
    Text(&'static [u8]),
    Punct(u8),
    OpenCall,
    End,
}

use Wanted::{End, Int, OpenCall, Punct, Text, Variable, Word};

fn is_wanted(kind: &TokenKind, wanted: &Wanted) -> bool {
    match (kind, wanted) {
        (TokenKind::Word(name), Word(other)) => name.as_slice() == *other,
        (TokenKind::Variable(name), Variable(other)) => name.as_slice() == *other,
        (TokenKind::Int(value), Int(other)) => *value == *other,
        (TokenKind::Text(bytes), Text(other)) => bytes.as_slice() == *other,
        (TokenKind::Punct(sign), Punct(other)) => *sign == *other,
        (TokenKind::OpenCall, OpenCall) => true,
        (TokenKind::End, End) => true,
        _ => false,
    }
}

/// Whether the tokens are of these kinds.
fn are_wanted(tokens: &[Token], wanted: &[Wanted]) -> bool {
    tokens.len() == wanted.len()
        && tokens
            .iter()
            .zip(wanted.iter())
            .all(|(token, wanted)| is_wanted(&token.kind, wanted))
}

const TOKENS: [(&[u8], &[Wanted]); 10] = [
    (
        b"f ((X_1,_)",
        &[
            Word(b"f"),
            Punct(b'('),
            Punct(b'('),
            Variable(b"X_1"),
            Punct(b','),
            Variable(b"_"),
            Punct(b')'),
        ],
    ),
    (
        b"a/* b */c % d\n. e",
        &[Word(b"a"), Word(b"c"), End, Word(b"e")],
    ),
    (
        b"a:-b.c=..D.%",
        &[
            Word(b"a"),
            Word(b":-"),
            Word(b"b"),
            Word(b"."),
            Word(b"c"),
            Word(b"=.."),
            Variable(b"D"),
            End,
        ],
    ),
    (b"/*/ a */.", &[End]),
    (
        b"'it''s' \"a\"\"b\" '/* '",
        &[Word(b"it's"), Text(b"a\"b"), Word(b"/* ")],
    ),
    (
        b"'\\x41\\\\101\\\\0\\\\0' '\\\n' 'a\nb'",
        &[Word(b"AA\0\0"), Word(b""), Word(b"a\nb")],
    ),
    (
        b"0'a 0''' 0'\\n 0'  0'\\x41\\ 0'\xe2\x82\xac 0'\\'0'.",
        &[
            Int(97),
            Int(39),
            Int(10),
            Int(32),
            Int(65),
            Int(8364),
            Int(39),
            Int(46),
        ],
    ),
    (
        b"0x1Fg 0o178 0b102",
        &[Int(31), Word(b"g"), Int(15), Int(8), Int(2), Int(2)],
    ),
    (
        b"0xg 0o8 0b 007",
        &[
            Int(0),
            Word(b"xg"),
            Int(0),
            Word(b"o8"),
            Int(0),
            Word(b"b"),
            Int(7),
        ],
    ),
    (
        b"9223372036854775807 -9223372036854775808",
        &[
            Int(9223372036854775807),
            Word(b"-"),
            Int(9223372036854775808),
        ],
    ),
];

#[test]
fn texts_have_these_tokens(rt: HostRuntime) -> Result<(), Fail> {
    for (text, wanted) in TOKENS.iter() {
        let scan = scan_text(rt.alloc(), text)?;
        let right = scan.refusal.is_none() && are_wanted(scan.tokens.as_slice(), wanted);
        assert!(rt; right);
    }
    Ok(())
}

const REFUSALS: [(&[u8], u32, LexWhy, usize); 12] = [
    (b"X is 1.5.", 1, LexWhy::Float, 2),
    (b"a\n\r \"b\nc", 2, LexWhy::OpenQuote, 1),
    (b"a /* b\n", 1, LexWhy::OpenComment, 1),
    (b"a.\n'a\n\\q'", 3, LexWhy::BadEscape, 2),
    (b"'a\n\\q", 1, LexWhy::OpenQuote, 0),
    (b"'\\xd800\\'", 1, LexWhy::BadEscape, 0),
    (b"9223372036854775808", 1, LexWhy::WideNumber, 0),
    (b"'-'9223372036854775808", 1, LexWhy::WideNumber, 1),
    (b"\n\n0xffffffffffffffffffff", 3, LexWhy::WideNumber, 0),
    (b"a\n`", 2, LexWhy::StrayByte, 1),
    (b"0'", 1, LexWhy::StrayByte, 0),
    (b"a.\nb.\n\xff'", 3, LexWhy::BadUtf8, 0),
];

#[test]
fn texts_are_refused_at_these_lines(rt: HostRuntime) -> Result<(), Fail> {
    for (text, line, why, before) in REFUSALS.iter() {
        let refusal = Refusal {
            line: *line,
            why: *why,
        };
        let scan = scan_text(rt.alloc(), text)?;
        assert_eq!(rt; scan.refusal, Some(refusal));
        assert_eq!(rt; scan.tokens.len() as usize, *before);
    }
    Ok(())
}

#[test]
fn tokens_have_places_and_lines(rt: HostRuntime) -> Result<(), Fail> {
    let tokens = tokens_of(rt.alloc(), b"a\r\n  bc % d\n'e\nf' g")?;
    let places = [(0, 1, 1), (5, 7, 2), (12, 17, 3), (18, 19, 4)];
    assert_eq!(rt; tokens.len(), 4);
    for (token, (from, to, line)) in tokens.as_slice().iter().zip(places.iter()) {
        assert!(rt; token.from == *from && token.to == *to && token.line == *line);
    }
    Ok(())
}

/// The scan of a text that is not too long.
fn scan_of(alloc: Global, text: &[u8]) -> Result<Scan, AllocError> {
    if text.len() < u32::MAX as usize {
        scan_text(alloc, text)
    } else {
        Err(AllocError)
    }
}

/// A part, another one this many times, and a third.
fn repeated(
    alloc: Global,
    before: &[u8],
    part: &[u8],
    count: usize,
    behind: &[u8],
) -> Result<Vec<u8>, AllocError> {
    let mut text = Vec::from_slice(alloc, before)?;
    for _ in 0..count {
        text.extend_from_slice(part)?;
    }
    text.extend_from_slice(behind)?;
    Ok(text)
}

const LONG: [(&[u8], &[u8], &[u8], u32, bool); 4] = [
    (b"", b"9", b".", 0, false),
    (b"/*", b"*", b"/.", 1, true),
    (b"'", b"''", b"'.", 2, true),
    (b"", b"(", b"a", 1_000_001, true),
];

#[test]
fn long_texts_are_read_once(rt: HostRuntime) -> Result<(), Fail> {
    for (before, part, behind, count, whole) in LONG.iter() {
        let text = repeated(rt.alloc(), before, part, 1_000_000, behind)?;
        let scan = scan_of(rt.alloc(), text.as_slice())?;
        let right = scan.tokens.len() == *count && scan.refusal.is_none() == *whole;
        assert!(rt; right);
    }
    Ok(())
}
