/// Why a text has no tokens.
#[derive(Debug, Clone, Copy, PartialEq, Eq)]
pub enum LexWhy {
    /// A byte begins no UTF-8 character.
    BadUtf8,
    /// A quoted text is not ended.
    OpenQuote,
    /// A comment is not ended.
    OpenComment,
    /// A backslash begins no escape, or stands before a number that is no character.
    BadEscape,
    /// An integer is too large.
    WideNumber,
    /// Decimal digits, a full stop and a digit.
    Float,
    /// A character that begins no token, or `0'` without a character.
    StrayByte,
}

/// Why a text has no tokens, with the line of the place, or want of memory.
#[derive(Debug, Clone, Copy, PartialEq, Eq)]
pub enum LexError {
    Lex { line: u32, why: LexWhy },
    NoMemory,
}
