ghost use Rattle.std.specs.Prelude.{◌≡◌};
ghost use Rattle.cp_char.specs.Characters.{is_alphanumeric, is_layout, is_symbol};

/// Whether the byte is a small or a capital ASCII letter, a digit or an underscore.
pub fn is_alphanumeric(byte: u8) -> bool
    ensures { result ≡ is_alphanumeric byte }
{
    byte.is_ascii_alphanumeric() || byte == b'_'
}

/// Whether the byte is space, tab, newline, carriage return or form feed.
pub fn is_layout(byte: u8) -> bool
    ensures { result ≡ is_layout byte }
{
    byte == b' ' || byte == b'\t' || byte == b'\n' || byte == b'\r' || byte == 12
}

/// Whether the byte is one of the characters that make an unquoted name of their own, such as `:-`.
pub fn is_symbol(byte: u8) -> bool
    ensures { result ≡ is_symbol byte }
{
    byte == b'+'
        || byte == b'-'
        || byte == b'*'
        || byte == b'/'
        || byte == b'\\'
        || byte == b'^'
        || byte == b'<'
        || byte == b'>'
        || byte == b'='
        || byte == b'~'
        || byte == b':'
        || byte == b'.'
        || byte == b'?'
        || byte == b'@'
        || byte == b'#'
        || byte == b'&'
        || byte == b'$'
}
