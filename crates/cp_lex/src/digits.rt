ghost use Rattle.std.specs.Prelude.{◌≡◌, ◌+◌, ◌<◌, ◌≤◌, ◌^◌, min, length};
ghost use Rattle.std.specs.Char.{is_digit, digit_value};
ghost use Rattle.std.specs.Str.Parse.{digits_value};
ghost use Rattle.cp_char.specs.Characters.{run};

/// The greatest integer that a text may hold, directly behind a minus.
const GREATEST: u64 = 1 << 63;

/// The value of a digit or a letter, and 36 for any other byte.
fn digit_value(b: u8) -> u64
    ensures value { result ≡ digit_value b }
    ensures small { result ≤ 36 }
{
    let value = if b < b'0' {
        36
    } else if b <= b'9' {
        b - b'0'
    } else if b < b'A' {
        36
    } else if b <= b'Z' {
        b - b'A' + 10
    } else if b < b'a' {
        36
    } else if b <= b'z' {
        b - b'a' + 10
    } else {
        36
    };
    u64::from(value)
}

/// Whether a byte is a digit of a base.
pub(crate) fn is_digit(b: u8, base: u64) -> bool
    ensures { result ≡ is_digit b base }
{
    digit_value(b) < base
}

/// How many bytes at the front are digits of a base.
pub(crate) fn digits_len(base: u64, text: &[u8]) -> usize
    ensures value { result ≡ run (λ c. is_digit c base) text.now }
    ensures within { result ≤ length text.now }
{
    for (at, b) in text.iter().enumerate() {
        if !is_digit(*b, base) {
            return at;
        }
    }
    text.len()
}

/// The number that digits of a base write, or one above the greatest integer where it is larger than that.
pub(crate) fn number_of(base: u64, digits: &[u8]) -> u64
    requires { 2 ≤ base }
    ensures { result ≡ min (digits_value base digits.now) (2 ^ 63 + 1) }
{
    let mut value: u64 = 0;
    for digit in digits {
        if GREATEST / base < value {
            return GREATEST + 1;
        }
        value = value * base + digit_value(*digit);
    }
    value.min(GREATEST + 1)
}
