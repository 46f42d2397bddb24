ghost use Rattle.std.specs.Prelude.{◌≡◌, ℕ, ◌+◌, ◌*◌, ◌-◌, ◌^◌, ◌<◌, ◌≤◌, min, pos, neg_ℤ, length};
ghost use Rattle.std.specs.Option.{option_map};
ghost use Rattle.cp_goal.specs.Lists.{number_of, natural_of, if_fits};
ghost use Rattle.cp_lists.specs.Digits.{capped};

/// The integer that a text spells: one or more decimal digits, with at most one `-` before them and nothing else. None
/// where it spells none, or one that 64 bits do not hold.
pub fn number_of(text: &[char]) -> Option<i64>
    ensures { result ≡ number_of text.now }
{
    match text {
        [] => None,
        ['-', digits @ ..] => negative(natural_of(digits)?),
        digits => positive(natural_of(digits)?),
    }
}

/// The number that one or more digits write, and 2^64 - 1 where it is larger.
fn natural_of(digits: &[char]) -> Option<u64>
    ensures { result ≡ option_map capped (natural_of digits.now) }
{
    if digits.is_empty() {
        return None;
    }
    let mut value: u64 = 0;
    for digit in digits {
        if !digit.is_ascii_digit() {
            return None;
        }
        value = with_digit(value, *digit);
    }
    Some(value)
}

/// The value of digits with one more behind them.
fn with_digit(value: u64, digit: char) -> u64
    requires low { 48 ≤ digit }
    requires high { digit ≤ 57 }
    ensures { result ≡ capped (value * 10 + (digit - 48)) }
{
    let units = u64::from(u32::from(digit) - u32::from('0'));
    value.saturating_mul(10).saturating_add(units)
}

fn positive(natural: u64) -> Option<i64>
    ensures { result ≡ if_fits (pos natural) }
{
    if natural < 1 << 63 {
        Some(natural as i64)
    } else {
        None
    }
}

fn negative(natural: u64) -> Option<i64>
    ensures { result ≡ if_fits (neg_ℤ (pos natural)) }
{
    if natural == 0 {
        return Some(0);
    }
    if natural - 1 < 1 << 63 {
        Some(-((natural - 1) as i64) - 1)
    } else {
        None
    }
}
