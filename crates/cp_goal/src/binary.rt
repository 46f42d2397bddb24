ghost use Rattle.std.specs.Prelude.{◌≡◌, ◌≢◌, ◌<◌, ◌^◌, ◌*ℤ◌, pos};
ghost use Rattle.cp_goal.specs.Operations.{binary_named, binary_named_by_order_or_bits, binary_value, places, quotient, remainder, modulo, rest, signed_as, shifted_left, shifted_right};

use crate::exact::{exact, narrow};
use crate::fault::Fault;

/// An operation with two operands.
#[derive(Debug, Clone, Copy, PartialEq, Eq, Drop)]
pub enum Binary {
    Add,
    Subtract,
    Multiply,
    Divide,
    Rem,
    Mod,
    Min,
    Max,
    And,
    Or,
    ShiftLeft,
    ShiftRight,
}

impl Binary {
    /// The operation with this name.
    pub fn named(name: &[u8]) -> Option<Binary>
        ensures { result ≡ binary_named name.now }
    {
        if name == b"+".as_slice() {
            Some(Binary::Add)
        } else if name == b"-".as_slice() {
            Some(Binary::Subtract)
        } else if name == b"*".as_slice() {
            Some(Binary::Multiply)
        } else if name == b"//".as_slice() {
            Some(Binary::Divide)
        } else if name == b"rem".as_slice() {
            Some(Binary::Rem)
        } else if name == b"mod".as_slice() {
            Some(Binary::Mod)
        } else {
            Binary::named_by_order_or_bits(name)
        }
    }

    fn named_by_order_or_bits(name: &[u8]) -> Option<Binary>
        ensures { result ≡ binary_named_by_order_or_bits name.now }
    {
        if name == b"min".as_slice() {
            Some(Binary::Min)
        } else if name == b"max".as_slice() {
            Some(Binary::Max)
        } else if name == b"/\\".as_slice() {
            Some(Binary::And)
        } else if name == b"\\/".as_slice() {
            Some(Binary::Or)
        } else if name == b"<<".as_slice() {
            Some(Binary::ShiftLeft)
        } else if name == b">>".as_slice() {
            Some(Binary::ShiftRight)
        } else {
            None
        }
    }

    /// Its value: that over whole numbers, or the first of ZeroDivisor, Shift and IntOverflow that applies.
    pub fn value(self, a: i64, b: i64) -> Result<i64, Fault>
        ensures { result ≡ binary_value self a b }
    {
        match self {
            Binary::Add => exact(a.checked_add(b)),
            Binary::Subtract => exact(a.checked_sub(b)),
            Binary::Multiply => exact(a.checked_mul(b)),
            Binary::Divide => quotient(a, b),
            Binary::Rem => remainder(a, b),
            Binary::Mod => modulo(a, b),
            Binary::Min => Ok(a.min(b)),
            Binary::Max => Ok(a.max(b)),
            Binary::And => Ok(a & b),
            Binary::Or => Ok(a | b),
            Binary::ShiftLeft => shifted_left(a, b),
            Binary::ShiftRight => shifted_right(a, b),
        }
    }
}

/// The quotient towards zero.
fn quotient(a: i64, b: i64) -> Result<i64, Fault>
    ensures { result ≡ quotient a b }
{
    if b == 0 {
        return Err(Fault::ZeroDivisor);
    }
    exact(a.checked_div(b))
}

/// What the quotient towards zero leaves, where there is one.
fn remainder(a: i64, b: i64) -> Result<i64, Fault>
    ensures { result ≡ remainder a b }
{
    if b == 0 {
        return Err(Fault::ZeroDivisor);
    }
    Ok(rest(a, b))
}

/// What the quotient towards zero leaves.
#[tactic(auto, using(crate::proofs::lemmas::Quotients::rest_is))]
fn rest(a: i64, b: i64) -> i64
    requires { b ≢ pos 0 }
    ensures value { result ≡ rest a b }
{
    a.wrapping_rem(b)
}

/// The remainder that is 0 or has the sign of the divisor.
fn modulo(a: i64, b: i64) -> Result<i64, Fault>
    ensures { result ≡ modulo a b }
{
    if b == 0 {
        return Err(Fault::ZeroDivisor);
    }
    Ok(signed_as(b, rest(a, b)))
}

/// The remainder, or the number with the sign of the divisor that differs from it by the divisor.
fn signed_as(b: i64, rest: i64) -> i64
    ensures { result ≡ signed_as b rest }
{
    if rest == 0 || (rest < 0) == (b < 0) {
        rest
    } else {
        rest + b
    }
}

/// The places to shift by.
fn places(b: i64) -> Result<u32, Fault>
    ensures { result ≡ places b }
{
    if 0 <= b && b < 64 {
        Ok(b as u32)
    } else {
        Err(Fault::Shift(b))
    }
}

/// a times 2 to the b.
fn shifted_left(a: i64, b: i64) -> Result<i64, Fault>
    ensures { result ≡ shifted_left a b }
{
    let places = places(b)?;
    narrow(product(a, power_of_two(places)))
}

/// 2 to the power of a number below 64.
fn power_of_two(exponent: u32) -> u64
    requires { exponent < 64 }
    ensures { result ≡ 2 ^ exponent }
{
    1 << exponent
}

/// The product, which 128 bits hold.
fn product(a: i64, b: u64) -> i128
    ensures { result ≡ a *ℤ pos b }
{
    a as i128 * b as i128
}

/// a divided by 2 to the b, towards minus infinity.
fn shifted_right(a: i64, b: i64) -> Result<i64, Fault>
    ensures { result ≡ shifted_right a b }
{
    let places = places(b)?;
    Ok(a >> places)
}
