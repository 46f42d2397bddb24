ghost use Rattle.std.specs.Prelude.{◌≡◌, ◌&&◌, ◌++◌, codes, decimal, OnOk};
ghost use Rattle.std.specs.Fmt.{signed_decimal};
ghost use Rattle.cp_char.specs.Characters.{is_symbol, first};
ghost use Rattle.cp_ops.specs.Text.{beside, last_byte};

use cp_char::is_symbol;
use itoa::Buffer;
use std::alloc::AllocError;

/// Adds a token, behind a space where two symbol characters would meet.
pub(crate) fn put(out: &mut Vec<u8>, token: &[u8]) -> Result<(), AllocError>
    ensures { OnOk result (out.new.items ≡ beside out.old.items token.now) }
{
    if meet(out.as_slice(), token) {
        out.push(b' ')?;
        out.extend_from_slice(token)?;
        return Ok(());
    }
    out.extend_from_slice(token)?;
    Ok(())
}

/// Whether symbol characters of the two texts would meet.
fn meet(text: &[u8], token: &[u8]) -> bool
    ensures { result ≡ (is_symbol (last_byte text.now) && is_symbol (first token.now)) }
{
    ends_in_symbol(text) && begins_with_symbol(token)
}

fn ends_in_symbol(text: &[u8]) -> bool
    ensures { result ≡ is_symbol (last_byte text.now) }
{
    match text.last() {
        Some(byte) => is_symbol(*byte),
        None => false,
    }
}

fn begins_with_symbol(text: &[u8]) -> bool
    ensures { result ≡ is_symbol (first text.now) }
{
    match text.first() {
        Some(byte) => is_symbol(*byte),
        None => false,
    }
}

/// Adds a variable.
pub(crate) fn put_variable(out: &mut Vec<u8>, number: u32) -> Result<(), AllocError>
    ensures { OnOk result (out.new.items ≡ beside out.old.items (codes "_" ++ decimal number)) }
{
    let mut digits = Buffer::new();
    put(out, b"_".as_slice())?;
    put(out, digits.format(number).as_bytes())?;
    Ok(())
}

/// Adds an integer.
pub(crate) fn put_integer(out: &mut Vec<u8>, value: i64) -> Result<(), AllocError>
    ensures { OnOk result (out.new.items ≡ beside out.old.items (signed_decimal value)) }
{
    let mut digits = Buffer::new();
    put(out, digits.format(value).as_bytes())
}
