ghost use Rattle.std.specs.Prelude.{◌≡◌, ◌<◌, ◌++◌, codes, OnOk};
ghost use Rattle.std.specs.Char.{digit_char};
ghost use Rattle.std.specs.List.{list_all};
ghost use Rattle.cp_char.specs.Characters.{is_symbol, is_alphanumeric};
ghost use Rattle.cp_ops.specs.Text.{beside, is_symbolic, is_small_name, is_plain, is_tight, hexadecimal, quoted_byte, in_quotes, name_text, functor_text};
ghost use Rattle.cp_write.specs.Writing.{style_of, operator_put};

use crate::output::put;
use crate::style::Style;
use cp_char::{is_alphanumeric, is_symbol};
use std::alloc::AllocError;

/// Whether the name is one or more symbol characters.
fn is_symbolic(name: &[u8]) -> bool
    ensures { result ≡ is_symbolic name.now }
{
    !name.is_empty() && has_only_symbols(name)
}

fn has_only_symbols(name: &[u8]) -> bool
    ensures { result ≡ list_all is_symbol name.now }
{
    name.iter().all(|byte| is_symbol(*byte))
}

/// Whether the name is a small letter and then letters, digits and underscores.
fn is_small_name(name: &[u8]) -> bool
    ensures { result ≡ is_small_name name.now }
{
    match name.first() {
        Some(first) => first.is_ascii_lowercase() && has_only_alphanumerics(&name[1..]),
        None => false,
    }
}

fn has_only_alphanumerics(name: &[u8]) -> bool
    ensures { result ≡ list_all is_alphanumeric name.now }
{
    name.iter().all(|byte| is_alphanumeric(*byte))
}

/// Whether an atom with this name needs no quotes.
fn is_plain(name: &[u8]) -> bool
    ensures { result ≡ is_plain name.now }
{
    is_small_name(name)
        || (is_symbolic(name) && !(name == b".".as_slice() || name.starts_with(b"/*".as_slice())))
        || name == b"[]".as_slice()
        || name == b"{}".as_slice()
        || name == b"!".as_slice()
        || name == b";".as_slice()
}

/// Whether an infix operator with this name stands without spaces.
fn is_tight(style: Style, name: &[u8]) -> bool
    ensures { result ≡ is_tight (style_of style) name.now }
{
    match style {
        Style::Bare => is_symbolic(name),
        Style::Quoting => is_symbolic(name) && is_plain(name),
    }
}

/// Adds the name of an atom or an operator.
pub(crate) fn put_name(out: &mut Vec<u8>, style: Style, name: &[u8]) -> Result<(), AllocError>
    ensures { OnOk result (out.new.items ≡ beside out.old.items (name_text (style_of style) name.now)) }
{
    match style {
        Style::Bare => put(out, name),
        Style::Quoting => {
            if is_plain(name) {
                put(out, name)
            } else {
                put_in_quotes(out, name)
            }
        }
    }
}

/// Adds an infix operator behind its left operand, with the spaces that it has.
pub(crate) fn put_operator(out: &mut Vec<u8>, style: Style, name: &[u8]) -> Result<(), AllocError>
    ensures { OnOk result (out.new.items ≡ operator_put (style_of style) name.now out.old.items) }
{
    if name == b",".as_slice() {
        return put(out, b",".as_slice());
    }
    if is_tight(style, name) {
        return put(out, name);
    }
    put(out, b" ".as_slice())?;
    put_name(out, style, name)?;
    put(out, b" ".as_slice())
}

/// Adds a name before arguments in parentheses.
pub(crate) fn put_functor(out: &mut Vec<u8>, style: Style, name: &[u8]) -> Result<(), AllocError>
    ensures { OnOk result (out.new.items ≡ beside out.old.items (functor_text (style_of style) name.now)) }
{
    match style {
        Style::Bare => put(out, name),
        Style::Quoting => {
            if name == b"[]".as_slice() || name == b"{}".as_slice() {
                put_in_quotes(out, name)
            } else {
                put_name(out, Style::Quoting, name)
            }
        }
    }
}

fn put_in_quotes(out: &mut Vec<u8>, name: &[u8]) -> Result<(), AllocError>
    ensures { OnOk result (out.new.items ≡ beside out.old.items (in_quotes name.now)) }
{
    out.push(b'\'')?;
    for byte in name {
        put_quoted_byte(out, *byte)?;
    }
    out.push(b'\'')?;
    Ok(())
}

fn put_quoted_byte(out: &mut Vec<u8>, byte: u8) -> Result<(), AllocError>
    ensures { OnOk result (out.new.items ≡ out.old.items ++ quoted_byte byte) }
{
    if byte == b'\\' || byte == b'\'' {
        return out.extend_from_slice(&[b'\\', byte]);
    }
    if byte == b'\n' {
        return out.extend_from_slice(b"\\n".as_slice());
    }
    if byte == b'\t' {
        return out.extend_from_slice(b"\\t".as_slice());
    }
    if byte < 32 || byte == 127 {
        return put_hexadecimal(out, byte);
    }
    out.extend_from_slice(&[byte])
}

fn put_hexadecimal(out: &mut Vec<u8>, byte: u8) -> Result<(), AllocError>
    ensures { OnOk result (out.new.items ≡ out.old.items ++ (codes "\\x" ++ hexadecimal byte ++ codes "\\")) }
{
    if byte < 16 {
        out.extend_from_slice(&[b'\\', b'x', digit(byte), b'\\'])
    } else {
        out.extend_from_slice(&[b'\\', b'x', digit(byte / 16), digit(byte % 16), b'\\'])
    }
}

fn digit(value: u8) -> u8
    requires { value < 16 }
    ensures { result ≡ digit_char value }
{
    if value < 10 {
        b'0' + value
    } else {
        b'a' + (value - 10)
    }
}
