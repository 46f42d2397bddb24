ghost use Rattle.std.specs.Prelude.{◌≡◌, ◌<◌, length, IfOk, string_bytes};
ghost use Rattle.std.specs.Str.{encode_utf8_all};
ghost use Rattle.cp_heap.specs.State.{instance_at, AreRefs};
ghost use Rattle.cp_goal.specs.Lists.{text_in, code_of, codes_of};
ghost use Rattle.cp_lists.specs.Places.{instances};
ghost use Rattle.cp_lists.specs.Texts.{Reads, char_of};

use crate::spine::Spine;
use crate::text_error::TextError;
use cp_heap::{Heap, Look, Ref, Refs};
use cp_list::ListOf;
use std::alloc::{AllocError, Global};

/// The characters of a text.
pub type Codes = ListOf<char>;

/// The text that a term is: a list of the numbers of its characters. A list whose end is missing is refused before its
/// elements are looked at, and of these the first that is no code counts.
pub fn text_of(alloc: Global, heap: &Heap, at: Ref) -> Result<Codes, TextError>
    requires { at.at < length heap.now.terms }
    ensures { Reads heap.now result (text_in (instance_at heap.now at.at)) }
{
    match Spine::of(alloc, heap, at)? {
        Spine::Proper(elements) => codes_at(alloc, heap, &elements),
        Spine::Partial => Err(TextError::Unbound),
        Spine::Improper => Err(TextError::NotList(at)),
    }
}

/// The codes that the terms at these places are.
fn codes_at(alloc: Global, heap: &Heap, elements: &Refs) -> Result<Codes, TextError>
    requires { AreRefs heap.now elements.now }
    ensures { Reads heap.now result (codes_of (instances heap.now elements.now)) }
{
    let mut codes = Codes::new(alloc);
    for element in elements.as_slice() {
        match code_at(heap, *element) {
            Ok(code) => codes.push(code)?,
            Err(error) => return Err(error),
        }
    }
    Ok(codes)
}

fn code_at(heap: &Heap, at: Ref) -> Result<char, TextError>
    requires { at.at < length heap.now.terms }
    ensures { Reads heap.now result (code_of (instance_at heap.now at.at)) }
{
    match heap.look(at) {
        Look::Var(_, _) => Err(TextError::Unbound),
        Look::Int(code) => match char_of(code) {
            Some(c) => Ok(c),
            None => Err(TextError::NotCode),
        },
        Look::Atom => Err(TextError::NotInteger(at)),
        Look::Func(_) => Err(TextError::NotInteger(at)),
    }
}

/// The character with this number.
fn char_of(code: i64) -> Option<char>
    ensures { result ≡ char_of code }
{
    match u32::try_from(code) {
        Ok(code) => char::from_u32(code),
        Err(_) => None,
    }
}

/// The bytes of a text in UTF-8.
pub fn utf8_of(alloc: Global, text: &[char]) -> Result<String, AllocError>
    ensures { IfOk result (λ bytes. string_bytes bytes ≡ encode_utf8_all text.now) }
{
    let mut bytes = String::new(alloc);
    'characters: for character in text {
        bytes.push(*character)?;
    }
    Ok(bytes)
}
