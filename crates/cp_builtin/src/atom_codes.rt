ghost use Rattle.std.specs.Prelude.{◌≡◌, ◌<◌, length, IfOk};
ghost use Rattle.std.specs.Fmt.{signed_decimal};
ghost use Rattle.cp_term.specs.Unification as definition;
ghost use Rattle.cp_heap.specs.State.{term, substitution, instance_at, Extends};
ghost use Rattle.cp_goal.specs.Lists.{text_in};
ghost use Rattle.cp_goal.specs.Builtins.{by, codes_term, atom_codes_row, atom_made};
ghost use Rattle.cp_builtin.specs.Ends.{HasEnded};
ghost use Rattle.cp_builtin.specs.Parts.{IsAtom};

use crate::ended::Ended;
use crate::errors::{instantiation_error, resource_error, type_error};
use crate::name_text::name_text;
use crate::text_errors::representation_error;
use crate::unified::{unified, unified_atom};
use cp_heap::{Heap, Look, Ref};
use cp_lists::{TextError, codes_list, digits_list, text_of, utf8_of};
use cp_term::{Name, NameError};
use std::alloc::{AllocError, Global};

/// `atom_codes/2`.
pub(crate) fn atom_codes(
    alloc: Global,
    heap: &mut Heap,
    whole: Ref,
    list: Ref,
) -> Result<Ended, AllocError>
    requires whole { whole.at < length heap.old.terms }
    requires list { list.at < length heap.old.terms }
    ensures ended { IfOk result (λ ended. HasEnded heap.new ended (atom_codes_row (instance_at heap.old whole.at) (term heap.old whole.at) (term heap.old list.at) (substitution heap.old) heap.old.variables)) }
    ensures extends { Extends heap.old heap.new }
{
    match heap.look(whole) {
        Look::Var(_, _) => atom_of_codes(alloc, heap, whole, list),
        Look::Int(integer) => codes_of_integer(alloc, heap, integer, list),
        Look::Atom => codes_of_atom(alloc, heap, whole, list),
        Look::Func(_) => type_error(alloc, heap, b"atomic", whole),
    }
}

/// Makes a list the codes of an integer.
pub(crate) fn codes_of_integer(
    alloc: Global,
    heap: &mut Heap,
    integer: i64,
    list: Ref,
) -> Result<Ended, AllocError>
    requires { list.at < length heap.old.terms }
    ensures ended { IfOk result (λ ended. HasEnded heap.new ended (by (definition.unify (substitution heap.old) (term heap.old list.at) (codes_term (signed_decimal integer))) heap.old.variables)) }
    ensures extends { Extends heap.old heap.new }
{
    let codes = digits_list(alloc, heap, integer)?;
    unified(alloc, heap, list, codes)
}

/// Makes a list the codes of an atom.
fn codes_of_atom(alloc: Global, heap: &mut Heap, whole: Ref, list: Ref) -> Result<Ended, AllocError>
    requires whole { whole.at < length heap.old.terms }
    requires atom { IsAtom (instance_at heap.old whole.at) }
    requires list { list.at < length heap.old.terms }
    ensures ended { IfOk result (λ ended. HasEnded heap.new ended (atom_codes_row (instance_at heap.old whole.at) (term heap.old whole.at) (term heap.old list.at) (substitution heap.old) heap.old.variables)) }
    ensures extends { Extends heap.old heap.new }
{
    let Some(name) = heap.name(whole) else {
        unreachable!()
    };
    let name = name.clone()?;
    let codes = codes_list(alloc, heap, name_text(&name))?;
    unified(alloc, heap, list, codes)
}

/// Makes a term the atom of a list of codes.
fn atom_of_codes(alloc: Global, heap: &mut Heap, whole: Ref, list: Ref) -> Result<Ended, AllocError>
    requires whole { whole.at < length heap.old.terms }
    requires list { list.at < length heap.old.terms }
    ensures ended { IfOk result (λ ended. HasEnded heap.new ended (atom_made (text_in (instance_at heap.old list.at)) (term heap.old whole.at) (substitution heap.old) heap.old.variables)) }
    ensures extends { Extends heap.old heap.new }
{
    let _mark = heap.mark();
    match text_of(alloc, heap, list) {
        Ok(text) => atom_of_text(alloc, heap, whole, text.as_slice()),
        Err(TextError::Unbound) => instantiation_error(alloc, heap),
        Err(TextError::NotList(culprit)) => type_error(alloc, heap, b"list", culprit),
        Err(TextError::NotInteger(culprit)) => type_error(alloc, heap, b"integer", culprit),
        Err(TextError::NotCode) => representation_error(alloc, heap, b"character_code"),
        Err(TextError::NoMemory) => Err(AllocError),
    }
}

/// Makes a term the atom with this text.
fn atom_of_text(
    alloc: Global,
    heap: &mut Heap,
    whole: Ref,
    text: &[char],
) -> Result<Ended, AllocError>
    requires { whole.at < length heap.old.terms }
    ensures ended { IfOk result (λ ended. HasEnded heap.new ended (atom_made (Ok text.now) (term heap.old whole.at) (substitution heap.old) heap.old.variables)) }
    ensures extends { Extends heap.old heap.new }
{
    let _mark = heap.mark();
    let bytes = utf8_of(alloc, text)?;
    match Name::of(alloc, bytes.as_str().as_bytes()) {
        Ok(name) => unified_atom(alloc, heap, whole, &name),
        Err(NameError::TooLong) => resource_error(alloc, heap, b"atom"),
        Err(NameError::NotUtf8) => unreachable!(),
        Err(NameError::NoMemory) => Err(AllocError),
    }
}
