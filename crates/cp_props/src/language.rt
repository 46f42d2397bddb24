ghost use Rattle.std.specs.Prelude.{◌≡◌, ◌<◌, length, IfOk};
ghost use Rattle.std.specs.Option.{option_map};
ghost use Rattle.cp_heap.specs.State.{instance_at};
ghost use Rattle.cp_code.specs.Properties.{of_language, without_types};
ghost use Rattle.cp_props.specs.Language.{property_named, number_named, constant_named, compound_named, meets};

use crate::looks::{is_atom, is_compound, is_integer, is_natural, is_proper_list, is_variable};
use cp_heap::{Heap, Ref};
use cp_term::Name;
use std::alloc::{AllocError, Global};

/// A property of the language (Ciao manual, "Basic data types and properties").
#[derive(Debug, Clone, Copy, PartialEq, Eq, Drop)]
pub enum Property {
    /// `term`
    Any,
    /// `var`
    Unbound,
    /// `nonvar`
    Bound,
    /// `gnd`, `ground`
    Ground,
    /// `int`, `integer`, `num`, `number`
    Integer,
    /// `nnegint`
    Natural,
    /// `atm`, `atom`
    Atom,
    /// `constant`, `atomic`
    Constant,
    /// `struct`, `compound`
    Compound,
    /// `callable`
    Callable,
    /// `list`
    List,
}

/// What a property of the language says of the term at a place; None where the name is that of none.
fn of_language(alloc: Global, heap: &Heap, name: &Name, at: Ref) -> Result<Option<bool>, AllocError>
    requires { at.at < length heap.now.terms }
    ensures { IfOk result (λ answer. answer ≡ of_language name.now (instance_at heap.now at.at)) }
{
    match Property::named(name.bytes()) {
        Some(property) => {
            let answer = property.meets(alloc, heap, at)?;
            Ok(Some(answer))
        }
        None => Ok(None),
    }
}

/// The same, and that no unbound variable has a regular type; None where it is for the clauses of a type to say.
pub(crate) fn without_types(
    alloc: Global,
    heap: &Heap,
    name: &Name,
    at: Ref,
) -> Result<Option<bool>, AllocError>
    requires { at.at < length heap.now.terms }
    ensures { IfOk result (λ answer. answer ≡ without_types name.now (instance_at heap.now at.at)) }
{
    match of_language(alloc, heap, name, at)? {
        Some(answer) => Ok(Some(answer)),
        None => {
            if is_variable(heap, at) {
                Ok(Some(false))
            } else {
                Ok(None)
            }
        }
    }
}

impl Property {
    /// The property of this name.
    fn named(name: &[u8]) -> Option<Property>
        ensures { result ≡ property_named name.now }
    {
        if name == b"term".as_slice() {
            Some(Property::Any)
        } else if name == b"var".as_slice() {
            Some(Property::Unbound)
        } else if name == b"nonvar".as_slice() {
            Some(Property::Bound)
        } else if name == b"gnd".as_slice() || name == b"ground".as_slice() {
            Some(Property::Ground)
        } else {
            number_named(name)
        }
    }

    /// Whether the term at a place has the property.
    fn meets(self, alloc: Global, heap: &Heap, at: Ref) -> Result<bool, AllocError>
        requires { at.at < length heap.now.terms }
        ensures { IfOk result (λ answer. answer ≡ meets self (instance_at heap.now at.at)) }
    {
        match self {
            Property::Any => Ok(true),
            Property::Unbound => Ok(is_variable(heap, at)),
            Property::Bound => Ok(!is_variable(heap, at)),
            Property::Ground => heap.is_ground(at),
            Property::Integer => Ok(is_integer(heap, at)),
            Property::Natural => Ok(is_natural(heap, at)),
            Property::Atom => Ok(is_atom(heap, at)),
            Property::Constant => Ok(is_atom(heap, at) || is_integer(heap, at)),
            Property::Compound => Ok(is_compound(heap, at)),
            Property::Callable => Ok(is_atom(heap, at) || is_compound(heap, at)),
            Property::List => is_proper_list(alloc, heap, at),
        }
    }
}

fn number_named(name: &[u8]) -> Option<Property>
    ensures { result ≡ number_named name.now }
{
    if name == b"int".as_slice()
        || name == b"integer".as_slice()
        || name == b"num".as_slice()
        || name == b"number".as_slice()
    {
        Some(Property::Integer)
    } else if name == b"nnegint".as_slice() {
        Some(Property::Natural)
    } else {
        constant_named(name)
    }
}

fn constant_named(name: &[u8]) -> Option<Property>
    ensures { result ≡ constant_named name.now }
{
    if name == b"atm".as_slice() || name == b"atom".as_slice() {
        Some(Property::Atom)
    } else if name == b"constant".as_slice() || name == b"atomic".as_slice() {
        Some(Property::Constant)
    } else {
        compound_named(name)
    }
}

fn compound_named(name: &[u8]) -> Option<Property>
    ensures { result ≡ compound_named name.now }
{
    if name == b"struct".as_slice() || name == b"compound".as_slice() {
        Some(Property::Compound)
    } else if name == b"callable".as_slice() {
        Some(Property::Callable)
    } else if name == b"list".as_slice() {
        Some(Property::List)
    } else {
        None
    }
}
