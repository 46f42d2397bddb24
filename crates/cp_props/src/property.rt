ghost use Rattle.std.specs.Prelude.{◌≡◌, ◌*◌, ◌<◌, suc, length, map, IfOk};
ghost use Rattle.cp_heap.specs.State.{instance_at};
ghost use Rattle.cp_code.specs.Properties.{has};
ghost use Rattle.cp_code.specs.Programs.{type_of};

use crate::language::without_types;
use crate::search::has_within;
use crate::stack::size_of;
use cp_code::Types;
use cp_heap::{Heap, Ref};
use cp_term::Name;
use std::alloc::{AllocError, Global};

/// Whether the term at a place has a property of the language or a regular type (Ciao manual, "Declaring regular types"),
/// as it stands. Nothing is bound. It takes no stack. A type that leads back to itself for the same term, by that alone,
/// holds of nothing.
pub fn has(
    alloc: Global,
    types: &Types,
    heap: &Heap,
    name: &Name,
    at: Ref,
) -> Result<bool, AllocError>
    requires { at.at < length heap.now.terms }
    ensures { IfOk result (λ answer. answer ≡ has (map type_of types.now) name.now (instance_at heap.now at.at)) }
{
    match without_types(alloc, heap, name, at)? {
        Some(answer) => Ok(answer),
        None => has_type(alloc, types, heap, name, at),
    }
}

/// The same, with the depth to which regular types are to be followed.
fn has_type(
    alloc: Global,
    types: &Types,
    heap: &Heap,
    name: &Name,
    at: Ref,
) -> Result<bool, AllocError>
    requires { at.at < length heap.now.terms }
    ensures { IfOk result (λ answer. answer ≡ has (map type_of types.now) name.now (instance_at heap.now at.at)) }
{
    let size = size_of(alloc, heap, at)?;
    let depth = depth_for(types.len(), size)?;
    has_within(alloc, types, heap, depth, name, at)
}

/// The depth for a term of so many cells.
fn depth_for(types: u32, size: u32) -> Result<u64, AllocError>
    ensures { IfOk result (λ depth. depth ≡ suc types * suc size) }
{
    let types = u64::from(types) + 1;
    let size = u64::from(size) + 1;
    match types.checked_mul(size) {
        Some(depth) => Ok(depth),
        None => Err(AllocError),
    }
}
