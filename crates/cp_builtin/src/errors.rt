ghost use Rattle.std.specs.Prelude.{◌≡◌, ◌<◌, length, IfOk};
ghost use Rattle.cp_heap.specs.State.{instance_at, Extends};
ghost use Rattle.cp_goal.specs.Errors as kinds;
ghost use Rattle.cp_goal.specs.Builtins.{Raises};
ghost use Rattle.cp_builtin.specs.Ends.{HasEnded};

use crate::compound::{atom, with_one, with_two};
use crate::ended::Ended;
use cp_heap::{Heap, Ref};
use std::alloc::{AllocError, Global};

pub(crate) fn instantiation_error(alloc: Global, heap: &mut Heap) -> Result<Ended, AllocError>
    ensures ended { IfOk result (λ ended. HasEnded heap.new ended (Raises kinds.instantiation_error)) }
    ensures extends { Extends heap.old heap.new }
{
    let kind = atom(alloc, heap, b"instantiation_error")?;
    Ok(Ended::Raises(kind))
}

/// The culprit is no term of this type.
pub(crate) fn type_error(
    alloc: Global,
    heap: &mut Heap,
    wanted: &[u8],
    culprit: Ref,
) -> Result<Ended, AllocError>
    requires { culprit.at < length heap.old.terms }
    ensures ended { IfOk result (λ ended. HasEnded heap.new ended (Raises (kinds.type_error wanted.now (instance_at heap.old culprit.at)))) }
    ensures extends { Extends heap.old heap.new }
{
    let wanted = atom(alloc, heap, wanted)?;
    let kind = with_two(alloc, heap, b"type_error", wanted, culprit)?;
    Ok(Ended::Raises(kind))
}

/// The culprit is of the right type and not of this domain.
pub(crate) fn domain_error(
    alloc: Global,
    heap: &mut Heap,
    domain: &[u8],
    culprit: Ref,
) -> Result<Ended, AllocError>
    requires { culprit.at < length heap.old.terms }
    ensures ended { IfOk result (λ ended. HasEnded heap.new ended (Raises (kinds.domain_error domain.now (instance_at heap.old culprit.at)))) }
    ensures extends { Extends heap.old heap.new }
{
    let domain = atom(alloc, heap, domain)?;
    let kind = with_two(alloc, heap, b"domain_error", domain, culprit)?;
    Ok(Ended::Raises(kind))
}

/// A resource is exhausted.
pub(crate) fn resource_error(
    alloc: Global,
    heap: &mut Heap,
    resource: &[u8],
) -> Result<Ended, AllocError>
    ensures ended { IfOk result (λ ended. HasEnded heap.new ended (Raises (kinds.resource_error resource.now))) }
    ensures extends { Extends heap.old heap.new }
{
    let resource = atom(alloc, heap, resource)?;
    let kind = with_one(alloc, heap, b"resource_error", resource)?;
    Ok(Ended::Raises(kind))
}
