ghost use Rattle.std.specs.Prelude.{◌≡◌, ◌+◌, ◌<◌, ◌++◌, true, [], ◌∷◌, length, IfOk, OnOk};
ghost use Rattle.cp_term.specs.Preorder.{is_terms};
ghost use Rattle.cp_heap.specs.State.{instance_at, AreRefs};
ghost use Rattle.cp_props.specs.Pending.{pending, IsCompound, behind_first, first_arity};

use cp_heap::{Heap, Look, Ref, Refs};
use std::alloc::{AllocError, Global};

/// A stack with this place alone.
pub(crate) fn stack_of(alloc: Global, at: Ref) -> Result<Refs, AllocError>
    ensures { IfOk result (λ stack. stack ≡ at ∷ []) }
{
    let mut stack = Refs::new(alloc);
    stack.push(at)?;
    Ok(stack)
}

/// The number of cells of the term at a place, with all bindings.
pub(crate) fn size_of(alloc: Global, heap: &Heap, at: Ref) -> Result<u32, AllocError>
    requires { at.at < length heap.now.terms }
    ensures { IfOk result (λ size. size ≡ length (instance_at heap.now at.at)) }
{
    let mut stack = stack_of(alloc, at)?;
    let mut size: u32 = 0;
    'cells: loop {
        match stack.pop() {
            None => return Ok(size),
            Some(next) => {
                size = one_more(size)?;
                push_arguments(heap, next, &mut stack)?;
            }
        }
    }
}

fn one_more(size: u32) -> Result<u32, AllocError>
    ensures { IfOk result (λ more. more ≡ size + 1) }
{
    match size.checked_add(1) {
        Some(more) => Ok(more),
        None => Err(AllocError),
    }
}

/// Puts the arguments of the term at a place on a stack, the first on top.
pub(crate) fn push_arguments(heap: &Heap, at: Ref, stack: &mut Refs) -> Result<(), AllocError>
    requires place { at.at < length heap.now.terms }
    requires places { AreRefs heap.now stack.old }
    ensures places { OnOk result (AreRefs heap.now stack.new) }
    ensures pushed { OnOk result (pending heap.now stack.new ≡ behind_first (instance_at heap.now at.at) ++ pending heap.now stack.old) }
    ensures count { OnOk result (length stack.new ≡ length stack.old + first_arity (instance_at heap.now at.at)) }
    ensures term { is_terms 1 (instance_at heap.now at.at) ≡ true }
{
    match heap.look(at) {
        Look::Func(arity) => push_all(heap, at, arity, stack),
        Look::Var(_, _) => Ok(()),
        Look::Int(_) => Ok(()),
        Look::Atom => Ok(()),
    }
}

/// Puts the arguments of a compound on a stack, the first on top.
pub(crate) fn push_all(heap: &Heap, at: Ref, arity: u16, stack: &mut Refs) -> Result<(), AllocError>
    requires place { at.at < length heap.now.terms }
    requires places { AreRefs heap.now stack.old }
    requires compound { IsCompound arity (instance_at heap.now at.at) }
    requires term { is_terms 1 (instance_at heap.now at.at) ≡ true }
    ensures places { OnOk result (AreRefs heap.now stack.new) }
    ensures pushed { OnOk result (pending heap.now stack.new ≡ behind_first (instance_at heap.now at.at) ++ pending heap.now stack.old) }
    ensures count { OnOk result (length stack.new ≡ length stack.old + arity) }
{
    let mut index = arity;
    'arguments: while index > 0 {
        index -= 1;
        match heap.argument(at, index) {
            Some(argument) => stack.push(argument)?,
            None => unreachable!(),
        }
    }
    Ok(())
}
