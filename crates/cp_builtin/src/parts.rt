ghost use Rattle.std.specs.Prelude.{◌≡◌, ◌<◌, true, [], ◌∷◌, ◌++◌, length, List, ℕ, IfOk, OnOk};
ghost use Rattle.std.specs.List.{flat_map};
ghost use Rattle.cp_term.specs.declared.cell.Cell.TheVariants.{Atom as AtomCell, Func as FuncCell};
ghost use Rattle.cp_term.specs.Preorder.{arguments, is_terms};
ghost use Rattle.cp_heap.specs.State.{instance_at, AreRefs};
ghost use Rattle.cp_lists.specs.Growing.{GainsTerms};
ghost use Rattle.cp_lists.specs.Places.{instances};
ghost use Rattle.cp_builtin.specs.Parts.{parts, IsAtom, IsCompound};

use cp_heap::{Heap, Look, Ref, Refs};
use std::alloc::{AllocError, Global};

/// The name and the arguments of a compound; any other term by itself.
pub(crate) fn parts_of(alloc: Global, heap: &mut Heap, whole: Ref) -> Result<Refs, AllocError>
    requires { whole.at < length heap.old.terms }
    ensures live { IfOk result (λ refs. AreRefs heap.new refs) }
    ensures instances { IfOk result (λ refs. instances heap.new refs ≡ parts (instance_at heap.old whole.at)) }
    ensures gains { GainsTerms heap.old heap.new }
{
    let _mark = heap.mark();
    match heap.look(whole) {
        Look::Var(_, _) => refs_of(alloc, &[whole]),
        Look::Int(_) => refs_of(alloc, &[whole]),
        Look::Atom => refs_of(alloc, &[whole]),
        Look::Func(arity) => compound_parts(alloc, heap, whole, arity),
    }
}

fn refs_of(alloc: Global, places: &[Ref]) -> Result<Refs, AllocError>
    ensures { IfOk result (λ refs. refs ≡ places.now) }
{
    let mut refs = Refs::new(alloc);
    'places: for place in places {
        refs.push(*place)?;
    }
    Ok(refs)
}

fn compound_parts(
    alloc: Global,
    heap: &mut Heap,
    whole: Ref,
    arity: u16,
) -> Result<Refs, AllocError>
    requires whole { whole.at < length heap.old.terms }
    requires compound { IsCompound arity (instance_at heap.old whole.at) }
    ensures live { IfOk result (λ refs. AreRefs heap.new refs) }
    ensures instances { IfOk result (λ refs. instances heap.new refs ≡ parts (instance_at heap.old whole.at)) }
    ensures gains { GainsTerms heap.old heap.new }
{
    let _mark = heap.mark();
    let Some(name) = heap.name(whole) else {
        unreachable!()
    };
    let name = name.clone()?;
    let head = heap.atom(&name)?;
    let mut parts = refs_of(alloc, &[head])?;
    push_arguments(heap, whole, arity, &mut parts)?;
    Ok(parts)
}

/// Adds the places of the arguments of a compound.
fn push_arguments(heap: &Heap, whole: Ref, arity: u16, places: &mut Refs) -> Result<(), AllocError>
    requires whole { whole.at < length heap.now.terms }
    requires compound { IsCompound arity (instance_at heap.now whole.at) }
    requires places { AreRefs heap.now places.old }
    ensures live { OnOk result (AreRefs heap.now places.new) }
    ensures pushed { OnOk result (instances heap.now places.new ≡ instances heap.now places.old ++ arguments (instance_at heap.now whole.at)) }
{
    'arguments: for index in 0..arity {
        match heap.argument(whole, index) {
            Some(argument) => places.push(argument)?,
            None => unreachable!(),
        }
    }
    Ok(())
}

/// Makes the compound of the name that an atom is and of 1 to 255 arguments.
pub(crate) fn compound_of(
    alloc: Global,
    heap: &mut Heap,
    head: Ref,
    arguments: &[Ref],
) -> Result<Ref, AllocError>
    requires head { head.at < length heap.old.terms }
    requires atom { IsAtom (instance_at heap.old head.at) }
    requires some { 0 < length arguments.now }
    requires few { length arguments.now < 256 }
    requires live { AreRefs heap.old arguments.now }
    ensures live { IfOk result (λ r. r.at < length heap.new.terms) }
    ensures instance { IfOk result (λ r. (a : List ℕ) → instance_at heap.old head.at ≡ AtomCell a ∷ [] → instance_at heap.new r.at ≡ FuncCell a (length arguments.now) ∷ flat_map (λ t. t) (instances heap.old arguments.now)) }
    ensures gains { GainsTerms heap.old heap.new }
{
    let _mark = heap.mark();
    let Some(name) = heap.name(head) else {
        unreachable!()
    };
    let name = name.clone()?;
    let places = refs_of(alloc, arguments)?;
    let made = heap.compound(&name, &places)?;
    Ok(made)
}
