ghost use Rattle.std.specs.Prelude.{◌≡◌, ◌<◌, ◌∷◌, [], length, IfOk};
ghost use Rattle.cp_term.specs.Substitution.{apply};
ghost use Rattle.cp_heap.specs.State.{term, substitution, Extends};
ghost use Rattle.cp_goal.specs.Errors.{word, with_one, with_two};

use cp_heap::{Heap, Ref, Refs};
use cp_term::Name;
use std::alloc::{AllocError, Global};

/// The name with these bytes, which are a name.
fn name_of(alloc: Global, text: &[u8]) -> Result<Name, AllocError>
    ensures { IfOk result (λ name. name ≡ text.now) }
{
    match Name::of(alloc, text) {
        Ok(name) => Ok(name),
        Err(_) => Err(AllocError),
    }
}

fn one(alloc: Global, only: Ref) -> Result<Refs, AllocError>
    ensures { IfOk result (λ refs. refs ≡ only ∷ []) }
{
    let mut refs = Refs::new(alloc);
    refs.push(only)?;
    Ok(refs)
}

fn two(alloc: Global, first: Ref, second: Ref) -> Result<Refs, AllocError>
    ensures { IfOk result (λ refs. refs ≡ first ∷ second ∷ []) }
{
    let mut refs = Refs::new(alloc);
    refs.push(first)?;
    refs.push(second)?;
    Ok(refs)
}

/// Makes the atom with this name.
pub fn atom(alloc: Global, heap: &mut Heap, name: &[u8]) -> Result<Ref, AllocError>
    ensures live { IfOk result (λ r. r.at < length heap.new.terms) }
    ensures term { IfOk result (λ r. term heap.new r.at ≡ word name.now) }
    ensures bindings { substitution heap.new ≡ substitution heap.old }
    ensures extends { Extends heap.old heap.new }
    ensures variables { heap.new.variables ≡ heap.old.variables }
    ensures trail { heap.new.trail ≡ heap.old.trail }
{
    let name = name_of(alloc, name)?;
    heap.atom(&name)
}

/// Makes a compound of one argument, which stays the term that it is.
pub fn with_one(
    alloc: Global,
    heap: &mut Heap,
    name: &[u8],
    argument: Ref,
) -> Result<Ref, AllocError>
    requires { argument.at < length heap.old.terms }
    ensures live { IfOk result (λ r. r.at < length heap.new.terms) }
    ensures term { IfOk result (λ r. term heap.new r.at ≡ with_one name.now (term heap.old argument.at)) }
    ensures bindings { substitution heap.new ≡ substitution heap.old }
    ensures extends { Extends heap.old heap.new }
    ensures variables { heap.new.variables ≡ heap.old.variables }
    ensures trail { heap.new.trail ≡ heap.old.trail }
{
    let name = name_of(alloc, name)?;
    let arguments = one(alloc, argument)?;
    heap.compound(&name, &arguments)
}

/// Makes a compound of two arguments, which stay the terms that they are.
pub fn with_two(
    alloc: Global,
    heap: &mut Heap,
    name: &[u8],
    first: Ref,
    second: Ref,
) -> Result<Ref, AllocError>
    requires first { first.at < length heap.old.terms }
    requires second { second.at < length heap.old.terms }
    ensures live { IfOk result (λ r. r.at < length heap.new.terms) }
    ensures term { IfOk result (λ r. term heap.new r.at ≡ with_two name.now (term heap.old first.at) (term heap.old second.at)) }
    ensures bindings { substitution heap.new ≡ substitution heap.old }
    ensures extends { Extends heap.old heap.new }
    ensures variables { heap.new.variables ≡ heap.old.variables }
    ensures trail { heap.new.trail ≡ heap.old.trail }
{
    let name = name_of(alloc, name)?;
    let arguments = two(alloc, first, second)?;
    heap.compound(&name, &arguments)
}
