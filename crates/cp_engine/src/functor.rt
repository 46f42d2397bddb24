ghost use Rattle.std.specs.Prelude.{◌≡◌, ◌<◌, List, ℕ, codes, length, IfOk};
ghost use Rattle.std.specs.Option.{option_map};
ghost use Rattle.cp_goal.specs.Builtins.{context};
ghost use Rattle.cp_heap.specs.State.{instance_at};
ghost use Rattle.cp_heap.specs.Looks.{name_of};
ghost use Rattle.cp_code.specs.Requests.{functor_of as functor_in, full_name};

use cp_heap::{Heap, Look, Ref};
use cp_term::{Name, PredName};
use std::alloc::{AllocError, Global};

/// The name and the number of arguments of a callable term.
pub fn functor_of(heap: &Heap, at: Ref) -> Result<Option<(Name, u16)>, AllocError>
    requires { at.at < length heap.now.terms }
    ensures { IfOk result (λ f. functor_in (instance_at heap.now at.at) ≡ f) }
{
    match heap.look(at) {
        Look::Atom => named(heap, at, 0),
        Look::Func(arity) => named(heap, at, arity),
        Look::Var(_, _) => Ok(None),
        Look::Int(_) => Ok(None),
    }
}

fn named(heap: &Heap, at: Ref, arity: u16) -> Result<Option<(Name, u16)>, AllocError>
    requires { at.at < length heap.now.terms }
    ensures { IfOk result (λ f. f ≡ option_map (λ (n : List ℕ). (n, arity)) (name_of (instance_at heap.now at.at))) }
{
    match heap.name(at) {
        Some(name) => {
            let name = name.clone()?;
            Ok(Some((name, arity)))
        }
        None => Ok(None),
    }
}

/// `call/1` of a module, which the errors of a started goal name.
pub fn call_of(alloc: Global, seer: &Name) -> Result<PredName, AllocError>
    ensures { IfOk result (λ p. full_name p ≡ context seer.now (codes "call") 1) }
{
    let module = seer.clone()?;
    let name = Name::known(alloc, b"call")?;
    Ok(PredName {
        module,
        name,
        arity: 1,
    })
}
