ghost use Rattle.std.specs.Prelude.{◌≡◌, ◌<◌, ◌≤◌, length, IfOk};
ghost use Rattle.std.specs.Str.{chars};
ghost use Rattle.cp_heap.specs.State.{term, substitution, instance_at, Extends};
ghost use Rattle.cp_goal.specs.Builtins.{atom_length_row};
ghost use Rattle.cp_builtin.specs.Ends.{HasEnded};
ghost use Rattle.cp_builtin.specs.Parts.{IsAtom};

use crate::ended::Ended;
use crate::errors::{instantiation_error, type_error};
use crate::name_text::characters;
use crate::unified::unified_integer;
use cp_heap::{Heap, Look, Ref};
use std::alloc::{AllocError, Global};

/// `atom_length/2`: the number of characters of an atom.
pub(crate) fn atom_length(
    alloc: Global,
    heap: &mut Heap,
    atom: Ref,
    count: Ref,
) -> Result<Ended, AllocError>
    requires atom { atom.at < length heap.old.terms }
    requires count { count.at < length heap.old.terms }
    ensures ended { IfOk result (λ ended. HasEnded heap.new ended (atom_length_row (instance_at heap.old atom.at) (term heap.old count.at) (substitution heap.old) heap.old.variables)) }
    ensures extends { Extends heap.old heap.new }
{
    match heap.look(atom) {
        Look::Var(_, _) => instantiation_error(alloc, heap),
        Look::Int(_) => type_error(alloc, heap, b"atom", atom),
        Look::Atom => length_of(alloc, heap, atom, count),
        Look::Func(_) => type_error(alloc, heap, b"atom", atom),
    }
}

/// Makes a term the number of characters of an atom.
fn length_of(alloc: Global, heap: &mut Heap, atom: Ref, count: Ref) -> Result<Ended, AllocError>
    requires atom { atom.at < length heap.old.terms }
    requires name { IsAtom (instance_at heap.old atom.at) }
    requires count { count.at < length heap.old.terms }
    ensures ended { IfOk result (λ ended. HasEnded heap.new ended (atom_length_row (instance_at heap.old atom.at) (term heap.old count.at) (substitution heap.old) heap.old.variables)) }
    ensures extends { Extends heap.old heap.new }
{
    let Some(name) = heap.name(atom) else {
        unreachable!()
    };
    let characters = characters(name) as i64;
    unified_integer(alloc, heap, count, characters)
}
