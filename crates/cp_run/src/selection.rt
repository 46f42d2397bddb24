ghost use Rattle.std.specs.Prelude.{◌≡◌, ◌<◌, ◌∷◌, List, length, true, false};
ghost use Rattle.cp_term.specs.declared.cell.Cell.{Cell as CellOf};
ghost use Rattle.cp_term.specs.declared.cell.Cell.TheVariants.{Int, Atom, Func};
ghost use Rattle.cp_term.specs.Preorder.{is_terms};
ghost use Rattle.cp_heap.specs.State.{instance_at};
ghost use Rattle.cp_code.specs.Clauses.{head_of, first_argument, may_unify, can_match};

use cp_code::Clause;
use cp_heap::{Heap, Look, Ref};
use cp_term::{Cell, Name};

/// Whether the first argument of a goal can match that of the head of a clause, as far as their first cells tell. It is
/// asked before the clause is put on the heap.
pub fn may_match(heap: &Heap, goal: Ref, clause: &Clause) -> bool
    requires { goal.at < length heap.now.terms }
    ensures { result ≡ false → can_match (first_argument (instance_at heap.now goal.at)) (first_argument (head_of clause.now.whole)) ≡ false }
{
    match heap.argument(goal, 0) {
        None => true,
        Some(at) => match clause.first_argument() {
            None => true,
            Some(own) => may_begin(heap, at, own),
        },
    }
}

/// Whether a term, with its bindings, may unify with one that begins with this cell.
fn may_begin(heap: &Heap, at: Ref, own: &Cell) -> bool
    requires { at.at < length heap.now.terms }
    ensures begins { (c : CellOf) (rest : List CellOf) → instance_at heap.now at.at ≡ c ∷ rest → result ≡ may_unify c own.now }
    ensures term { is_terms 1 (instance_at heap.now at.at) ≡ true }
{
    match heap.look(at) {
        Look::Var(_, _) => true,
        Look::Int(integer) => may_be_integer(own, integer),
        Look::Atom => match heap.name(at) {
            Some(name) => may_be_atom(own, name),
            None => unreachable!(),
        },
        Look::Func(arity) => match heap.name(at) {
            Some(name) => may_be_functor(own, name, arity),
            None => unreachable!(),
        },
    }
}

fn may_be_integer(own: &Cell, integer: i64) -> bool
    ensures { result ≡ may_unify (Int integer) own.now }
{
    match own {
        Cell::Var(_) => true,
        Cell::Int(own) => *own == integer,
        _ => false,
    }
}

fn may_be_atom(own: &Cell, name: &Name) -> bool
    ensures { result ≡ may_unify (Atom name.now) own.now }
{
    match own {
        Cell::Var(_) => true,
        Cell::Atom(own) => own.bytes() == name.bytes(),
        _ => false,
    }
}

fn may_be_functor(own: &Cell, name: &Name, arity: u16) -> bool
    ensures { result ≡ may_unify (Func name.now arity) own.now }
{
    match own {
        Cell::Var(_) => true,
        Cell::Func(own, own_arity) => own.bytes() == name.bytes() && *own_arity == arity,
        _ => false,
    }
}
