ghost use Rattle.std.specs.Prelude.{◌≡◌, ◌<◌, ℕ, List, length, Some, IfOk};
ghost use Rattle.cp_term.specs.Order.{compare_under};
ghost use Rattle.cp_term.specs.Unification as definition;
ghost use Rattle.cp_heap.specs.State.{term, substitution, instance_at, Extends};
ghost use Rattle.cp_heap.specs.Looks.{name_of};
ghost use Rattle.cp_goal.specs.Errors.{word};
ghost use Rattle.cp_goal.specs.Builtins as rows;
ghost use Rattle.cp_goal.specs.Builtins.{by};
ghost use Rattle.cp_builtin.specs.Ends.{HasEnded};

use crate::ended::Ended;
use crate::errors::{domain_error, type_error};
use crate::unified::unified_atom;
use cp_goal::Relation;
use cp_heap::{Heap, Look, Ref};
use cp_term::Name;
use cp_unify::compare;
use std::alloc::{AllocError, Global};
use std::cmp::Ordering;

/// Whether an order is one of the relation.
pub(crate) fn holds(relation: Relation, order: Ordering) -> bool
    ensures { result ≡ rows.holds relation order }
{
    match relation {
        Relation::Equal => order.is_eq(),
        Relation::NotEqual => order.is_ne(),
        Relation::Less => order.is_lt(),
        Relation::NotGreater => order.is_le(),
        Relation::Greater => order.is_gt(),
        Relation::NotLess => order.is_ge(),
    }
}

/// `==/2`, `@</2` and their kin.
pub(crate) fn in_order(heap: &Heap, relation: Relation, x: Ref, y: Ref) -> bool
    requires x { x.at < length heap.now.terms }
    requires y { y.at < length heap.now.terms }
    ensures { result ≡ rows.holds relation (compare_under (substitution heap.now) (term heap.now x.at) (term heap.now y.at)) }
{
    holds(relation, compare(heap, x, y))
}

/// `compare/3`.
pub(crate) fn compared(
    alloc: Global,
    heap: &mut Heap,
    order: Ref,
    x: Ref,
    y: Ref,
) -> Result<Ended, AllocError>
    requires order { order.at < length heap.old.terms }
    requires x { x.at < length heap.old.terms }
    requires y { y.at < length heap.old.terms }
    ensures ended { IfOk result (λ ended. HasEnded heap.new ended (rows.compared (instance_at heap.old order.at) (compare_under (substitution heap.old) (term heap.old x.at) (term heap.old y.at)) (term heap.old order.at) (substitution heap.old) heap.old.variables)) }
    ensures extends { Extends heap.old heap.new }
{
    let found = compare(heap, x, y);
    match heap.look(order) {
        Look::Var(_, _) => unified_order(alloc, heap, order, found),
        Look::Atom => {
            if is_order(heap, order) {
                unified_order(alloc, heap, order, found)
            } else {
                domain_error(alloc, heap, b"order", order)
            }
        }
        Look::Int(_) => type_error(alloc, heap, b"atom", order),
        Look::Func(_) => type_error(alloc, heap, b"atom", order),
    }
}

/// Makes a term the name of an order.
fn unified_order(
    alloc: Global,
    heap: &mut Heap,
    x: Ref,
    order: Ordering,
) -> Result<Ended, AllocError>
    requires { x.at < length heap.old.terms }
    ensures ended { IfOk result (λ ended. HasEnded heap.new ended (by (definition.unify (substitution heap.old) (term heap.old x.at) (word (rows.order_word order))) heap.old.variables)) }
    ensures extends { Extends heap.old heap.new }
{
    let name = match order {
        Ordering::Less => Name::known(alloc, b"<")?,
        Ordering::Equal => Name::known(alloc, b"=")?,
        Ordering::Greater => Name::known(alloc, b">")?,
    };
    unified_atom(alloc, heap, x, &name)
}

/// Whether an atom is the name of an order.
fn is_order(heap: &Heap, at: Ref) -> bool
    requires { at.at < length heap.now.terms }
    ensures { (a : List ℕ) → name_of (instance_at heap.now at.at) ≡ Some a → result ≡ rows.is_order a }
{
    match heap.name(at) {
        Some(name) => is_order_name(name.bytes()),
        None => false,
    }
}

fn is_order_name(name: &[u8]) -> bool
    ensures { result ≡ rows.is_order name.now }
{
    name == b"<".as_slice() || name == b"=".as_slice() || name == b">".as_slice()
}
