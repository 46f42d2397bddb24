ghost use Rattle.std.specs.Prelude.{◌≡◌, ◌<◌, [], length, get_or};
ghost use Rattle.std.specs.Ordering.{nat_cmp};
ghost use Rattle.std.specs.Cmp.Lexicographic.{slice_cmp};
ghost use Rattle.cp_term.specs.declared.cell.Cell.TheVariants.{Var as VarCell, Int as IntCell, Atom as AtomCell, Func as FuncCell};
ghost use Rattle.cp_term.specs.Order.{cell_cmp};
ghost use Rattle.cp_heap.specs.Walk.{first_cell};
ghost use Rattle.cp_unify.specs.Words.{IsNamed};

use cp_heap::{Heap, Word};
use std::cmp::Ordering;

/// The order of the first cells of the two.
pub(crate) fn first_order(heap: &Heap, left: Word, right: Word) -> Ordering
    requires left { IsNamed (length heap.now.names) left }
    requires right { IsNamed (length heap.now.names) right }
    ensures { result ≡ cell_cmp (first_cell heap.now.names left) (first_cell heap.now.names right) }
{
    match left {
        Word::Variable(variable) => variable_order(heap, variable, right),
        Word::Integer(integer) => integer_order(heap, integer, right),
        Word::Atom(name) => atom_order(heap, name, right),
        Word::Compound(arity, name, _) => compound_order(heap, arity, name, right),
    }
}

fn variable_order(heap: &Heap, variable: u32, word: Word) -> Ordering
    ensures { result ≡ cell_cmp (VarCell variable) (first_cell heap.now.names word) }
{
    match word {
        Word::Variable(other) => variable.cmp(&other),
        Word::Integer(_) => Ordering::Less,
        Word::Atom(_) => Ordering::Less,
        Word::Compound(_, _, _) => Ordering::Less,
    }
}

fn integer_order(heap: &Heap, integer: i64, word: Word) -> Ordering
    ensures { result ≡ cell_cmp (IntCell integer) (first_cell heap.now.names word) }
{
    match word {
        Word::Variable(_) => Ordering::Greater,
        Word::Integer(other) => integer.cmp(&other),
        Word::Atom(_) => Ordering::Less,
        Word::Compound(_, _, _) => Ordering::Less,
    }
}

fn atom_order(heap: &Heap, name: u32, word: Word) -> Ordering
    requires name { name < length heap.now.names }
    requires word { IsNamed (length heap.now.names) word }
    ensures { result ≡ cell_cmp (AtomCell (get_or heap.now.names name [])) (first_cell heap.now.names word) }
{
    match word {
        Word::Variable(_) => Ordering::Greater,
        Word::Integer(_) => Ordering::Greater,
        Word::Atom(other) => name_order(heap, name, other),
        Word::Compound(_, _, _) => Ordering::Less,
    }
}

fn compound_order(heap: &Heap, arity: u16, name: u32, word: Word) -> Ordering
    requires name { name < length heap.now.names }
    requires word { IsNamed (length heap.now.names) word }
    ensures { result ≡ cell_cmp (FuncCell (get_or heap.now.names name []) arity) (first_cell heap.now.names word) }
{
    match word {
        Word::Variable(_) => Ordering::Greater,
        Word::Integer(_) => Ordering::Greater,
        Word::Atom(_) => Ordering::Greater,
        Word::Compound(other_arity, other, _) => {
            match arity.cmp(&other_arity) {
                Ordering::Less => Ordering::Less,
                Ordering::Equal => name_order(heap, name, other),
                Ordering::Greater => Ordering::Greater,
            }
        }
    }
}

fn name_order(heap: &Heap, a: u32, b: u32) -> Ordering
    requires a { a < length heap.now.names }
    requires b { b < length heap.now.names }
    ensures { result ≡ slice_cmp nat_cmp (get_or heap.now.names a []) (get_or heap.now.names b []) }
{
    heap.name_at(a).cmp(heap.name_at(b))
}
