ghost use Rattle.std.specs.Prelude.{◌≡◌, ◌<◌, [], length, get_or};
ghost use Rattle.std.specs.Str.{bytes_eq};
ghost use Rattle.cp_term.specs.declared.cell.Cell.TheVariants.{Var as VarCell, Int as IntCell, Atom as AtomCell, Func as FuncCell};
ghost use Rattle.cp_term.specs.CellEq.{cell_eq};
ghost use Rattle.cp_heap.specs.Walk.{first_cell};
ghost use Rattle.cp_unify.specs.Words.{first_of, count_of, IsNamed};

use cp_heap::{Heap, Word};

/// The place of the first argument.
pub(crate) fn first_argument(word: Word) -> u32
    ensures { result ≡ first_of word }
{
    match word {
        Word::Compound(_, _, first) => first,
        Word::Variable(_) => 0,
        Word::Integer(_) => 0,
        Word::Atom(_) => 0,
    }
}

/// How many arguments there are.
pub(crate) fn argument_count(word: Word) -> u16
    ensures { result ≡ count_of word }
{
    match word {
        Word::Compound(arity, _, _) => arity,
        Word::Variable(_) => 0,
        Word::Integer(_) => 0,
        Word::Atom(_) => 0,
    }
}

/// Whether the first cells of the two are the same.
pub(crate) fn same_first(heap: &Heap, left: Word, right: Word) -> bool
    requires left { IsNamed (length heap.now.names) left }
    requires right { IsNamed (length heap.now.names) right }
    ensures { result ≡ cell_eq (first_cell heap.now.names left) (first_cell heap.now.names right) }
{
    match left {
        Word::Variable(variable) => is_variable(heap, variable, right),
        Word::Integer(integer) => is_integer(heap, integer, right),
        Word::Atom(name) => is_atom(heap, name, right),
        Word::Compound(arity, name, _) => is_compound(heap, arity, name, right),
    }
}

fn is_variable(heap: &Heap, variable: u32, word: Word) -> bool
    ensures { result ≡ cell_eq (VarCell variable) (first_cell heap.now.names word) }
{
    match word {
        Word::Variable(other) => variable == other,
        Word::Integer(_) => false,
        Word::Atom(_) => false,
        Word::Compound(_, _, _) => false,
    }
}

fn is_integer(heap: &Heap, integer: i64, word: Word) -> bool
    ensures { result ≡ cell_eq (IntCell integer) (first_cell heap.now.names word) }
{
    match word {
        Word::Integer(other) => integer == other,
        Word::Variable(_) => false,
        Word::Atom(_) => false,
        Word::Compound(_, _, _) => false,
    }
}

fn is_atom(heap: &Heap, name: u32, word: Word) -> bool
    requires name { name < length heap.now.names }
    requires word { IsNamed (length heap.now.names) word }
    ensures { result ≡ cell_eq (AtomCell (get_or heap.now.names name [])) (first_cell heap.now.names word) }
{
    match word {
        Word::Atom(other) => same_name(heap, name, other),
        Word::Variable(_) => false,
        Word::Integer(_) => false,
        Word::Compound(_, _, _) => false,
    }
}

fn is_compound(heap: &Heap, arity: u16, name: u32, word: Word) -> bool
    requires name { name < length heap.now.names }
    requires word { IsNamed (length heap.now.names) word }
    ensures { result ≡ cell_eq (FuncCell (get_or heap.now.names name []) arity) (first_cell heap.now.names word) }
{
    match word {
        Word::Compound(other_arity, other, _) => {
            same_name(heap, name, other) && arity == other_arity
        }
        Word::Variable(_) => false,
        Word::Integer(_) => false,
        Word::Atom(_) => false,
    }
}

fn same_name(heap: &Heap, a: u32, b: u32) -> bool
    requires a { a < length heap.now.names }
    requires b { b < length heap.now.names }
    ensures { result ≡ bytes_eq (get_or heap.now.names a []) (get_or heap.now.names b []) }
{
    if a == b {
        return true;
    }
    heap.name_at(a) == heap.name_at(b)
}
