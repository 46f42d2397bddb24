ghost use Rattle.std.specs.Prelude.{◌≡◌, ◌≤◌};
ghost use Rattle.cp_call.specs.Lane.{cell_wire_size, wire_size_of};

use cp_term::{Cell, Term};

/// How many bytes the term takes in a frame: 2 for the number of its cells, then 3 for a variable, 9 for an integer,
/// 3 and its text for an atom, 4 and its text for a functor. It takes no memory.
pub fn wire_size(term: &Term) -> u64
    ensures { result ≡ wire_size_of term.now }
{
    let mut size: u64 = 2;
    for cell in term.cells() {
        size += cell_size(cell);
    }
    size
}

fn cell_size(cell: &Cell) -> u64
    ensures value { result ≡ cell_wire_size cell.now }
    ensures within { result ≤ 1028 }
{
    match cell {
        Cell::Var(_) => 3,
        Cell::Int(_) => 9,
        Cell::Atom(name) => 3 + name.bytes().len() as u64,
        Cell::Func(name, _) => 4 + name.bytes().len() as u64,
    }
}
