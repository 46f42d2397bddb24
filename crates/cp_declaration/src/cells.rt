ghost use Rattle.std.specs.Prelude.{◌≡◌, ◌+◌, ◌^◌, ◌<◌, ◌≤◌, [], ◌∷◌, length, take, drop, MatchOption};
ghost use Rattle.cp_term.specs.Preorder.{take_terms, drop_terms};
ghost use Rattle.cp_declaration.specs.Lists.{is_comma, is_dot, is_empty_list};

use cp_term::Cell;

/// Three cells, and those behind them.
#[derive(Clone, Copy, Drop)]
pub(crate) struct Three<'a> {
    pub(crate) first: &'a Cell,
    pub(crate) second: &'a Cell,
    pub(crate) third: &'a Cell,
    pub(crate) behind: &'a [Cell],
}

/// The first three cells, where there are so many.
pub(crate) fn first_three(cells: &[Cell]) -> Option<Three<'_>>
    ensures { MatchOption result (length cells.now < 3) (λ three. cells.now ≡ three.first.now ∷ three.second.now ∷ three.third.now ∷ three.behind.now) }
{
    match cells {
        [first, second, third, behind @ ..] => Some(Three {
            first,
            second,
            third,
            behind,
        }),
        _ => None,
    }
}

/// Whether it is the list of no elements.
pub(crate) fn is_empty_list(cells: &[Cell]) -> bool
    ensures { result ≡ is_empty_list cells.now }
{
    match cells {
        [Cell::Atom(name)] => name.bytes() == b"[]".as_slice(),
        _ => false,
    }
}

/// Whether it is the functor of a list.
pub(crate) fn is_dot(cell: &Cell) -> bool
    ensures { result ≡ is_dot cell.now }
{
    match cell {
        Cell::Func(name, arity) => name.bytes() == b".".as_slice() && *arity == 2,
        Cell::Var(_) => false,
        Cell::Int(_) => false,
        Cell::Atom(_) => false,
    }
}

/// Whether it is the functor of two terms that are joined by a comma.
pub(crate) fn is_comma(cell: &Cell) -> bool
    ensures { result ≡ is_comma cell.now }
{
    match cell {
        Cell::Func(name, arity) => name.bytes() == b",".as_slice() && *arity == 2,
        Cell::Var(_) => false,
        Cell::Int(_) => false,
        Cell::Atom(_) => false,
    }
}

/// The first of the terms that cells are, and the cells behind it.
pub(crate) fn split_term(cells: &[Cell]) -> (&[Cell], &[Cell])
    requires { length cells.now < 2 ^ 32 }
    ensures first { result.0.now ≡ take_terms 1 cells.now }
    ensures rest { result.1.now ≡ drop_terms 1 cells.now }
    ensures len { length result.1.now ≤ length cells.now }
{
    cells.split_at(term_len(cells))
}

/// How many cells the first of the terms has that cells are.
fn term_len(cells: &[Cell]) -> usize
    requires { length cells.now < 2 ^ 32 }
    ensures within { result ≤ length cells.now }
    ensures first { take result cells.now ≡ take_terms 1 cells.now }
    ensures rest { drop result cells.now ≡ drop_terms 1 cells.now }
{
    let mut at: usize = 0;
    let mut left: u64 = 1;
    'cells: while left > 0 && at < cells.len() {
        left = left - 1 + u64::from(cells[at].arity());
        at += 1;
    }
    at
}
