ghost use Rattle.std.specs.Prelude.{◌≡◌, ◌<◌, ◌≤◌, ◌^◌, length, take, drop};
ghost use Rattle.cp_term.specs.Preorder.{take_terms, drop_terms};

use cp_term::Cell;

/// The first of the terms that cells are, and the cells behind it.
pub(crate) fn split_term(cells: &[Cell]) -> (&[Cell], &[Cell])
    requires { length cells.now < 2 ^ 32 }
    ensures first { result.0.now ≡ take_terms 1 cells.now }
    ensures rest { result.1.now ≡ drop_terms 1 cells.now }
    ensures within { (length result.0.now ≤ length cells.now) × (length result.1.now ≤ length cells.now) }
{
    cells.split_at(term_len(cells))
}

/// How many cells the first of the terms has that cells are.
fn term_len(cells: &[Cell]) -> usize
    requires { length cells.now < 2 ^ 32 }
    ensures within { result ≤ length cells.now }
    ensures first { take result cells.now ≡ take_terms 1 cells.now }
    ensures rest { drop result cells.now ≡ drop_terms 1 cells.now }
{
    let mut at: usize = 0;
    let mut left: u64 = 1;
    'cells: while left > 0 && at < cells.len() {
        left = left - 1 + u64::from(cells[at].arity());
        at += 1;
    }
    at
}
