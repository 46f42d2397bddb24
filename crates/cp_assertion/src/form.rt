ghost use Rattle.std.specs.Prelude.{◌≡◌, ◌<◌, ◌≤◌, ◌^◌, length, None, Some, MatchOption};
ghost use Rattle.cp_assertion.specs.Assertions.{is_infix, before_infix, behind_infix};

use crate::cells::split_term;
use cp_term::Cell;

/// A term without the infix operator `op` and what follows it.
pub(crate) fn before_infix<'a>(cells: &'a [Cell], op: &[u8]) -> &'a [Cell]
    requires { length cells.now < 2 ^ 32 }
    ensures value { result.now ≡ before_infix op.now cells.now }
    ensures within { length result.now ≤ length cells.now }
{
    match cells {
        [first, rest @ ..] => {
            if is_infix(first, op) {
                let (left, _) = split_term(rest);
                left
            } else {
                cells
            }
        }
        [] => cells,
    }
}

/// What follows the infix operator `op`, if the term has it.
pub(crate) fn behind_infix<'a>(cells: &'a [Cell], op: &[u8]) -> Option<&'a [Cell]>
    requires { length cells.now < 2 ^ 32 }
    ensures value { MatchOption result (behind_infix op.now cells.now ≡ None) (λ r. behind_infix op.now cells.now ≡ Some r.now) }
    ensures within { MatchOption result (Unit {0}) (λ r. length r.now ≤ length cells.now) }
{
    match cells {
        [first, rest @ ..] => {
            if is_infix(first, op) {
                let (_, right) = split_term(rest);
                Some(right)
            } else {
                None
            }
        }
        [] => None,
    }
}

fn is_infix(cell: &Cell, op: &[u8]) -> bool
    ensures { result ≡ is_infix op.now cell.now }
{
    match cell {
        Cell::Func(name, arity) => name.bytes() == op && *arity == 2,
        Cell::Var(_) => false,
        Cell::Int(_) => false,
        Cell::Atom(_) => false,
    }
}
