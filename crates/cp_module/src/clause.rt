ghost use Rattle.std.specs.Prelude.{◌≡◌, ◌+◌, ◌*◌, ◌^◌, ◌<◌, ◌≤◌, true, None, Some, length, drop, MatchOption, IfSome};
ghost use Rattle.cp_term.specs.Preorder.{is_terms, drop_terms};
ghost use Rattle.cp_code.specs.Clauses.{is_neck, head_of, body_term};
ghost use Rattle.cp_module.specs.Causes.{headed, is_true};

use cp_term::{Cell, Name};

/// The predicate of a clause: its name and its number of arguments.
#[derive(Clone, Copy, Drop)]
pub(crate) struct Pred<'a> {
    pub(crate) name: &'a Name,
    pub(crate) arity: u16,
}

/// The predicate that a clause is of, if its head is an atom or a compound.
pub(crate) fn pred_of_head(cells: &[Cell]) -> Option<Pred<'_>>
    ensures { MatchOption result (headed (head_of cells.now) ≡ None) (λ p. headed (head_of cells.now) ≡ Some (record { name = p.name.now; arity = p.arity })) }
{
    match cells {
        [first, behind @ ..] => {
            if is_neck(first) {
                headed(behind)
            } else {
                headed(cells)
            }
        }
        [] => None,
    }
}

fn headed(cells: &[Cell]) -> Option<Pred<'_>>
    ensures { MatchOption result (headed cells.now ≡ None) (λ p. headed cells.now ≡ Some (record { name = p.name.now; arity = p.arity })) }
{
    match cells {
        [Cell::Atom(name), ..] => Some(Pred { name, arity: 0 }),
        [Cell::Func(name, arity), ..] => Some(Pred {
            name,
            arity: *arity,
        }),
        _ => None,
    }
}

/// The body of a rule. A fact has none.
pub(crate) fn body_term(cells: &[Cell]) -> Option<&[Cell]>
    requires len { length cells.now < 2 ^ 32 }
    requires term { is_terms 1 cells.now ≡ true }
    ensures value { MatchOption result (body_term cells.now ≡ None) (λ body. body_term cells.now ≡ Some body.now) }
    ensures term { IfSome result (λ body. is_terms 1 body.now ≡ true) }
    ensures len { IfSome result (λ body. length body.now < 2 ^ 32) }
{
    match cells {
        [first, behind @ ..] => {
            if is_neck(first) {
                Some(behind_term(behind))
            } else {
                None
            }
        }
        [] => None,
    }
}

/// `:-` with two arguments.
fn is_neck(cell: &Cell) -> bool
    ensures { result ≡ is_neck cell.now }
{
    match cell {
        Cell::Func(name, arity) => name.bytes() == b":-".as_slice() && *arity == 2,
        Cell::Var(_) => false,
        Cell::Int(_) => false,
        Cell::Atom(_) => false,
    }
}

/// The cells behind the first of the terms that cells are.
fn behind_term(cells: &[Cell]) -> &[Cell]
    requires { length cells.now < 2 ^ 32 }
    ensures value { result.now ≡ drop_terms 1 cells.now }
    ensures len { length result.now ≤ length cells.now }
{
    let mut rest = cells;
    let mut left: u64 = 1;
    'cells: while left > 0 {
        match rest {
            [cell, behind @ ..] => {
                left = left - 1 + u64::from(cell.arity());
                rest = behind;
            }
            [] => break 'cells,
        }
    }
    rest
}

/// Whether a term is the atom `true`.
pub(crate) fn is_true(cells: &[Cell]) -> bool
    ensures { result ≡ is_true cells.now }
{
    match cells {
        [Cell::Atom(name)] => name.bytes() == b"true".as_slice(),
        _ => false,
    }
}
