ghost use Rattle.std.specs.Prelude.{◌≡◌, None, Some, MatchOption};
ghost use Rattle.cp_assertion.specs.Assertions.{head_in, are_variables_from};

use cp_term::{Cell, Name};

/// The head of an assertion: the name and arity of a predicate.
#[derive(Clone, Copy, Drop)]
pub(crate) struct Head<'a> {
    pub name: &'a Name,
    pub arity: u16,
}

impl<'a> Head<'a> {
    /// An atom, or a compound whose arguments are the variables 0, 1, ...
    pub(crate) fn of(cells: &'a [Cell]) -> Option<Head<'a>>
        ensures { MatchOption result (head_in cells.now ≡ None) (λ h. head_in cells.now ≡ Some (record { name = h.name.now; arity = h.arity })) }
    {
        match cells {
            [Cell::Atom(name)] => Some(Head { name, arity: 0 }),
            [Cell::Func(name, arity), arguments @ ..] => {
                if are_variables(arguments) {
                    Some(Head {
                        name,
                        arity: *arity,
                    })
                } else {
                    None
                }
            }
            _ => None,
        }
    }
}

/// Whether the cells are the variables 0, 1, ..
fn are_variables(cells: &[Cell]) -> bool
    ensures { result ≡ are_variables_from 0 cells.now }
{
    for (at, cell) in cells.iter().enumerate() {
        let Cell::Var(variable) = cell else {
            return false;
        };
        if *variable as usize != at {
            return false;
        }
    }
    true
}
