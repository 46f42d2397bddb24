ghost use Rattle.std.specs.Prelude.{◌≡◌, ℕ, ◌+◌, ◌<◌, ◌≤◌, ◌^◌, true, List, length, is_some, IfSome};
ghost use Rattle.cp_term.specs.Preorder.{is_terms};
ghost use Rattle.cp_code.specs.Bodies.{body_of};
ghost use Rattle.cp_module.specs.Goals.{joins, behind_functor, behind_first, after_name, after_first, after_cell};

use crate::to_come::{Behind, ToCome};
use cp_term::Cell;

/// Whether a term may stand for a goal: no term that is none stands in it where a goal has to. The arguments of `call`
/// and its kin are not looked into.
pub(crate) fn is_goal(cells: &[Cell]) -> bool
    requires len { length cells.now < 2 ^ 32 }
    requires term { is_terms 1 cells.now ≡ true }
    ensures { (m : List ℕ) → result ≡ is_some (body_of m cells.now) }
{
    let mut to_come = ToCome {
        named: false,
        terms: 0,
        goals: 1,
    };
    for cell in cells {
        match to_come.after(cell) {
            Some(next) => to_come = next,
            None => return false,
        }
    }
    true
}

impl ToCome {
    /// What is to come behind a cell, unless it is none that may stand there.
    fn after(self, cell: &Cell) -> Option<ToCome>
        requires terms { self.terms < 2 ^ 60 }
        requires goals { self.goals < 2 ^ 60 }
        ensures value { result ≡ after_cell self cell.now }
        ensures terms { IfSome result (λ next. next.terms ≤ self.terms + 65535) }
        ensures goals { IfSome result (λ next. next.goals ≤ self.goals + 65535) }
    {
        if self.named {
            return after_name(self.terms, self.goals, cell);
        }
        if self.terms > 0 {
            return Some(ToCome {
                named: false,
                terms: self.terms - 1 + u64::from(cell.arity()),
                goals: self.goals,
            });
        }
        if self.goals > 0 {
            return after_first(self.goals - 1, behind_first(cell));
        }
        None
    }
}

/// Behind a cell that has to be the name of a module.
fn after_name(terms: u64, goals: u64, cell: &Cell) -> Option<ToCome>
    ensures { result ≡ after_name terms goals cell.now }
{
    match cell {
        Cell::Atom(_) => Some(ToCome {
            named: false,
            terms,
            goals,
        }),
        Cell::Var(_) => None,
        Cell::Int(_) => None,
        Cell::Func(_, _) => None,
    }
}

/// Behind the first cell of a goal, with so many goals to come behind the goal.
fn after_first(goals: u64, behind: Behind) -> Option<ToCome>
    requires { goals < 2 ^ 60 }
    ensures value { result ≡ after_first goals behind }
    ensures terms { IfSome result (λ next. next.terms ≤ 65535) }
    ensures goals { IfSome result (λ next. next.goals ≤ goals + 65535) }
{
    match behind {
        Behind::NoGoal => None,
        Behind::Goals(more) => Some(ToCome {
            named: false,
            terms: 0,
            goals: u64::from(more) + goals,
        }),
        Behind::Qualified => Some(ToCome {
            named: true,
            terms: 0,
            goals: goals + 1,
        }),
        Behind::Terms(terms) => Some(ToCome {
            named: false,
            terms: u64::from(terms),
            goals,
        }),
    }
}

/// What has to stand behind the first cell of a goal.
fn behind_first(cell: &Cell) -> Behind
    ensures { result ≡ behind_first cell.now }
{
    match cell {
        Cell::Var(_) => Behind::Goals(0),
        Cell::Int(_) => Behind::NoGoal,
        Cell::Atom(_) => Behind::Goals(0),
        Cell::Func(name, arity) => behind_functor(name.bytes(), *arity),
    }
}

fn behind_functor(name: &[u8], arity: u16) -> Behind
    ensures { result ≡ behind_functor name.now arity }
{
    match arity {
        1 => {
            if name == b"\\+".as_slice() {
                Behind::Goals(1)
            } else {
                Behind::Terms(1)
            }
        }
        2 => {
            if joins(name) {
                Behind::Goals(2)
            } else if name == b":".as_slice() {
                Behind::Qualified
            } else {
                Behind::Terms(2)
            }
        }
        _ => Behind::Terms(arity),
    }
}

/// Whether two goals are joined by it.
fn joins(name: &[u8]) -> bool
    ensures { result ≡ joins name.now }
{
    name == b",".as_slice() || name == b";".as_slice() || name == b"->".as_slice()
}
