ghost use Rattle.std.specs.Prelude.{◌≡◌, ◌<◌, ◌^◌, length, map, IfOk};
ghost use Rattle.cp_term.specs.Preorder.{split_terms};
ghost use Rattle.cp_declaration.specs.Declarations.{is_goal_mark};

use crate::cells::split_term;
use cp_list::ListOf;
use cp_term::Cell;
use std::alloc::{AllocError, Global};

/// Which arguments of a predicate are goal arguments, one mark for each argument from the first.
pub type Marks = ListOf<bool>;

/// Which of so many terms mark a goal argument.
pub(crate) fn marks_of(alloc: Global, count: u16, cells: &[Cell]) -> Result<Marks, AllocError>
    requires { length cells.now < 2 ^ 32 }
    ensures { IfOk result (λ marks. marks ≡ map is_goal_mark (split_terms count cells.now)) }
{
    let mut marks = Marks::new(alloc);
    let mut rest = cells;
    let mut left = count;
    'terms: while left > 0 {
        let (mark, behind) = split_term(rest);
        marks.push(is_goal_mark(mark))?;
        rest = behind;
        left -= 1;
    }
    Ok(marks)
}

/// Whether a term marks a goal argument.
fn is_goal_mark(cells: &[Cell]) -> bool
    ensures { result ≡ is_goal_mark cells.now }
{
    match cells {
        [Cell::Atom(name)] => {
            name.bytes() == b"goal".as_slice() || name.bytes() == b"fact".as_slice()
        }
        [Cell::Func(name, 1), Cell::Int(number)] => {
            0 <= *number && name.bytes() == b"pred".as_slice()
        }
        _ => false,
    }
}
