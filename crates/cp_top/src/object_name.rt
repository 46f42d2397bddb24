ghost use Rattle.std.specs.Prelude.{◌≡◌, ◌≤◌, length, IfOk};
ghost use Rattle.std.specs.Str.{IsUtf8};
ghost use Rattle.cp_code.specs.Requests.{full_name};
ghost use Rattle.cp_top.specs.Ending.{name_text};

use crate::term_text::standard_text;
use cp_call::ObjectName;
use cp_io::{Bytes, bytes_of};
use cp_term::{Cell, Cells, Name, PredName, Term};
use std::alloc::{AllocError, Global};

/// The term `M:N/A` of a predicate.
fn indicator(alloc: Global, pred: &PredName) -> Result<Term, AllocError>
    ensures { IfOk result (λ term. term ≡ full_name pred.now) }
{
    let mut cells = Cells::new(alloc);
    cells.push(Cell::Func(Name::known(alloc, b":")?, 2))?;
    cells.push(Cell::Atom(pred.module.clone()?))?;
    cells.push(Cell::Func(Name::known(alloc, b"/")?, 2))?;
    cells.push(Cell::Atom(pred.name.clone()?))?;
    cells.push(Cell::Int(pred.arity as i64))?;
    Ok(Term::known(cells))
}

/// The text of an object's name: a predicate is written as the term `m:q/1`.
pub(crate) fn name_text(alloc: Global, name: &ObjectName) -> Result<Bytes, AllocError>
    ensures { IfOk result (λ text. text ≡ name_text name.now) }
{
    match name {
        ObjectName::Goals => bytes_of(alloc, b"$goals"),
        ObjectName::Ended => bytes_of(alloc, b"$ended"),
        ObjectName::Pred(pred) => {
            let term = indicator(alloc, pred)?;
            standard_text(alloc, &term)
        }
    }
}
