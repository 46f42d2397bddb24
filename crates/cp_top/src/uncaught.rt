ghost use Rattle.std.specs.Prelude.{◌≡◌, true, IfOk};
ghost use Rattle.cp_term.specs.Preorder.{is_terms};
ghost use Rattle.cp_term.specs.Numbering.{is_numbered_from};
ghost use Rattle.cp_top.specs.Ending.{uncaught, shown};

use crate::run_end::RunEnd;
use crate::term_text::standard_text;
use cp_term::{Cell, Cells, Term};
use std::alloc::{AllocError, Global};

fn copied(alloc: Global, cells: &[Cell]) -> Result<Cells, AllocError>
    ensures { IfOk result (λ copy. copy ≡ cells.now) }
{
    let mut copy = Cells::new(alloc);
    for cell in cells {
        copy.push(cell.clone()?)?;
    }
    Ok(copy)
}

/// The ending of a goal that no catch has saved from this ball.
pub(crate) fn end_uncaught(alloc: Global, ball: &[Cell]) -> Result<RunEnd, AllocError>
    requires term { is_terms 1 ball.now ≡ true }
    requires numbered { is_numbered_from 0 ball.now ≡ true }
    ensures { IfOk result (λ e. shown e ≡ uncaught ball.now) }
{
    let cells = copied(alloc, ball)?;
    let ball = Term::known(cells);
    let text = standard_text(alloc, &ball)?;
    let mut line = Vec::from_slice(alloc, b"{UNCAUGHT: ")?;
    line.extend_from_slice(text.as_slice())?;
    line.extend_from_slice(b"}\n")?;
    Ok(RunEnd { status: 2, line })
}
