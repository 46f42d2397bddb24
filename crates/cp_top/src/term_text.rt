ghost use Rattle.std.specs.Prelude.{◌≡◌, true, IfOk};
ghost use Rattle.cp_term.specs.Preorder.{is_terms};
ghost use Rattle.cp_term.specs.Numbering.{is_numbered_from};
ghost use Rattle.cp_ops.specs.Standard.{standard};
ghost use Rattle.cp_ops.specs.Text.{text_of, quoting};

use cp_io::Bytes;
use cp_ops::OpTable;
use cp_term::{Cells, Term};
use cp_write::writeq_text;
use std::alloc::{AllocError, Global};

/// The text of a term under the standard operators.
pub(crate) fn standard_text(alloc: Global, term: &Term) -> Result<Bytes, AllocError>
    ensures { IfOk result (λ text. text ≡ text_of quoting standard term.now) }
{
    let operators = OpTable::standard(alloc)?;
    writeq_text(alloc, term, &operators)
}
