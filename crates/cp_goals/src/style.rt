ghost use Rattle.std.specs.Prelude.{◌≡◌, IfOk};
ghost use Rattle.cp_ops.specs.Text.{text_of};
ghost use Rattle.cp_goals.specs.Kinds.{style_shown};

use cp_io::Bytes;
use cp_ops::OpTable;
use cp_term::Term;
use cp_write::{write_text, writeq_text};
use std::alloc::{AllocError, Global};

/// How a term is written (ISO/IEC 13211-1, 8.14.2): without quotes, as `write` does, or with quotes round each name that
/// needs them, as `writeq` does.
#[derive(Debug, Clone, Copy, PartialEq, Eq, Drop)]
pub enum Style {
    Bare,
    Quoting,
}

impl Style {
    /// The text of a term under these operators.
    pub(crate) fn text(self, alloc: Global, term: &Term, ops: &OpTable) -> Result<Bytes, AllocError>
        ensures { IfOk result (λ text. text ≡ text_of (style_shown self) ops.now term.now) }
    {
        match self {
            Style::Bare => write_text(alloc, term, ops),
            Style::Quoting => writeq_text(alloc, term, ops),
        }
    }
}
