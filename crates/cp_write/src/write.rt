ghost use Rattle.std.specs.Prelude.{◌≡◌, IfOk};
ghost use Rattle.cp_ops.specs.Text.{text_of, bare, quoting};
ghost use Rattle.cp_write.specs.Writing.{style_of};

use crate::style::Style;
use crate::writer::Writer;
use cp_io::Bytes;
use cp_ops::OpTable;
use cp_term::Term;
use std::alloc::{AllocError, Global};

/// The text of a term, with each name as it is.
pub fn write_text(alloc: Global, term: &Term, ops: &OpTable) -> Result<Bytes, AllocError>
    ensures { IfOk result (λ text. text ≡ text_of bare ops.now term.now) }
{
    text_of(alloc, Style::Bare, term, ops)
}

/// The text of a term, with quotes round each name that needs them, so that it reads back as the term.
pub fn writeq_text(alloc: Global, term: &Term, ops: &OpTable) -> Result<Bytes, AllocError>
    ensures { IfOk result (λ text. text ≡ text_of quoting ops.now term.now) }
{
    text_of(alloc, Style::Quoting, term, ops)
}

fn text_of(alloc: Global, style: Style, term: &Term, ops: &OpTable) -> Result<Bytes, AllocError>
    ensures { IfOk result (λ text. text ≡ text_of (style_of style) ops.now term.now) }
{
    let mut writer = Writer::new(alloc);
    let cells = term.cells();
    for cell in cells {
        writer.write(style, ops, cell)?;
    }
    let text = listed(writer.out)?;
    Ok(text)
}

/// The list of these bytes, unless they are too many for one.
fn listed(items: Vec<u8>) -> Result<Bytes, AllocError>
    ensures { IfOk result (λ list. list ≡ items.items) }
{
    if items.len() > u32::MAX as usize {
        return Err(AllocError);
    }
    Ok(Bytes::from_vec(items))
}
