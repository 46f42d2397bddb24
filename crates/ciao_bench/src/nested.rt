ghost use Rattle.std.specs.Prelude.{◌≤◌, IfOk};

use cp_lex::scan_text;
use cp_ops::OpTable;
use cp_read::{Bounds, ReadError, Reader};
use std::alloc::{AllocError, Global};

/// The bounds of a clause of a program.
const BOUNDS: Bounds = Bounds {
    cells: 4096,
    name: 1024,
};

/// A text: its front, what is repeated behind it, what follows, and what is repeated at its end.
struct DeepText {
    front: &'static [u8],
    opens: &'static [u8],
    inner: &'static [u8],
    closes: &'static [u8],
}

const PARENTHESES: DeepText = DeepText {
    front: b"",
    opens: b"(",
    inner: b"a",
    closes: b")",
};

const PREFIXES: DeepText = DeepText {
    front: b"",
    opens: b"\\+ ",
    inner: b"a",
    closes: b"",
};

const LIST: DeepText = DeepText {
    front: b"[",
    opens: b"a,",
    inner: b"a]",
    closes: b"",
};

/// Reads an atom in so many parentheses, an atom behind so many prefix operators and a list of one element more, under the
/// standard operators, and counts those that are not refused: from 4,096 on the first alone. A text of 4 GiB or more is
/// answered as want of memory.
pub(crate) fn nested(alloc: Global, count: u32) -> Result<u64, AllocError>
    ensures { IfOk result (λ clauses. clauses ≤ 3) }
{
    let parentheses = is_read(alloc, &PARENTHESES, count)?;
    let prefixes = is_read(alloc, &PREFIXES, count)?;
    let list = is_read(alloc, &LIST, count)?;
    Ok(parentheses as u64 + prefixes as u64 + list as u64)
}

/// Whether the text is read as a clause.
fn is_read(alloc: Global, deep: &DeepText, count: u32) -> Result<bool, AllocError> {
    let text = text_of(alloc, deep, count)?;
    if text.len() >= u32::MAX as usize {
        return Err(AllocError);
    }
    let ops = OpTable::standard(alloc)?;
    let scan = scan_text(alloc, text.as_slice())?;
    let mut reader = Reader::new(alloc, scan.tokens, BOUNDS);
    match reader.next_clause(&ops) {
        Ok(clause) => Ok(clause.is_some()),
        Err(ReadError::Syntax { .. }) => Ok(false),
        Err(ReadError::NoMemory) => Err(AllocError),
    }
}

fn text_of(alloc: Global, deep: &DeepText, count: u32) -> Result<Vec<u8>, AllocError> {
    let mut text = Vec::new(alloc);
    text.extend_from_slice(deep.front)?;
    repeat(&mut text, deep.opens, count)?;
    text.extend_from_slice(deep.inner)?;
    repeat(&mut text, deep.closes, count)?;
    text.extend_from_slice(b" .")?;
    Ok(text)
}

fn repeat(text: &mut Vec<u8>, piece: &[u8], count: u32) -> Result<(), AllocError> {
    for _ in 0..count {
        text.extend_from_slice(piece)?;
    }
    Ok(())
}
