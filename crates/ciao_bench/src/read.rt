ghost use Rattle.std.specs.Prelude.{◌≤◌, IfOk};

use crate::tokens::lines;
use cp_lex::scan_text;
use cp_ops::OpTable;
use cp_read::{Bounds, ReadError, Reader};
use std::alloc::{AllocError, Global};

/// The bounds of a clause of a program.
const BOUNDS: Bounds = Bounds {
    cells: 4096,
    name: 1024,
};

/// Reads a text of so many clauses once, under the standard operators, and counts the clauses. A text of 4 GiB or more is
/// answered as want of memory.
pub(crate) fn read(alloc: Global, count: u32) -> Result<u64, AllocError>
    ensures { IfOk result (λ clauses. clauses ≤ count) }
{
    let text = lines(alloc, count)?;
    if text.len() >= u32::MAX as usize {
        return Err(AllocError);
    }
    let ops = OpTable::standard(alloc)?;
    let scan = scan_text(alloc, text.as_slice())?;
    let mut reader = Reader::new(alloc, scan.tokens, BOUNDS);
    for clauses in 0..count {
        match reader.next_clause(&ops) {
            Ok(Some(_)) => {}
            Ok(None) | Err(ReadError::Syntax { .. }) => return Ok(clauses as u64),
            Err(ReadError::NoMemory) => return Err(AllocError),
        }
    }
    Ok(count as u64)
}
