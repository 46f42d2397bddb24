use cp_lex::scan_text;
use std::alloc::{AllocError, Global};

/// A line of source of 64 bytes.
const LINE: &[u8] = b"append([Head|T], L0, 'R'(\"a\", 0x1f)) :- X is T-1, !. % a clause\n";

/// Cuts a text of so many lines into tokens once, and counts the tokens: 26 a line. A text of 4 GiB or more is answered as
/// want of memory.
pub(crate) fn tokens(alloc: Global, count: u32) -> Result<u64, AllocError> {
    let text = lines(alloc, count)?;
    if text.len() >= u32::MAX as usize {
        return Err(AllocError);
    }
    let scan = scan_text(alloc, text.as_slice())?;
    Ok(scan.tokens.len() as u64)
}

/// A text of so many lines.
pub(crate) fn lines(alloc: Global, count: u32) -> Result<Vec<u8>, AllocError> {
    let mut text = Vec::new(alloc);
    for _ in 0..count {
        text.extend_from_slice(LINE)?;
    }
    Ok(text)
}
