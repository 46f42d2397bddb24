ghost use Rattle.std.specs.Prelude.{◌≡◌, IfOk};
ghost use Rattle.cp_top.specs.Lines.{file_line, refused_line};

use crate::reason::why_text;
use cp_module::Refusal;
use itoa::Buffer;
use std::alloc::{AllocError, Global};

/// `{FILE: NAME: WHY}` and a newline.
pub(crate) fn file_line(alloc: Global, name: &[u8], why: &[u8]) -> Result<Vec<u8>, AllocError>
    ensures { IfOk result (λ line. line.items ≡ file_line name.now why.now) }
{
    let mut line = Vec::from_slice(alloc, b"{FILE: ")?;
    line.extend_from_slice(name)?;
    line.extend_from_slice(b": ")?;
    line.extend_from_slice(why)?;
    line.extend_from_slice(b"}\n")?;
    Ok(line)
}

/// `{REFUSED: FILE:LINE: WHY}` and a newline.
pub(crate) fn refused_line(alloc: Global, refusal: &Refusal) -> Result<Vec<u8>, AllocError>
    ensures { IfOk result (λ line. line.items ≡ refused_line refusal.now) }
{
    let mut digits = Buffer::new();
    let mut line = Vec::from_slice(alloc, b"{REFUSED: ")?;
    line.extend_from_slice(refusal.file.as_slice())?;
    line.extend_from_slice(b":")?;
    line.extend_from_slice(digits.format(refusal.line).as_bytes())?;
    line.extend_from_slice(b": ")?;
    line.extend_from_slice(why_text(refusal.why))?;
    line.extend_from_slice(b"}\n")?;
    Ok(line)
}
