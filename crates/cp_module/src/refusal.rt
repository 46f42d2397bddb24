use crate::why::Why;
use cp_io::Bytes;

/// A refusal of a program: the file, the line, counted from 1, and the cause.
#[derive(Debug, Drop)]
pub struct Refusal {
    pub file: Bytes,
    pub line: u32,
    pub why: Why,
}
