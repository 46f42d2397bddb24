use crate::error::SyntaxWhy;

/// A construct that is open, of which a term inside is being read.
#[derive(Clone, Copy, Drop)]
pub(crate) enum Construct<'a> {
    /// The last operand of an operator of this priority.
    Operand { priority: u16 },
    Parentheses,
    Braces,
    /// The arguments of a compound with this name, with so many before this one.
    Arguments { name: &'a [u8], before: usize },
    Elements,
    Tail,
}

/// A construct, the place of its first cell, and the priority that is allowed to the term that it is or begins.
#[derive(Clone, Copy, Drop)]
pub(crate) struct Frame<'a> {
    pub(crate) construct: Construct<'a>,
    pub(crate) start: usize,
    pub(crate) max: u16,
}

/// What comes next.
#[derive(Clone, Copy, Drop)]
pub(crate) enum Turn {
    /// A term of at most this priority.
    Expects {
        max: u16,
    },
    /// A term has come, whose first cell stands at a place. It may be an operand, where this priority is allowed.
    Has {
        start: usize,
        priority: u16,
        max: u16,
    },
    /// The clause has come.
    Ended,
}

/// Why reading stops: a fault at the first of the tokens that are left, or want of memory.
#[derive(Clone, Copy, Drop)]
pub(crate) enum Stop {
    Fault(SyntaxWhy),
    NoMemory,
}
