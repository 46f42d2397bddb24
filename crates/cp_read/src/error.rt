/// Why a clause is refused.
#[derive(Debug, Clone, Copy, PartialEq, Eq, Drop)]
pub enum SyntaxWhy {
    /// The text ends inside the clause.
    NoFullStop,
    /// An infix operator stands where its priority, or that of the term before it, is not admitted.
    Priority,
    /// A token that cannot come next.
    UnexpectedToken,
    /// The clause has more cells, a longer name or more arguments than the reader takes.
    TooLarge,
}

/// Why there is no clause, with the line of the place counted from 1, or want of memory.
#[derive(Debug, Clone, Copy, PartialEq, Eq, Drop)]
pub enum ReadError {
    Syntax { line: u32, why: SyntaxWhy },
    NoMemory,
}
