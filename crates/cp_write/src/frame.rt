use cp_ops::Fix;
use cp_term::Name;

/// What is to be written behind the term that is being written.
#[derive(Drop)]
pub(crate) enum Frame<'a> {
    /// A closing bracket.
    Close(u8),
    /// The infix operator behind its left operand, and the right operand.
    Operator(&'a Name, u16, Fix),
    /// So many more arguments, each behind a comma, and the closing parenthesis.
    Arguments(u16),
    /// The tail of the list behind an element.
    Tail,
}
