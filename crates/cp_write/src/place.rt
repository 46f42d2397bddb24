ghost use Rattle.std.specs.Prelude.{◌≡◌};
ghost use Rattle.cp_write.specs.Writing.{is_parenthesized, is_parenthesized_operand, would_take};

use crate::shape::Shape;
use cp_ops::Fix;

/// Where the next term stands, which says whether it is put in parentheses.
#[derive(Clone, Copy, Drop)]
pub(crate) enum Place {
    /// No term is to come.
    Nothing,
    /// The whole text.
    Whole,
    /// Where at most this priority is allowed: an argument, an element or what stands in braces.
    Within(u16),
    /// An operand for which at most this priority is allowed.
    Operand(u16),
    /// The left operand of an infix operator of this priority and kind.
    Left(u16, Fix),
    /// The tail of a list, behind an element.
    Tail,
}

impl Place {
    /// Whether a term of this shape is put in parentheses here.
    pub(crate) fn is_parenthesized(self, shape: Shape) -> bool
        ensures { result ≡ is_parenthesized self shape }
    {
        match self {
            Place::Nothing | Place::Whole | Place::Tail => false,
            Place::Within(max) => max < shape.priority(),
            Place::Operand(max) => is_parenthesized_operand(shape, max),
            Place::Left(priority, fix) => {
                would_take(shape, priority)
                    || is_parenthesized_operand(shape, fix.left_of(priority))
            }
        }
    }
}

fn is_parenthesized_operand(shape: Shape, max: u16) -> bool
    ensures { result ≡ is_parenthesized_operand shape max }
{
    match shape {
        Shape::OperatorAtom => true,
        Shape::Leaf
        | Shape::NoElements
        | Shape::Element
        | Shape::Braces
        | Shape::Canonical(_)
        | Shape::Prefix(_, _)
        | Shape::Infix(_, _) => max < shape.priority(),
    }
}

/// Whether a left operand would take an infix operator of this priority behind it into its own last operand.
fn would_take(shape: Shape, priority: u16) -> bool
    ensures { result ≡ would_take shape priority }
{
    match shape {
        Shape::Prefix(own, fix) | Shape::Infix(own, fix) => fix.ends_in_operand()
            && own == priority,
        Shape::Leaf
        | Shape::OperatorAtom
        | Shape::NoElements
        | Shape::Element
        | Shape::Braces
        | Shape::Canonical(_) => false,
    }
}
