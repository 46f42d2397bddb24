ghost use Rattle.std.specs.Prelude.{◌≡◌};
ghost use Rattle.cp_write.specs.Writing.{atom_shape, functor_shape, shape_of, priority_in, is_element, is_no_elements};

use cp_ops::{Fix, OpTable};
use cp_term::Cell;

/// How the term is written that a cell begins.
#[derive(Clone, Copy, Drop)]
pub(crate) enum Shape {
    /// A variable, an integer or an atom that is none of the next two.
    Leaf,
    /// An atom that is an operator.
    OperatorAtom,
    /// The atom `[]`.
    NoElements,
    /// A list of one element and a tail.
    Element,
    /// A term in braces.
    Braces,
    /// A prefix operator of this priority and kind with its operand.
    Prefix(u16, Fix),
    /// An infix operator of this priority and kind with its operands.
    Infix(u16, Fix),
    /// A name before so many arguments in parentheses.
    Canonical(u16),
}

impl Shape {
    pub(crate) fn of(ops: &OpTable, cell: &Cell) -> Shape
        ensures { result ≡ shape_of ops.now cell.now }
    {
        match cell {
            Cell::Var(_) | Cell::Int(_) => Shape::Leaf,
            Cell::Atom(name) => Shape::of_atom(ops, name.bytes()),
            Cell::Func(name, arity) => Shape::of_functor(ops, name.bytes(), *arity),
        }
    }

    fn of_atom(ops: &OpTable, name: &[u8]) -> Shape
        ensures { result ≡ atom_shape ops.now name.now }
    {
        if ops.prefix_of(name).is_some() || ops.infix_of(name).is_some() {
            Shape::OperatorAtom
        } else if name == b"[]".as_slice() {
            Shape::NoElements
        } else {
            Shape::Leaf
        }
    }

    fn of_functor(ops: &OpTable, name: &[u8], arity: u16) -> Shape
        ensures { result ≡ functor_shape ops.now name.now arity }
    {
        if arity == 1 {
            if name == b"{}".as_slice() {
                return Shape::Braces;
            }
            return match ops.prefix_of(name) {
                Some((priority, fix)) => Shape::Prefix(priority, fix),
                None => Shape::Canonical(1),
            };
        }
        if arity == 2 {
            if name == b".".as_slice() {
                return Shape::Element;
            }
            return match ops.infix_of(name) {
                Some((priority, fix)) => Shape::Infix(priority, fix),
                None => Shape::Canonical(2),
            };
        }
        Shape::Canonical(arity)
    }

    /// The priority of the operator, or 0 where the term is no operator term.
    pub(crate) fn priority(self) -> u16
        ensures { result ≡ priority_in self }
    {
        match self {
            Shape::Prefix(priority, _) | Shape::Infix(priority, _) => priority,
            Shape::Leaf
            | Shape::OperatorAtom
            | Shape::NoElements
            | Shape::Element
            | Shape::Braces
            | Shape::Canonical(_) => 0,
        }
    }

    /// Whether the term is a list of one element and a tail.
    pub(crate) fn is_element(self) -> bool
        ensures { result ≡ is_element self }
    {
        match self {
            Shape::Element => true,
            Shape::Leaf
            | Shape::OperatorAtom
            | Shape::NoElements
            | Shape::Braces
            | Shape::Canonical(_)
            | Shape::Prefix(_, _)
            | Shape::Infix(_, _) => false,
        }
    }

    /// Whether the term is the atom `[]`.
    pub(crate) fn is_no_elements(self) -> bool
        ensures { result ≡ is_no_elements self }
    {
        match self {
            Shape::NoElements => true,
            Shape::Leaf
            | Shape::OperatorAtom
            | Shape::Element
            | Shape::Braces
            | Shape::Canonical(_)
            | Shape::Prefix(_, _)
            | Shape::Infix(_, _) => false,
        }
    }
}
