use cp_goal::{Binary, Unary};
use cp_heap::Ref;
use cp_list::ListOf;

/// What is to be done with the value of an operand.
#[derive(Debug, Clone, Copy, Drop)]
pub enum Frame {
    /// It is the operand of this operation.
    Only(Unary),
    /// It is the first operand, and the second one is still to be evaluated.
    First(Binary, Ref),
    /// It is the second operand, behind this value of the first.
    Second(Binary, i64),
}

pub type Frames = ListOf<Frame>;
