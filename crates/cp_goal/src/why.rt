ghost use Rattle.std.specs.Prelude.{◌≡◌, IfOk};
ghost use Rattle.cp_goal.specs.Evaluation.{why_kind};

use crate::error_cells::{
    domain_error, evaluation_error, instantiation_error, type_error_of_indicator,
};
use crate::fault::Fault;
use cp_term::{Name, Term};
use std::alloc::{AllocError, Global};

/// Why an expression has no value.
#[derive(Debug, Drop)]
pub enum Why {
    /// A variable in it is not bound.
    Unbound,
    /// An atom or a compound of so many arguments in it is no operation.
    NotEvaluable(Name, u16),
    /// An operation in it has a fault.
    Faulty(Fault),
}

impl Why {
    /// The kind of the error term that it raises.
    pub fn kind(self, alloc: Global) -> Result<Term, AllocError>
        ensures { IfOk result (λ kind. kind ≡ why_kind self) }
    {
        match self {
            Why::Unbound => instantiation_error(alloc),
            Why::NotEvaluable(name, arity) => type_error_of_indicator(
                alloc,
                b"evaluable",
                name,
                arity,
            ),
            Why::Faulty(Fault::ZeroDivisor) => evaluation_error(alloc, b"zero_divisor"),
            Why::Faulty(Fault::IntOverflow) => evaluation_error(alloc, b"int_overflow"),
            Why::Faulty(Fault::Shift(places)) => domain_error(alloc, b"shift", places),
        }
    }
}
