//! The builtin goals and the operations of arithmetic: which there are, and what each does.
#![tactic(auto)]

mod binary;
mod builtin;
mod error_cells;
mod exact;
mod fault;
mod relation;
mod type_test;
mod unary;
mod why;

pub use binary::Binary;
pub use builtin::Builtin;
pub use fault::Fault;
pub use relation::Relation;
pub use type_test::TypeTest;
pub use unary::Unary;
pub use why::Why;
