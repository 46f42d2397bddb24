//! Reads the clauses of a Prolog text from its tokens.
#![tactic(auto)]

mod behind;
mod bounds;
mod clause;
mod draft;
mod error;
mod frame;
mod laws;
mod look;
mod machine;
mod operators;
mod reader;
mod variables;

pub use bounds::Bounds;
pub use clause::ReadClause;
pub use error::{ReadError, SyntaxWhy};
pub use laws::{
    clauses_are_terms, pieces_are_read, reading_is_by_the_rules, reading_is_decided,
    rules_derive_no_second, what_is_written_reads_back,
};
pub use reader::Reader;
