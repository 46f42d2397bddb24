use crate::kind::Kind;
use crate::prop::Prop;
use crate::status::Status;
use cp_list::ListOf;
use cp_term::PredName;

/// An assertion on a predicate.
#[derive(Debug, Drop)]
pub struct Assertion {
    pub pred: PredName,
    /// Its number, from 1, among the `check` assertions of the predicate in textual order; 0 where its status is another.
    pub number: u32,
    pub kind: Kind,
    pub status: Status,
    /// What a call has to meet.
    pub before: Prop,
    /// What a success has to meet.
    pub after: Prop,
    /// The line of its first token, counted from 1.
    pub line: u32,
}

/// The assertions of a program, in textual order.
pub type Assertions = ListOf<Assertion>;
