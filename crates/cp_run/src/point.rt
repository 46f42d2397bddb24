use cp_heap::Ref;
use cp_io::Bytes;
use cp_list::ListOf;
use cp_request::{Asking, RemoteAnswer};
use cp_term::{PredName, Term};

/// The numbers of the catches whose end is still to come.
pub type Catchers = ListOf<u64>;

/// Where a run stands.
#[derive(Drop)]
pub enum Point {
    /// Goals are run.
    Runs {
        goals: u32,
        level: u64,
    },
    /// The clauses of a predicate are tried, from this one on.
    Tries {
        pred: u32,
        from: u32,
        goal: Ref,
        rest: u32,
        level: u64,
    },
    /// The answers of a remote call of a predicate are given, from this one on.
    Gives {
        pred: PredName,
        answer: RemoteAnswer,
        from: u32,
        goal: Ref,
        rest: u32,
        level: u64,
    },
    /// The goals in hand have no more to give.
    Fails,
    /// A ball is thrown, which these catches may catch.
    Throws {
        ball: Term,
        catchers: Catchers,
    },
    /// The reply of a shared object is due, to a question from this place of its history on.
    Asks {
        asking: Asking,
        from: Option<i64>,
        rest: u32,
        level: u64,
    },
    /// What the port says of these bytes is due; an error names the predicate.
    Writes {
        bytes: Bytes,
        context: PredName,
        rest: u32,
        level: u64,
    },
    /// The reply of another module is due, to a call of this predicate with a copy of the goal.
    Calls {
        pred: PredName,
        goal: Ref,
        handed: Term,
        rest: u32,
        level: u64,
    },
    /// The wish for more is due.
    Answers {
        answer: Term,
    },
    /// No unit is left.
    Stops,
}
