use crate::moment::Moment;
use cp_heap::Ref;
use cp_request::RemoteAnswer;
use cp_term::{Name, PredName, Terms};

/// What is to be done when the goals in hand have no more to give.
#[derive(Drop)]
pub enum Frame {
    /// Other goals.
    Alternative {
        moment: Moment,
        goals: u32,
        level: u64,
    },
    /// The clauses of a predicate from this one on, which are still to be tried.
    Clauses {
        moment: Moment,
        pred: u32,
        from: u32,
        goal: Ref,
        rest: u32,
        level: u64,
    },
    /// A level that was opened: the place to which a cut goes.
    Opened {
        level: u64,
    },
    /// A `catch` that the module `seer` sees. It has the number of the level behind `level`.
    Catching {
        moment: Moment,
        seer: Name,
        ball: Ref,
        recovery: Ref,
        rest: u32,
        level: u64,
    },
    /// A findall, with the copies of the one around it.
    Gathering {
        moment: Moment,
        outer: Terms,
        result: Ref,
        rest: u32,
        level: u64,
    },
    /// The answers of a remote call of a predicate from this one on, which are still to come.
    Answering {
        moment: Moment,
        pred: PredName,
        answer: RemoteAnswer,
        from: u32,
        goal: Ref,
        rest: u32,
        level: u64,
    },
}
