ghost use Rattle.std.specs.Prelude.{◌≡◌, ◌<◌, [], length, IfOk, codes};
ghost use Rattle.cp_term.specs.declared.pred_name.PredName.{PredName};
ghost use Rattle.cp_goal.specs.Errors.{word};
ghost use Rattle.cp_heap.specs.State.{instance_at};
ghost use Rattle.cp_lists.specs.Growing.{GainsTerms};
ghost use Rattle.cp_code.specs.Requests as requests;
ghost use Rattle.cp_request.specs.Told.{remote_kind, remote_shown, answer_shown};

use crate::kinds::{existence_error, pred_indicator, resource_error_of, system_error};
use cp_call::{RemoteEnd, RemoteReply, Terms};
use cp_heap::{Heap, Ref};
use cp_term::{Name, PredName, Term};
use std::alloc::{AllocError, Global};

/// Why a remote call is broken off by an error.
#[derive(Debug, Clone, Copy, PartialEq, Eq, Drop)]
pub enum RemoteError {
    /// `resource_error(remote_answers)`
    Limit,
    /// `resource_error(remote_steps)`
    Steps,
    /// `resource_error(remote_suspended)`
    Suspended,
    /// `existence_error(procedure, _)`
    NoProcedure,
    /// `system_error(link)`
    Link,
    /// `system_error(peer_ended)`
    PeerEnded,
    /// `system_error(bad_reply)`
    BadReply,
    /// `existence_error(active_module, _)`
    NoActiveModule,
}

/// What follows the answers of a remote call.
#[derive(Drop)]
pub enum RemoteFollows {
    Fails,
    Throws(Term),
    Breaks(RemoteError),
}

/// The answers of a remote call, and what follows them.
#[derive(Drop)]
pub struct RemoteAnswer {
    pub answers: Terms,
    pub behind: RemoteFollows,
}

impl RemoteError {
    /// Makes the kind of the error of a call of this predicate, as a term of the heap, which only grows.
    pub fn put(&self, alloc: Global, heap: &mut Heap, pred: &PredName) -> Result<Ref, AllocError>
        ensures live { IfOk result (λ r. r.at < length heap.new.terms) }
        ensures kind { IfOk result (λ r. instance_at heap.new r.at ≡ remote_kind pred.now self.now) }
        ensures gains { GainsTerms heap.old heap.new }
    {
        match self {
            RemoteError::Limit => resource_error_of(alloc, heap, b"remote_answers"),
            RemoteError::Steps => resource_error_of(alloc, heap, b"remote_steps"),
            RemoteError::Suspended => resource_error_of(alloc, heap, b"remote_suspended"),
            RemoteError::NoProcedure => no_procedure(alloc, heap, pred),
            RemoteError::Link => system_error(alloc, heap, b"link"),
            RemoteError::PeerEnded => system_error(alloc, heap, b"peer_ended"),
            RemoteError::BadReply => system_error(alloc, heap, b"bad_reply"),
            RemoteError::NoActiveModule => no_active_module(alloc, heap, &pred.module),
        }
    }
}

/// The peer refuses the call of this predicate.
fn no_procedure(alloc: Global, heap: &mut Heap, pred: &PredName) -> Result<Ref, AllocError>
    ensures live { IfOk result (λ r. r.at < length heap.new.terms) }
    ensures kind { IfOk result (λ r. instance_at heap.new r.at ≡ requests.existence_error (codes "procedure") (requests.full_name pred.now)) }
    ensures gains { GainsTerms heap.old heap.new }
{
    let culprit = pred_indicator(alloc, heap, pred)?;
    existence_error(alloc, heap, b"procedure", culprit)
}

/// There is no dialer for this module.
fn no_active_module(alloc: Global, heap: &mut Heap, served: &Name) -> Result<Ref, AllocError>
    ensures live { IfOk result (λ r. r.at < length heap.new.terms) }
    ensures kind { IfOk result (λ r. instance_at heap.new r.at ≡ requests.existence_error (codes "active_module") (word served.now)) }
    ensures gains { GainsTerms heap.old heap.new }
{
    let culprit = heap.atom(served)?;
    existence_error(alloc, heap, b"active_module", culprit)
}

impl RemoteAnswer {
    /// The answers of a reply to a call of a predicate. It takes no memory.
    pub fn of(alloc: Global, reply: RemoteReply) -> RemoteAnswer
        ensures { (p : PredName) → answer_shown p result ≡ requests.answers_of p reply }
    {
        match reply {
            RemoteReply::Answers(a) => RemoteAnswer {
                answers: a.answers,
                behind: RemoteFollows::of(a.end),
            },
            RemoteReply::LinkFault => RemoteAnswer::none(alloc, RemoteError::Link),
            RemoteReply::PeerEnded => RemoteAnswer::none(alloc, RemoteError::PeerEnded),
            RemoteReply::BadReply { at: _ } => RemoteAnswer::none(alloc, RemoteError::BadReply),
            RemoteReply::NoDialer => RemoteAnswer::none(alloc, RemoteError::NoActiveModule),
        }
    }

    /// An error, and no answers.
    fn none(alloc: Global, error: RemoteError) -> RemoteAnswer
        ensures { result ≡ record { answers = []; behind = RemoteFollows.Breaks error } }
    {
        RemoteAnswer {
            answers: Terms::new(alloc),
            behind: RemoteFollows::Breaks(error),
        }
    }
}

impl RemoteFollows {
    fn of(end: RemoteEnd) -> RemoteFollows
        ensures { (p : PredName) → remote_shown p result ≡ requests.end_follows p end }
    {
        match end {
            RemoteEnd::Done => RemoteFollows::Fails,
            RemoteEnd::Limit => RemoteFollows::Breaks(RemoteError::Limit),
            RemoteEnd::Ball(ball) => RemoteFollows::Throws(ball),
            RemoteEnd::Steps => RemoteFollows::Breaks(RemoteError::Steps),
            RemoteEnd::Suspended => RemoteFollows::Breaks(RemoteError::Suspended),
            RemoteEnd::Refused => RemoteFollows::Breaks(RemoteError::NoProcedure),
        }
    }
}
