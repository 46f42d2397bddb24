ghost use Rattle.std.specs.Prelude.{◌≡◌, IfOk};

use cp_call::{RemoteAnswers, RemoteEnd, RemoteReply, Terms};
use std::alloc::{AllocError, Global};

fn copy_terms(alloc: Global, terms: &Terms) -> Result<Terms, AllocError>
    ensures { IfOk result (λ copy. copy ≡ terms.now) }
{
    let mut copy = Terms::new(alloc);
    for term in terms.as_slice() {
        copy.push(term.copy()?)?;
    }
    Ok(copy)
}

fn copy_end(end: &RemoteEnd) -> Result<RemoteEnd, AllocError>
    ensures { IfOk result (λ copy. copy ≡ end.now) }
{
    match end {
        RemoteEnd::Done => Ok(RemoteEnd::Done),
        RemoteEnd::Limit => Ok(RemoteEnd::Limit),
        RemoteEnd::Ball(ball) => Ok(RemoteEnd::Ball(ball.copy()?)),
        RemoteEnd::Steps => Ok(RemoteEnd::Steps),
        RemoteEnd::Suspended => Ok(RemoteEnd::Suspended),
        RemoteEnd::Refused => Ok(RemoteEnd::Refused),
    }
}

fn copy_answers(alloc: Global, answers: &RemoteAnswers) -> Result<RemoteAnswers, AllocError>
    ensures { IfOk result (λ copy. copy ≡ answers.now) }
{
    Ok(RemoteAnswers {
        answers: copy_terms(alloc, &answers.answers)?,
        end: copy_end(&answers.end)?,
    })
}

/// The same reply once more.
pub(crate) fn copy_reply(alloc: Global, reply: &RemoteReply) -> Result<RemoteReply, AllocError>
    ensures { IfOk result (λ copy. copy ≡ reply.now) }
{
    match reply {
        RemoteReply::Answers(answers) => Ok(RemoteReply::Answers(copy_answers(alloc, answers)?)),
        RemoteReply::LinkFault => Ok(RemoteReply::LinkFault),
        RemoteReply::PeerEnded => Ok(RemoteReply::PeerEnded),
        RemoteReply::BadReply { at } => Ok(RemoteReply::BadReply { at: *at }),
        RemoteReply::NoDialer => Ok(RemoteReply::NoDialer),
    }
}
