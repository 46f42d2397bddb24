ghost use Rattle.std.specs.Prelude.{◌≡◌, [], ◌∷◌, ◌++◌, OnOk};
ghost use Rattle.cp_log_text.specs.Line.{functor, atom, number, element_parts, list_parts};
ghost use Rattle.cp_log_text.specs.Engine.{remote_parts, remote_reply_parts, end_parts};
ghost use Rattle.cp_log_text.specs.Building.{Gains};

use crate::call::add_compound;
use crate::line::Line;
use cp_call::{RemoteAnswers, RemoteCall, RemoteEnd, RemoteReply};
use cp_term::Term;
use std::alloc::AllocError;

/// Adds a remote call and what became of it.
pub(crate) fn add_remote(
    line: &mut Line,
    call: &RemoteCall,
    reply: &RemoteReply,
) -> Result<(), AllocError>
    ensures { OnOk result (Gains line.old line.new (remote_parts call.now reply.now)) }
{
    line.functor(b"r", 5)?;
    add_remote_call(line, call)?;
    add_remote_reply(line, reply)?;
    Ok(())
}

/// Adds a call of a goal of another module, as four arguments.
fn add_remote_call(line: &mut Line, call: &RemoteCall) -> Result<(), AllocError>
    ensures { OnOk result (Gains line.old line.new (atom call.now.«module» ∷ call.now.goal ∷ number call.now.limit ∷ number call.now.looks ∷ [])) }
{
    line.name(&call.module)?;
    line.term(&call.goal)?;
    line.number(call.limit)?;
    line.number(call.looks)?;
    Ok(())
}

fn add_remote_reply(line: &mut Line, reply: &RemoteReply) -> Result<(), AllocError>
    ensures { OnOk result (Gains line.old line.new (remote_reply_parts reply.now)) }
{
    match reply {
        RemoteReply::Answers(answers) => add_answers(line, answers),
        RemoteReply::LinkFault => line.word(b"link_fault"),
        RemoteReply::PeerEnded => line.word(b"peer_ended"),
        RemoteReply::BadReply { at } => add_bad_reply(line, *at),
        RemoteReply::NoDialer => line.word(b"no_dialer"),
    }
}

fn add_bad_reply(line: &mut Line, at: u32) -> Result<(), AllocError>
    ensures { OnOk result (Gains line.old line.new (functor "bad_reply" 1 ∷ number at ∷ [])) }
{
    line.functor(b"bad_reply", 1)?;
    line.number(at)?;
    Ok(())
}

fn add_answers(line: &mut Line, answers: &RemoteAnswers) -> Result<(), AllocError>
    ensures { OnOk result (Gains line.old line.new (functor "answers" 2 ∷ list_parts answers.now.answers ++ end_parts answers.now.end)) }
{
    line.functor(b"answers", 2)?;
    add_terms(line, answers.answers.as_slice())?;
    add_end(line, &answers.end)?;
    Ok(())
}

/// Adds terms as a list.
fn add_terms(line: &mut Line, terms: &[Term]) -> Result<(), AllocError>
    ensures { OnOk result (Gains line.old line.new (list_parts terms.now)) }
{
    add_elements(line, terms)?;
    line.word(b"[]")?;
    Ok(())
}

/// Adds terms as elements of a list, without its end.
fn add_elements(line: &mut Line, terms: &[Term]) -> Result<(), AllocError>
    ensures { OnOk result (Gains line.old line.new (element_parts terms.now)) }
{
    'terms: for term in terms {
        add_term(line, term)?;
    }
    Ok(())
}

fn add_term(line: &mut Line, term: &Term) -> Result<(), AllocError>
    ensures { OnOk result (Gains line.old line.new (functor "." 2 ∷ term.now ∷ [])) }
{
    line.functor(b".", 2)?;
    line.term(term)?;
    Ok(())
}

fn add_end(line: &mut Line, end: &RemoteEnd) -> Result<(), AllocError>
    ensures { OnOk result (Gains line.old line.new (end_parts end.now)) }
{
    match end {
        RemoteEnd::Done => line.word(b"done"),
        RemoteEnd::Limit => line.word(b"limit"),
        RemoteEnd::Ball(ball) => add_compound(line, b"ball", ball),
        RemoteEnd::Steps => line.word(b"steps"),
        RemoteEnd::Suspended => line.word(b"suspended"),
        RemoteEnd::Refused => line.word(b"refused"),
    }
}
