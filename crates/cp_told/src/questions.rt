ghost use Rattle.std.specs.Prelude.{◌≡◌, Some, [], IfOk};
ghost use Rattle.cp_call.specs.declared.item.Next.TheVariants as request;
ghost use Rattle.cp_code.specs.Code.{Code};
ghost use Rattle.cp_code.specs.Machine as machine;
ghost use Rattle.cp_code.specs.Requests.{call_of};
ghost use Rattle.cp_request.specs.Asked.{goal_shown};
ghost use Rattle.cp_run.specs.Shown.{frames_of, shown};

use cp_call::{How, Next, RemoteCall, copy_of};
use cp_io::Bytes;
use cp_request::Asking;
use cp_run::{Point, Run};
use cp_term::{PredName, Term};
use std::alloc::AllocError;

/// What a run asks, or that it has an answer or has ended, where it has no move left.
pub fn ready(run: &Run) -> Result<Option<Next>, AllocError>
    ensures { IfOk result (λ next. (code : Code) → next ≡ machine.ready (shown code run.now)) }
{
    match &run.point {
        Point::Runs { .. } => Ok(None),
        Point::Tries { .. } => Ok(None),
        Point::Gives { .. } => Ok(None),
        Point::Fails => Ok(last(run, How::Done)),
        Point::Throws { ball, .. } => thrown(run, ball),
        Point::Asks { asking, from, .. } => asked(asking, *from),
        Point::Writes { bytes, .. } => written(bytes),
        Point::Calls { pred, handed, .. } => called(pred, handed),
        Point::Answers { answer } => answered(answer),
        Point::Stops => Ok(Some(Next::End { how: How::Steps })),
    }
}

/// The end of the search, where no frame is left.
fn last(run: &Run, how: How) -> Option<Next>
    ensures { (code : Code) → result ≡ machine.last_of (frames_of code run.now) (request.End how) }
{
    if run.frames.is_empty() {
        return Some(Next::End { how });
    }
    drop_how(how);
    None
}

fn drop_how(_how: How) {}

/// The end of the search by a ball, where no frame is left.
fn thrown(run: &Run, ball: &Term) -> Result<Option<Next>, AllocError>
    ensures { IfOk result (λ next. (code : Code) → next ≡ machine.ready_at (machine.Throws ball.now []) (frames_of code run.now)) }
{
    let ball = ball.copy()?;
    Ok(last(run, How::Ball(ball)))
}

/// A question to a shared object.
fn asked(asking: &Asking, from: Option<i64>) -> Result<Option<Next>, AllocError>
    ensures { IfOk result (λ next. next ≡ Some (request.Ask asking.now.object (call_of (goal_shown asking.now.goal) asking.now.copy from))) }
{
    let call = asking.call(from)?;
    Ok(Some(Next::Ask {
        object: asking.object,
        call,
    }))
}

/// Bytes that are to be written.
fn written(bytes: &Bytes) -> Result<Option<Next>, AllocError>
    ensures { IfOk result (λ next. next ≡ Some (request.Put bytes.now)) }
{
    let bytes = copy_of(bytes)?;
    Ok(Some(Next::Put { bytes }))
}

/// A call of another module, whose server may give 65,535 answers and is looked for 10,000 times.
fn called(pred: &PredName, handed: &Term) -> Result<Option<Next>, AllocError>
    ensures { IfOk result (λ next. next ≡ Some (machine.remote_call pred.now handed.now)) }
{
    let module = pred.module.clone()?;
    let goal = handed.copy()?;
    let call = RemoteCall {
        module,
        goal,
        limit: 65_535,
        looks: 10_000,
    };
    Ok(Some(Next::Remote { call }))
}

/// An answer.
fn answered(answer: &Term) -> Result<Option<Next>, AllocError>
    ensures { IfOk result (λ next. next ≡ Some (request.Answer answer.now)) }
{
    let goal = answer.copy()?;
    Ok(Some(Next::Answer { goal }))
}
