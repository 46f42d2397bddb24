ghost use Rattle.std.specs.Prelude.{◌≡◌, ◌<◌, length, OnOk};
ghost use Rattle.cp_code.specs.Code.{Code};
ghost use Rattle.cp_code.specs.Requests.{full_name};
ghost use Rattle.cp_code.specs.Machine as machine;
ghost use Rattle.cp_run.specs.Shown.{here_of, instance_in, asking_shown, shown, moved};
ghost use Rattle.cp_run.specs.Stands.{HasManner, PointStands, Holds, Stands};
ghost use Rattle.cp_told.specs.Rows.{told_at};

use crate::drops::{drop_asking, drop_bytes, drop_input, drop_pred, drop_term};
use crate::replies::{raise_output, tell_reply};
use cp_call::{Input, PutReply};
use cp_heap::Ref;
use cp_request::{Asking, RemoteAnswer};
use cp_run::{Point, Run};
use cp_term::PredName;
use std::alloc::AllocError;

/// Tells a run what it asked for. Where it asked for nothing it stays as it is, and where it asked for something else the
/// goals in hand have no more to give. After an error the run is to be dropped.
pub fn tell(run: &mut Run, input: Input) -> Result<(), AllocError>
    requires { Stands run.old }
    ensures moved { OnOk result ((code : Code) → shown code run.new ≡ machine.told (shown code run.old) input) }
    ensures stands { OnOk result (Stands run.new) }
{
    let point = run.leave();
    tell_point(run, point, input)?;
    Ok(())
}

/// Tells a run what it asked for at a point that it has left.
fn tell_point(run: &mut Run, point: Point, input: Input) -> Result<(), AllocError>
    requires holds { Holds run.old }
    requires point { PointStands (here_of run.old) point }
    ensures moved { OnOk result ((code : Code) → shown code run.new ≡ told_at code run.old point input) }
    ensures stands { OnOk result (Stands run.new) }
{
    match point {
        Point::Asks {
            asking,
            from,
            rest,
            level,
        } => tell_asks(run, asking, from, rest, level, input),
        Point::Writes {
            bytes,
            context,
            rest,
            level,
        } => {
            drop_bytes(bytes);
            tell_writes(run, context, rest, level, input)
        }
        Point::Calls {
            pred,
            goal,
            handed,
            rest,
            level,
        } => {
            drop_term(handed);
            tell_calls(run, pred, goal, rest, level, input)
        }
        Point::Answers { answer } => {
            drop_term(answer);
            drop_input(input);
            run.go(Point::Fails);
            Ok(())
        }
        other => {
            drop_input(input);
            run.go(other);
            Ok(())
        }
    }
}

/// The reply of a shared object.
fn tell_asks(
    run: &mut Run,
    asking: Asking,
    from: Option<i64>,
    rest: u32,
    level: u64,
    input: Input,
) -> Result<(), AllocError>
    requires holds { Holds run.old }
    requires rest { rest < length run.old.goals }
    requires asking { HasManner run.old.heap.terms asking.manner }
    ensures moved { OnOk result ((code : Code) → shown code run.new ≡ moved code run.old rest level (machine.asks_told input (asking_shown run.old.heap.terms asking) from)) }
    ensures stands { OnOk result (Stands run.new) }
{
    match input {
        Input::Reply(reply) => tell_reply(run, asking, from, rest, level, reply),
        other => {
            drop_asking(asking);
            drop_input(other);
            run.go(Point::Fails);
            Ok(())
        }
    }
}

/// What the port says of a write.
fn tell_writes(
    run: &mut Run,
    context: PredName,
    rest: u32,
    level: u64,
    input: Input,
) -> Result<(), AllocError>
    requires holds { Holds run.old }
    requires rest { rest < length run.old.goals }
    ensures moved { OnOk result ((code : Code) → shown code run.new ≡ moved code run.old rest level (machine.writes_told input (full_name context))) }
    ensures stands { OnOk result (Stands run.new) }
{
    match input {
        Input::Put(reply) => tell_written(run, context, rest, level, reply),
        other => {
            drop_pred(context);
            drop_input(other);
            run.go(Point::Fails);
            Ok(())
        }
    }
}

/// Whether the port wrote.
fn tell_written(
    run: &mut Run,
    context: PredName,
    rest: u32,
    level: u64,
    reply: PutReply,
) -> Result<(), AllocError>
    requires holds { Holds run.old }
    requires rest { rest < length run.old.goals }
    ensures moved { OnOk result ((code : Code) → shown code run.new ≡ moved code run.old rest level (machine.writes_told (Input.Put reply) (full_name context))) }
    ensures stands { OnOk result (Stands run.new) }
{
    match reply {
        PutReply::Wrote => {
            drop_pred(context);
            run.go(Point::Runs { goals: rest, level });
            Ok(())
        }
        PutReply::Failed => {
            raise_output(run, &context, rest)?;
            Ok(())
        }
    }
}

/// The reply of another module.
fn tell_calls(
    run: &mut Run,
    pred: PredName,
    goal: Ref,
    rest: u32,
    level: u64,
    input: Input,
) -> Result<(), AllocError>
    requires holds { Holds run.old }
    requires goal { goal.at < length run.old.heap.terms }
    requires rest { rest < length run.old.goals }
    ensures moved { OnOk result ((code : Code) → shown code run.new ≡ moved code run.old rest level (machine.calls_told input pred (instance_in (here_of run.old) goal.at))) }
    ensures stands { OnOk result (Stands run.new) }
{
    match input {
        Input::Remote(reply) => {
            let answer = RemoteAnswer::of(run.alloc, reply);
            run.go(Point::Gives {
                pred,
                answer,
                from: 0,
                goal,
                rest,
                level,
            });
            Ok(())
        }
        other => {
            drop_pred(pred);
            drop_input(other);
            run.go(Point::Fails);
            Ok(())
        }
    }
}
