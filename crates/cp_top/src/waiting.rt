ghost use Rattle.std.specs.Prelude.{◌≡◌, IfOk};
ghost use Rattle.std.specs.List.{list_any};
ghost use Rattle.cp_top.specs.Ending.{takes_first, takes_goal_1, waits_on, waits_by_name, suspended_on, shown};

use crate::object_name::name_text;
use crate::run_end::RunEnd;
use cp_call::{Call, EngineEnd, Item, ObjectName, Outcome, Reply, Stand};
use std::alloc::{AllocError, Global};

fn takes_first(call: &Call, reply: &Reply) -> bool
    ensures { result ≡ takes_first call.now reply.now }
{
    match (call, reply) {
        (Call::Take { .. }, Reply::Found { place, .. }) => *place == 1,
        _ => false,
    }
}

/// Whether an event takes goal 1.
fn takes_goal_1(item: &Item) -> bool
    ensures { result ≡ takes_goal_1 item.now }
{
    match item {
        Item::Asked {
            object,
            call,
            reply,
        } => *object == 0 && takes_first(call, reply),
        _ => false,
    }
}

fn took_goal_1(items: &[Item]) -> bool
    ensures { result ≡ list_any takes_goal_1 items.now }
{
    items.iter().any(|item| takes_goal_1(item))
}

/// The number of the object on which goal 1 waits.
fn waits_on(engines: &[EngineEnd]) -> u32
    ensures { result ≡ waits_on engines.now }
{
    for engine in engines {
        if let Stand::Parked(object) = engine.stand {
            if took_goal_1(engine.items.as_slice()) {
                return object;
            }
        }
    }
    0
}

/// The ending of a run in which goal 1 waits.
pub(crate) fn end_waiting(alloc: Global, outcome: &Outcome) -> Result<RunEnd, AllocError>
    ensures { IfOk result (λ e. shown e ≡ suspended_on (waits_by_name outcome.now)) }
{
    let text = match outcome.preds.get(waits_on(outcome.engines.as_slice())) {
        Some(pred) => name_text(alloc, &pred.name)?,
        None => name_text(alloc, &ObjectName::Goals)?,
    };
    let mut line = Vec::from_slice(alloc, b"{SUSPENDED: goal 1 on ")?;
    line.extend_from_slice(text.as_slice())?;
    line.extend_from_slice(b"}\n")?;
    Ok(RunEnd { status: 3, line })
}
