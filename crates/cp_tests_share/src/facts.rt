use crate::building::{q, q_any};
use cp_call::{Call, Callers, ObjectKind, ObjectName, Reply, Terms};
use cp_fact::{Pred, Refused};
use std::alloc::Global;
use std::test::Fail;

/// The call of each turn.
fn call_at(alloc: Global, turn: u32) -> Result<Call, Fail> {
    match turn {
        0 => Ok(Call::AddBack { fact: q(alloc, 1)? }),
        1 => Ok(Call::Next {
            pattern: q_any(alloc)?,
            after: None,
        }),
        2 => Ok(Call::Next {
            pattern: q_any(alloc)?,
            after: Some(1),
        }),
        3 => Ok(Call::AddFront { fact: q(alloc, 0)? }),
        4 => Ok(Call::AddBack { fact: q(alloc, 2)? }),
        5 => Ok(Call::Take {
            pattern: q_any(alloc)?,
            after: None,
        }),
        6 => Ok(Call::NextNb {
            pattern: q(alloc, 0)?,
            after: None,
        }),
        7 | 9 => Ok(Call::Take {
            pattern: q(alloc, 9)?,
            after: None,
        }),
        8 => Ok(Call::Close),
        10 => Ok(Call::Replace { fact: q(alloc, 5)? }),
        11 => Ok(Call::Purge {
            pattern: q_any(alloc)?,
        }),
        12 => Ok(Call::Reopen),
        _ => Ok(Call::Leave),
    }
}

/// Who makes the call of each turn.
fn caller_at(turn: u32) -> u32 {
    match turn {
        0 | 3 | 4 | 8 | 10 | 11 | 12 => 1,
        _ => 2,
    }
}

/// The list of one caller, or of none.
fn callers(alloc: Global, caller: Option<u32>) -> Result<Callers, Fail> {
    let mut callers = Callers::new(alloc);
    if let Some(caller) = caller {
        callers.push(caller)?;
    }
    Ok(callers)
}

fn added(alloc: Global, place: i64, woken: Option<u32>) -> Result<Reply, Fail> {
    let woken = callers(alloc, woken)?;
    Ok(Reply::Added { place, woken })
}

fn found(alloc: Global, place: i64, n: i64) -> Result<Reply, Fail> {
    let fact = q(alloc, n)?;
    Ok(Reply::Found { place, fact })
}

/// The reply of each turn.
fn reply_at(alloc: Global, turn: u32) -> Result<Reply, Fail> {
    match turn {
        0 => added(alloc, 1, None),
        1 => found(alloc, 1, 1),
        2 => Ok(Reply::Parked),
        3 => added(alloc, 0, None),
        4 => added(alloc, 2, Some(2)),
        5 => found(alloc, 0, 0),
        6 => Ok(Reply::NoMore),
        7 => Ok(Reply::Parked),
        8 => Ok(Reply::Closed {
            woken: callers(alloc, Some(2))?,
        }),
        9 => Ok(Reply::NoMore),
        10 => Ok(Reply::Replaced {
            place: 3,
            woken: callers(alloc, None)?,
        }),
        11 => Ok(Reply::Purged { count: 1 }),
        12 => Ok(Reply::Reopened),
        _ => Ok(Reply::NotParked),
    }
}

/// Whether the object gives this reply.
fn makes(pred: &mut Pred, caller: u32, call: &Call, reply: &Reply) -> bool {
    match pred.ready(caller, call) {
        Ok(()) => pred.commit().equal(reply),
        Err(_) => false,
    }
}

#[test]
fn an_object_replies_to_two_callers(rt: HostRuntime) -> Result<(), Fail> {
    let alloc = rt.alloc();
    let mut pred = Pred::new(alloc, ObjectKind::Concurrent, Terms::new(alloc))?;
    for turn in 0..14 {
        let call = call_at(alloc, turn)?;
        let reply = reply_at(alloc, turn)?;
        assert!(rt; makes(&mut pred, caller_at(turn), &call, &reply), "{turn}");
    }
    let end = pred.into_end(ObjectName::Ended)?;
    assert_eq!(rt; end.history.len(), 14);
    Ok(())
}

fn is_still_parked(pred: &mut Pred, caller: u32, call: &Call) -> bool {
    matches!(pred.ready(caller, call), Err(Refused::StillParked))
}

#[test]
fn a_caller_gives_up_waiting(rt: HostRuntime) -> Result<(), Fail> {
    let alloc = rt.alloc();
    let mut pred = Pred::new(alloc, ObjectKind::Concurrent, Terms::new(alloc))?;
    let call = Call::Take {
        pattern: q_any(alloc)?,
        after: None,
    };
    assert!(rt; makes(&mut pred, 3, &call, &Reply::Parked));
    assert!(rt; pred.is_parked(3) && is_still_parked(&mut pred, 3, &call));
    assert!(rt; makes(&mut pred, 3, &Call::Leave, &Reply::Left));
    Ok(())
}
