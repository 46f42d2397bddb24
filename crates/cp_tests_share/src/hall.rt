ghost use Rattle.std.specs.Prelude.{◌≡◌, IfOk, length};
ghost use Rattle.cp_hall.specs.Hall.{objects_of};

use crate::building::q;
use cp_call::{Asked, Asker, Call, ObjectKind, ObjectName, Reply, Terms};
use cp_hall::PlainHall;
use std::alloc::Global;
use std::test::Fail;

fn is_reply(asked: Asked, reply: &Reply) -> bool {
    match asked {
        Asked::Replied(given) => given.equal(reply),
        Asked::StillParked | Asked::NoMemory => false,
    }
}

/// The list of goals, which begins with q(7), and that of ended goals.
fn two_objects(alloc: Global) -> Result<PlainHall, Fail>
    ensures { IfOk result (λ hall. length (objects_of hall) ≡ 2) }
{
    let mut hall = PlainHall::new(alloc);
    let mut goals = Terms::new(alloc);
    goals.push(q(alloc, 7)?)?;
    hall.add(ObjectName::Goals, ObjectKind::Goals, goals)?;
    hall.add(ObjectName::Ended, ObjectKind::Ended, Terms::new(alloc))?;
    Ok(hall)
}

#[test]
fn objects_are_asked_by_number(rt: HostRuntime) -> Result<(), Fail> {
    let alloc = rt.alloc();
    let mut hall = two_objects(alloc)?;
    let take = Call::Take {
        pattern: q(alloc, 7)?,
        after: None,
    };
    let found = Reply::Found {
        place: 1,
        fact: q(alloc, 7)?,
    };
    assert!(rt; is_reply(hall.ask(1, 1, &take), &Reply::Parked));
    assert!(rt; is_reply(hall.ask(0, 1, &take), &found));
    assert!(rt; hall.is_parked(1, 1) && !hall.is_parked(0, 1));
    assert!(rt; matches!(hall.ask(1, 1, &take), Asked::StillParked));
    let ends = hall.into_ends()?;
    assert_eq!(rt; ends.len(), 2);
    Ok(())
}
