ghost use Rattle.std.specs.Prelude.{◌≡◌, [], ◌∷◌, IfOk, IfSome, length};
ghost use Rattle.cp_hall.specs.Hall.{objects_of};

use cp_call::{Asked, Call, ObjectKind, ObjectName, Reply, Terms};
use cp_hall::PlainHall;
use cp_io::OpenGate;
use cp_term::{Cell, Cells, Term};
use cp_turn_hall::{HallPass, HallPasses, turn_hall};
use std::alloc::{AllocError, Global};
use std::sync::Wait;
use std::test::Fail;

fn only(passes: HallPasses) -> Option<HallPass>
    requires { length passes ≡ 1 }
    ensures { IfSome result (λ p. passes ≡ p ∷ []) }
{
    passes.into_vec().pop()
}

/// A hall with one object, the list of ended goals.
fn one_object(alloc: Global) -> Result<PlainHall, AllocError>
    ensures { IfOk result (λ hall. length (objects_of hall) ≡ 1) }
{
    let mut hall = PlainHall::new(alloc);
    hall.add(ObjectName::Ended, ObjectKind::Ended, Terms::new(alloc))?;
    Ok(hall)
}

/// One caller asks the object, and whether it was parked, with the hall afterwards.
fn ask_one<R: Wait>(
    rt: &R,
    alloc: Global,
    hall: PlainHall,
    call: &Call,
) -> Result<Option<(bool, PlainHall)>, AllocError>
    requires { length (objects_of hall) ≡ 1 }
{
    let (turn, passes) = turn_hall(hall, 1)?;
    let Some(pass) = only(passes) else {
        return Ok(None);
    };
    let mut seat = turn.seat(rt, &OpenGate, pass);
    let asked = seat.ask_object(0, call);
    let mut passes = HallPasses::new(alloc);
    passes.push(seat.into_pass())?;
    let hall = turn.close(passes)?;
    Ok(Some((matches!(asked, Asked::Replied(Reply::Parked)), hall)))
}

#[test]
fn an_object_is_asked_in_a_turn(rt: HostRuntime) -> Result<(), Fail> {
    let mut cells = Cells::new(rt.alloc());
    cells.push(Cell::Int(7))?;
    let call = Call::Take {
        pattern: Term::from_cells(cells)?,
        after: None,
    };
    let Some((parked, hall)) = ask_one(&rt, rt.alloc(), one_object(rt.alloc())?, &call)? else {
        panic!(rt; "no pass")
    };
    assert!(rt; parked);
    let ends = hall.into_ends()?;
    let entries = ends.get(0).map(|end| end.history.len());
    assert_eq!(rt; entries, Some(1));
    Ok(())
}
