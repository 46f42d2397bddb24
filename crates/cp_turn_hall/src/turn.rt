// One turn at one object.
ghost use Rattle.std.specs.Prelude.{◌≡◌, ◌^◌, ◌-◌};
ghost use Rattle.cp_call.specs.Asker.{looked_after};
ghost use Rattle.cp_turn_hall.specs.Behind.{IsPlaceOf};
ghost use Rattle.cp_turn_hall.specs.Turn.{IsPlaceTurn};

use crate::grown::GrownRow;
use crate::pass::ObjectPass;
use cp_call::{Asked, Call, Reply};
use cp_io::{Gate, GatePlace};
use cp_turn::Turnstile;
use std::sync::Wait;

// How often a caller has looked in vain, once it was answered so.
fn count_look(asked: &Asked, looked: u64) -> u64
    ensures { result ≡ looked_after (2 ^ 64 - 1) asked.now looked }
{
    match asked {
        Asked::Replied(Reply::Parked) => 0,
        Asked::StillParked => looked.saturating_add(1),
        Asked::Replied(_) | Asked::NoMemory => looked,
    }
}

// Asks the object in a turn of the pass's caller.
pub(crate) fn take_turn<R: Wait, G: Gate>(
    rt: &R,
    gate: &G,
    turnstile: &Turnstile<GrownRow>,
    place: &mut ObjectPass,
    object: u32,
    call: &Call,
) -> Asked
    requires { IsPlaceOf place.old.pass.number turnstile.now place.old }
    ensures place { IsPlaceOf place.old.pass.number turnstile.now place.new }
    ensures turn { IsPlaceTurn turnstile.now.base call.now result place.old place.new }
{
    let caller = place.pass.number();
    let mut value = turnstile.enter(rt, &mut place.pass);
    gate.at(caller, GatePlace::Inside(object));
    let asked = value.ask(caller, call);
    turnstile.leave(&mut place.pass, value);
    gate.at(caller, GatePlace::Outside(object));
    place.looked = count_look(&asked, place.looked);
    asked
}
