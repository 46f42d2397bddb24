ghost use Rattle.std.specs.Prelude.{◌≡◌, ◌≢◌, ◌<◌, ◌-◌, ◌^◌, ℕ, length, slice_get};
ghost use Rattle.cp_call.specs.Asker.{IsFullBy, IsStill, looked_after};
ghost use Rattle.cp_hall.specs.Hall.{objects_of};
ghost use Rattle.cp_turn_hall.specs.Behind.{IsPassOf, hall_at_start, seen_at, looked_at};
ghost use Rattle.cp_turn_hall.specs.Turn.{IsTurn, SamePlace};

use crate::hall::TurnHall;
use crate::pass::{HallPass, ObjectPass};
use crate::turn::take_turn;
use cp_call::{Asked, Asker, Call};
use cp_io::Gate;
use std::marker::Model;
use std::sync::Wait;

/// A caller at a hall, who asks for itself alone.
#[derive(Drop)]
pub struct HallSeat<'a, R: Wait, G: Gate> {
    rt: &'a R,
    gate: &'a G,
    hall: &'a TurnHall,
    number: u32,
    places: Vec<ObjectPass>,
}

impl<'a, R: Wait, G: Gate> Model for HallSeat<'a, R, G> {
    ghost use Rattle.cp_turn_hall.specs.Behind.{SeatView, Serves};

    ghost Value = { SeatView };

    ghost view = { λ s. record { turnstiles = s.hall.now; number = s.number; places = s.places.items } };

    ghost invariant = { λ s. Serves s.number s.hall.now s.places.items };
}

impl TurnHall {
    ghost use Rattle.std.specs.Prelude.{◌≡◌};
    ghost use Rattle.cp_turn_hall.specs.Behind.{IsPassOf};

    /// A seat for a caller of this hall. It takes no memory.
    pub fn seat<'a, R: Wait, G: Gate>(
        &'a self,
        rt: &'a R,
        gate: &'a G,
        pass: HallPass,
    ) -> HallSeat<'a, R, G>
        requires { IsPassOf self.now pass }
        ensures { result ≡ record { turnstiles = self.entry.now; number = pass.number; places = pass.places } }
    {
        let HallPass { number, places } = pass;
        HallSeat {
            rt,
            gate,
            hall: self,
            number,
            places,
        }
    }
}

impl<'a, R: Wait, G: Gate> HallSeat<'a, R, G> {
    /// The pass of the caller, with all that it has seen. It takes no memory.
    pub fn into_pass(self) -> HallPass
        ensures pass { result ≡ record { number = self.entry.number; places = self.entry.places } }
        ensures of_hall { IsPassOf self.entry.turnstiles result }
    {
        let HallSeat {
            rt: _,
            gate: _,
            hall: _,
            number,
            places,
        } = self;
        HallPass { number, places }
    }

    /// The caller's number.
    pub fn number(&self) -> u32
        ensures { result ≡ self.now.number }
    {
        self.number
    }

    /// Asks an object on behalf of the seat's caller, in a turn of its own.
    pub fn ask_object(&mut self, object: u32, call: &Call) -> Asked
        requires { object < length self.old.turnstiles }
        ensures turnstiles { self.new.turnstiles ≡ self.old.turnstiles }
        ensures number { self.new.number ≡ self.old.number }
        ensures turn { IsTurn object call.now result self.old self.new }
        ensures looked { looked_at self.new.places object ≡ looked_after (2 ^ 64 - 1) result (looked_at self.old.places object) }
        ensures full { IsFullBy (slice_get (objects_of (hall_at_start self.old.turnstiles)) object) (seen_at self.new.turnstiles self.new.places object) self.old.number call.now result }
        ensures still { IsStill (slice_get (objects_of (hall_at_start self.old.turnstiles)) object) (seen_at self.new.turnstiles self.new.places object) self.old.number call.now result }
        ensures others { (p : ℕ) → p ≢ object → SamePlace p self.old.places self.new.places }
    {
        let turnstile = self.hall.turnstile(object);
        let place = &mut self.places[object as usize];
        take_turn(self.rt, self.gate, turnstile, place, object, call)
    }
}

impl<'a, R: Wait, G: Gate> Asker for HallSeat<'a, R, G> {
    ghost use Rattle.std.specs.Prelude.{◌==◌};
    ghost use Rattle.cp_hall.specs.Hall.{objects_of};
    ghost use Rattle.cp_turn_hall.specs.Behind.{hall_at_start, seen_for, looked_for, turns_at};

    ghost objects = { λ s. objects_of (hall_at_start s.turnstiles) };

    ghost serves = { λ s n. n == s.number };

    ghost seen = { seen_for };

    ghost looked = { looked_for };

    ghost last_look = { 18446744073709551615 };

    ghost turns = { λ s p. turns_at s.places p };

    ghost last_turn = { 18446744073709551615 };

    ghost stays = { λ s t. (t.turnstiles ≡ s.turnstiles) × (t.number ≡ s.number) };

    ghost use Rattle.std.proofs.Common.{◌≡◌, refl, ◌∙◌};

    ghost stays_here = { λ s. (refl, refl) };

    ghost stays_on = { λ r s t a b. (b.0 ∙ a.0, b.1 ∙ a.1) };

    fn ask(&mut self, object: u32, _caller: u32, call: &Call) -> Asked {
        self.ask_object(object, call)
    }
}
