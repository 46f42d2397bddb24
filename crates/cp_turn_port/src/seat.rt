ghost use Rattle.std.specs.Prelude.{◌≡◌};
ghost use Rattle.cp_turn.specs.Passes.{IsOutside};

use crate::turnstile::{PortPass, TurnPort};
use cp_call::{PutReply, Writer};
use cp_io::{Bytes, Sink};
use std::alloc::AllocError;
use std::marker::Model;
use std::sync::Wait;

/// One caller at a port behind a turnstile: it writes for the caller's own number, and waits for a turn at each write.
#[derive(Drop)]
pub struct PortSeat<'a, R: Wait, S: Sink> {
    rt: &'a R,
    turn: &'a TurnPort<S>,
    pass: PortPass<S>,
}

impl<'a, R: Wait, S: Sink> Model for PortSeat<'a, R, S> {
    ghost use Rattle.cp_turn.specs.Passes.{IsOutside};
    ghost use Rattle.cp_turn_port.specs.Seat.{PortSeatView};

    ghost Value = { PortSeatView S };

    ghost view = { λ s. record { turn = s.turn.now; pass = s.pass } };

    ghost invariant = { λ s. IsOutside s.turn.now s.pass };
}

impl<'a, R: Wait, S: Sink> PortSeat<'a, R, S> {
    pub(crate) fn new(turn: &'a TurnPort<S>, rt: &'a R, pass: PortPass<S>) -> PortSeat<'a, R, S>
        requires { IsOutside turn.now pass }
        ensures { result ≡ record { turn = turn.entry.now; pass = pass } }
    {
        PortSeat { rt, turn, pass }
    }

    /// The number that it writes for.
    pub fn number(&self) -> u32
        ensures { result ≡ self.now.pass.number }
    {
        self.pass.number()
    }

    /// The pass, with all that it has seen. It takes no memory.
    pub fn into_pass(self) -> PortPass<S>
        ensures pass { result ≡ self.entry.pass }
        ensures outside { IsOutside self.entry.turn result }
    {
        let PortSeat {
            rt: _,
            turn: _,
            pass,
        } = self;
        pass
    }
}

impl<'a, R: Wait, S: Sink> Writer for PortSeat<'a, R, S> {
    ghost use Rattle.std.proofs.Common.{◌≡◌, refl, ◌∙◌};
    ghost use Rattle.cp_turn_port.specs.Seat.{writes_for, wrote_for, IsSeatOf};

    ghost serves = { writes_for };

    ghost wrote = { wrote_for };

    ghost stays = { λ s t. IsSeatOf s t };

    ghost stays_here = { λ s. record { turn = refl; number = refl } };

    ghost stays_on = { λ r s t a b. record { turn = b.turn ∙ a.turn; number = b.number ∙ a.number } };

    fn write(&mut self, engine: u32, bytes: &Bytes) -> Result<PutReply, AllocError> {
        let turn = self.turn;
        let mut turned = turn.turnstile.enter(self.rt, &mut self.pass);
        let reply = turned.put(engine, bytes);
        turn.turnstile.leave(&mut self.pass, turned);
        reply
    }
}
