ghost use Rattle.std.specs.Prelude.{◌≡◌, ◌≢◌, ℕ, [], ◌++◌, List, All, length};
ghost use Rattle.cp_list.specs.Lists.{own};
ghost use Rattle.cp_call.specs.declared.outcome.OutEntry.{OutEntry};
ghost use Rattle.cp_out.specs.Port.{GoesOn};
ghost use Rattle.cp_turn.specs.Passes.{IsOutside, ExtendsSeen};

use crate::seat::PortSeat;
use crate::turned_port::TurnedPort;
use cp_io::Sink;
use cp_out::Port;
use cp_turn::{Pass, Passes, Turnstile};
use std::marker::Model;
use std::sync::Wait;

/// The right of one caller to take turns at the port.
pub type PortPass<S> = Pass<TurnedPort<S>>;

/// Passes of a port, in a list.
pub type PortPasses<S> = Passes<TurnedPort<S>>;

/// The output port behind a turnstile. Contracts see the turnstile, whose base is the port as it went there.
#[derive(Drop)]
pub struct TurnPort<S: Sink> {
    pub(crate) turnstile: Turnstile<TurnedPort<S>>,
}

impl<S: Sink> Model for TurnPort<S> {
    ghost use Rattle.cp_out.specs.Port.{PortView};
    ghost use Rattle.cp_turn.specs.Passes.{TurnstileView};

    ghost Value = { TurnstileView (PortView S) };

    ghost view = { λ t. t.turnstile };
}

impl<S: Sink> TurnPort<S> {
    /// The seat of the caller of a pass. It takes no memory.
    pub fn seat<'a, R: Wait>(&'a self, rt: &'a R, pass: PortPass<S>) -> PortSeat<'a, R, S>
        requires { IsOutside self.now pass }
        ensures { result ≡ record { turn = self.entry.now; pass = pass } }
    {
        PortSeat::new(self, rt, pass)
    }

    /// Ends the turns, where all passes are back, and hands the port out. It has the entries that it had before, and then
    /// those that the callers put there, of which each pass has seen a beginning with all of its caller's own.
    pub fn close(self, passes: PortPasses<S>) -> Port<S>
        requires own { All (IsOutside self) passes }
        requires all { length passes ≡ self.callers }
        ensures goes_on { GoesOn self.base result }
        ensures entries { (later : List OutEntry) × (result.entries ≡ self.base.entries ++ later) × All (ExtendsSeen (λ (e : OutEntry). e.engine) later) passes × ((n : ℕ) → All (λ p. p.number ≢ n) passes → own (λ (e : OutEntry). e.engine) n later ≡ []) }
    {
        let TurnPort { turnstile } = self;
        turnstile.close(passes).into_port()
    }
}
