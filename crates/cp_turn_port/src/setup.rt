ghost use Rattle.std.specs.Prelude.{◌≡◌, ◌<◌, IfOk, IfErr};
ghost use Rattle.cp_turn.specs.Passes.{AreFresh};

use crate::turned_port::TurnedPort;
use crate::turnstile::{PortPasses, TurnPort};
use cp_io::Sink;
use cp_out::Port;
use cp_turn::make;
use std::alloc::Global;

/// Puts a port behind a turnstile, with the passes of the callers 1 to `callers`. For want of memory the port comes back.
pub fn turn_port<S: Sink>(
    alloc: Global,
    port: Port<S>,
    callers: u32,
) -> Result<(TurnPort<S>, PortPasses<S>), Port<S>>
    requires some { 0 < callers }
    ensures made { IfOk result (λ m. (m.0.callers ≡ callers) × (m.0.base ≡ port) × AreFresh m.0 m.1) }
    ensures refused { IfErr result (λ p. p ≡ port) }
{
    match make(alloc, TurnedPort::new(port), callers) {
        Ok((turnstile, passes)) => Ok((TurnPort { turnstile }, passes)),
        Err(turned) => Err(turned.into_port()),
    }
}
