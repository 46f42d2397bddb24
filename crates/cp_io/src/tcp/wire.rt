ghost use Rattle.std.specs.Prelude.{◌≡◌, None};

use super::{receive_some, send_all};
use crate::link::{Link, LinkFault, Received};
use std::net::TcpStream;

/// A TCP connection that came to a door. It is closed where it is dropped.
#[derive(Drop)]
pub struct TcpWire {
    stream: TcpStream,
    faults: u64,
}

impl TcpWire {
    pub(super) fn new(stream: TcpStream) -> TcpWire
        ensures { result.faults ≡ 0 }
    {
        TcpWire { stream, faults: 0 }
    }
}

impl Link for TcpWire {
    ghost arriving = { λ _. None };

    ghost sent = { λ _. None };

    ghost faults = { λ w. w.faults };

    fn send(&mut self, piece: &[u8]) -> Result<(), LinkFault> {
        let sent = send_all(&mut self.stream, piece);
        if sent.is_err() {
            self.faults = self.faults.saturating_add(1);
        }
        sent
    }

    fn recv(&mut self, into: &mut [u8]) -> Received {
        let received = receive_some(&mut self.stream, into);
        if received == Received::Fault {
            self.faults = self.faults.saturating_add(1);
        }
        received
    }
}
