ghost use Rattle.std.specs.Prelude.{◌≡◌, None};

use super::TcpWire;
use crate::listener::{Accepted, Listener};
use std::io::ErrorKind;
use std::net::{Net, TcpListener, TcpStream};
use std::str;

// how often an accept is tried whose peer has gone
const TRIES: u32 = 1000;

/// What TCP connections come to. They have no end: it never answers `Done`.
#[derive(Drop)]
pub struct TcpDoor {
    // none where the address could not be bound
    listener: Option<TcpListener>,
    faults: u64,
}

impl TcpDoor {
    /// Binds the address: a host's name or number, a colon and a port. Where that fails, each accept is a fault.
    pub fn bind<R>(rt: &R, address: &[u8]) -> TcpDoor
    where
        R: Net<Listener = TcpListener, Stream = TcpStream>,
        ensures { result.faults ≡ 0 }
    {
        TcpDoor {
            listener: bound(rt, address),
            faults: 0,
        }
    }

    /// The port that was bound: where port 0 was asked for, the system has chosen one.
    pub fn port(&self) -> Option<u16> {
        let address = self.listener.as_ref()?.local_addr().ok()?;
        Some(address.port())
    }
}

fn bound<R>(rt: &R, address: &[u8]) -> Option<TcpListener>
where
    R: Net<Listener = TcpListener, Stream = TcpStream>,
{
    let text = str::from_utf8(address).ok()?;
    TcpListener::bind(rt, text).ok()
}

impl Listener for TcpDoor {
    type Wire = TcpWire;

    ghost left = { λ _. None };

    ghost faults = { λ d. d.faults };

    fn accept(&mut self) -> Accepted<TcpWire> {
        match next_stream(&self.listener) {
            Some(stream) => Accepted::Wire(TcpWire::new(stream)),
            None => {
                self.faults = self.faults.saturating_add(1);
                Accepted::Fault
            }
        }
    }
}

/// The next connection, past those whose peers have gone before they were taken.
fn next_stream(listener: &Option<TcpListener>) -> Option<TcpStream> {
    let listener = listener.as_ref()?;
    for _ in 0..TRIES {
        match listener.accept() {
            Ok((stream, _)) => return Some(stream),
            Err(error) => {
                if error.kind() != ErrorKind::ConnectionAborted {
                    return None;
                }
            }
        }
    }
    None
}
