//! TCP as links: a wire, a dialer and a door. They tell nothing of what peers send and get.
ghost use Rattle.std.specs.Prelude.{ℕ, ◌<◌, length};
ghost use Rattle.cp_io.specs.Content.{TookSome};

mod dialer;
mod door;
mod wire;

use crate::link::{LinkFault, Received};
pub use dialer::TcpDialer;
pub use door::TcpDoor;
use std::io::{ErrorKind, Read, Write};
use std::net::TcpStream;
pub use wire::TcpWire;

// how often a receive that was interrupted is tried
const TRIES: u32 = 1000;

fn send_all(stream: &mut TcpStream, piece: &[u8]) -> Result<(), LinkFault> {
    match stream.write_all(piece) {
        Ok(()) => Ok(()),
        Err(_) => Err(LinkFault),
    }
}

fn receive_some(stream: &mut TcpStream, into: &mut [u8]) -> Received
    requires { 0 < length into.old }
    ensures { TookSome (length into.old) result }
{
    let room = into.len().min(u32::MAX as usize);
    for _ in 0..TRIES {
        match stream.read(&mut into[..room]) {
            Ok(0) => return Received::End,
            Ok(count) => return Received::Took(count as u32),
            Err(error) => {
                if error.kind() != ErrorKind::Interrupted {
                    return Received::Fault;
                }
            }
        }
    }
    Received::Fault
}
