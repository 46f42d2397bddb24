ghost use Rattle.std.specs.Prelude.{◌≡◌, None};

use super::{receive_some, send_all};
use crate::dialer::Dialer;
use crate::link::{Link, LinkFault, Received};
use std::alloc::AllocError;
use std::net::{Net, TcpStream};
use std::str;

/// What dials peers by TCP. An address is a host's name or number, a colon and a port. Without a connection a send fails,
/// and a receive sees the end.
#[derive(Drop)]
pub struct TcpDialer<'a, R: Net<Stream = TcpStream>> {
    rt: &'a R,
    stream: Option<TcpStream>,
    faults: u64,
}

impl<'a, R: Net<Stream = TcpStream>> TcpDialer<'a, R> {
    pub fn new(rt: &'a R) -> Self
        ensures { result.faults ≡ 0 }
    {
        TcpDialer {
            rt,
            stream: None,
            faults: 0,
        }
    }
}

impl<R: Net<Stream = TcpStream>> Link for TcpDialer<'_, R> {
    ghost arriving = { λ _. None };

    ghost sent = { λ _. None };

    ghost faults = { λ d. d.faults };

    fn send(&mut self, piece: &[u8]) -> Result<(), LinkFault> {
        let sent = match &mut self.stream {
            Some(stream) => send_all(stream, piece),
            None => Err(LinkFault),
        };
        if sent.is_err() {
            self.faults = self.faults.saturating_add(1);
        }
        sent
    }

    fn recv(&mut self, into: &mut [u8]) -> Received {
        let received = match &mut self.stream {
            Some(stream) => receive_some(stream, into),
            None => Received::End,
        };
        if received == Received::Fault {
            self.faults = self.faults.saturating_add(1);
        }
        received
    }
}

impl<'a, R: Net<Stream = TcpStream>> Dialer for TcpDialer<'a, R> {
    fn part(&mut self, _engine: u32) -> Result<TcpDialer<'a, R>, AllocError> {
        Ok(TcpDialer::new(self.rt))
    }

    fn dial(&mut self, address: &[u8]) -> Result<(), LinkFault> {
        match connect(self.rt, address) {
            Some(stream) => {
                self.stream = Some(stream);
                Ok(())
            }
            None => {
                self.faults = self.faults.saturating_add(1);
                Err(LinkFault)
            }
        }
    }

    fn hang_up(&mut self) {
        self.stream = None;
    }
}

fn connect<R: Net<Stream = TcpStream>>(rt: &R, address: &[u8]) -> Option<TcpStream> {
    let text = str::from_utf8(address).ok()?;
    TcpStream::connect(rt, text).ok()
}
