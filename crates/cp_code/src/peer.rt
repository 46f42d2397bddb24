use cp_io::Bytes;
use cp_list::ListOf;
use cp_term::Name;

/// An active module that a program calls, and the address at which it is served.
#[derive(Debug, Drop)]
pub struct Peer {
    pub module: Name,
    pub address: Bytes,
}

/// The active modules of a program.
pub type Peers = ListOf<Peer>;
