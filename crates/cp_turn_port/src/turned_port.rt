ghost use Rattle.std.specs.Prelude.{◌≡◌, [], ◌∷◌, ◌++◌, IfOk, OnErr};
ghost use Rattle.cp_out.specs.Port.{GoesOn};
ghost use Rattle.cp_turn_port.specs.Port.{turned_entries};

use cp_call::{OutEntry, PutReply};
use cp_io::{Bytes, Sink};
use cp_out::Port;
use cp_turn::Ledgered;
use std::alloc::AllocError;
use std::marker::Model;
use std::snapshot::Snapshot;

/// A port, and what it was when it went behind its turnstile.
#[derive(Drop)]
pub struct TurnedPort<S: Sink> {
    first: Snapshot<Port<S>>,
    port: Port<S>,
}

impl<S: Sink> Model for TurnedPort<S> {
    ghost use Rattle.cp_out.specs.Port.{GoesOn};
    ghost use Rattle.cp_turn_port.specs.Port.{TurnedView};

    ghost Value = { TurnedView S };

    ghost view = { λ t. record { first = t.first.value; port = t.port } };

    ghost invariant = { λ t. GoesOn t.first.value t.port };
}

impl<S: Sink> Ledgered for TurnedPort<S> {
    ghost use Rattle.cp_turn_port.specs.Port.{turned_entries};

    type Entry = OutEntry;

    type Basis = Port<S>;

    ghost by = { λ e. e.engine };

    ghost entries = { turned_entries };

    ghost base = { λ t. t.first };
}

impl<S: Sink> TurnedPort<S> {
    /// A port as it goes behind a turnstile. It takes no memory.
    pub(crate) fn new(port: Port<S>) -> TurnedPort<S>
        ensures { result ≡ record { first = port; port = port } }
    {
        TurnedPort {
            first: Snapshot::of(&port),
            port,
        }
    }

    /// Puts the bytes, as the port does.
    pub(crate) fn put(&mut self, engine: u32, bytes: &Bytes) -> Result<PutReply, AllocError>
        ensures first { self.new.first ≡ self.old.first }
        ensures entry { IfOk result (λ reply. turned_entries self.new ≡ turned_entries self.old ++ record { engine = engine; bytes = bytes.now; reply = reply } ∷ []) }
        ensures err { OnErr result (turned_entries self.new ≡ turned_entries self.old) }
    {
        self.port.put(engine, bytes)
    }

    /// The port itself. It takes no memory.
    pub(crate) fn into_port(self) -> Port<S>
        ensures port { result ≡ self.port }
        ensures entries { result.entries ≡ self.first.entries ++ turned_entries self }
        ensures later { GoesOn self.first result }
    {
        let TurnedPort { first: _, port } = self;
        port
    }
}
