ghost use Rattle.std.specs.Prelude.{◌≡◌, ◌⊎◌, ◌<◌, Bool, true, false, [], ◌∷◌, ◌++◌, OnErr, IfOk};
ghost use Rattle.cp_call.specs.declared.item.PutReply.{PutReply};
ghost use Rattle.cp_io.specs.Cause.{Rose};
ghost use Rattle.cp_out.specs.Port.{any_failed, is_failure, GrewBy, IsCaused, Records};

use cp_call::{OutEntries, OutEntry, PutReply, Writer};
use cp_io::{Bytes, Sink, bytes_of};
use cp_list::ReservedList;
use std::alloc::{AllocError, Global};
use std::marker::Model;
use std::snapshot::Snapshot;

/// The output port over a sink. Contracts see the sink as it was handed in, the entries in order, and the sink as it is.
#[derive(Drop)]
pub struct Port<S: Sink> {
    alloc: Global,
    first: Snapshot<S>,
    entries: ReservedList<OutEntry>,
    sink: S,
    // whether an entry has failed
    failed: bool,
}

impl<S: Sink> Model for Port<S> {
    ghost use Rattle.std.specs.Prelude.{◌≡◌};
    ghost use Rattle.cp_out.specs.Port.{PortView, any_failed, Records};

    ghost Value = { PortView S };

    ghost view = { λ p. record { first = p.first.value; entries = p.entries.items; sink = p.sink } };

    ghost invariant = { λ p. (p.failed ≡ any_failed p.entries.items) × Records S.held S.faults p.first.value p.entries.items p.sink };
}

impl<S: Sink> Port<S> {
    /// A port with no entries. It takes no memory.
    pub fn new(alloc: Global, sink: S) -> Port<S>
        ensures first { result.first ≡ sink }
        ensures entries { result.entries ≡ [] }
        ensures sink { result.sink ≡ sink }
    {
        Port {
            alloc,
            first: Snapshot::of(&sink),
            entries: ReservedList::new(alloc),
            sink,
            failed: false,
        }
    }

    /// Puts the bytes on the sink and adds an entry with the reply. Memory for the entry is taken first. Once a put has
    /// failed, the sink is not called again, and every later put fails.
    pub fn put(&mut self, engine: u32, bytes: &Bytes) -> Result<PutReply, AllocError>
        ensures first { self.new.first ≡ self.old.first }
        ensures entry { IfOk result (λ reply. self.new.entries ≡ self.old.entries ++ record { engine = engine; bytes = bytes.now; reply = reply } ∷ []) }
        ensures err { OnErr result (self.new ≡ self.old) }
        ensures grew { any_failed self.old.entries ≡ false → IfOk result (λ reply. GrewBy (S.held self.old.sink) bytes.now reply (S.held self.new.sink)) }
        ensures caused { any_failed self.old.entries ≡ false → IfOk result (λ reply. IsCaused (S.faults self.old.sink) (S.faults self.new.sink) reply) }
        ensures failed { any_failed self.old.entries ≡ true → IfOk result (λ reply. reply ≡ PutReply.Failed) }
        ensures not_called { any_failed self.old.entries ≡ true → self.new.sink ≡ self.old.sink }
        ensures cause { IfOk result (λ reply. reply ≡ PutReply.Failed → Rose (S.faults self.old.sink) (S.faults self.new.sink) ⊎ (0 < S.faults self.old.sink)) }
    {
        let copy = bytes_of(self.alloc, bytes.as_slice())?;
        self.entries.reserve(1)?;
        let reply = put_unless(self.failed, &mut self.sink, bytes.as_slice());
        self.failed = is_failed(reply);
        self.entries.put(OutEntry {
            engine,
            bytes: copy,
            reply,
        });
        Ok(reply)
    }

    /// Whether a put has failed.
    pub fn has_failed(&self) -> bool
        ensures { result ≡ any_failed self.now.entries }
    {
        self.failed
    }

    /// States what holds of every port, for a caller who needs it: the entries tell what was put on the sink. It does nothing.
    pub fn state_invariant(&self)
        ensures { Records S.held S.faults self.now.first self.now.entries self.now.sink }
    {
        let _entries = &self.entries;
    }

    /// The sink and the entries. It takes no memory.
    pub fn into_parts(self) -> (S, OutEntries)
        ensures sink { result.0 ≡ self.sink }
        ensures entries { result.1 ≡ self.entries }
        ensures records { Records S.held S.faults self.first self.entries self.sink }
    {
        let Port {
            alloc: _,
            first: _,
            entries,
            sink,
            failed: _,
        } = self;
        (sink, entries.into_list())
    }
}

/// Puts the piece on the sink, unless it has failed already.
fn put_unless<S: Sink>(failed: bool, sink: &mut S, piece: &[u8]) -> PutReply
    ensures failed { failed ≡ true → result ≡ PutReply.Failed }
    ensures not_called { failed ≡ true → sink.new ≡ sink.old }
    ensures grew { failed ≡ false → GrewBy (S.held sink.old) piece.now result (S.held sink.new) }
    ensures caused { failed ≡ false → IsCaused (S.faults sink.old) (S.faults sink.new) result }
{
    if failed {
        return PutReply::Failed;
    }
    match sink.put(piece) {
        Ok(()) => PutReply::Wrote,
        Err(_) => PutReply::Failed,
    }
}

fn is_failed(reply: PutReply) -> bool
    ensures { result ≡ is_failure reply }
{
    match reply {
        PutReply::Wrote => false,
        PutReply::Failed => true,
    }
}

impl<S: Sink> Writer for Port<S> {
    ghost use Rattle.std.specs.Prelude.{true};
    ghost use Rattle.std.proofs.Common.{◌≡◌, refl, ◌∙◌};
    ghost use Rattle.cp_call.specs.Sound.{own_writes};
    ghost use Rattle.cp_out.specs.Port.{GoesOn, goes_on-here, goes_on-on};

    ghost serves = { λ p n. true };

    ghost wrote = { λ p n. own_writes n p.entries };

    ghost stays = { λ p q. GoesOn p q };

    ghost stays_here = { goes_on-here };

    ghost stays_on = { goes_on-on };

    fn write(&mut self, engine: u32, bytes: &Bytes) -> Result<PutReply, AllocError> {
        self.put(engine, bytes)
    }
}
