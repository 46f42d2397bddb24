ghost use Rattle.std.specs.Prelude.{◌≡◌, ◌+◌, ◌≤◌, min, None, Some, [], ◌++◌, length, take, IfOk, IsTrue, IsSome, false};
ghost use Rattle.cp_io.specs.Calls.{counted, failure_of};
ghost use Rattle.cp_io.specs.Cause.{HasCause, Rose};
ghost use Rattle.cp_io.specs.Content.{Grows};
ghost use Rattle.cp_io.specs.Memory.{Puts, most_taken};

use super::Fails;
use super::calls::Calls;
use crate::sink::{Sink, SinkFault};
use cp_list::ReservedList;
use std::alloc::{AllocError, Global};
use std::marker::Model;

/// A sink in memory, with room for a stated number of bytes. A piece past that room is a fault, and what fits is held.
#[derive(Debug, Drop)]
pub struct MemSink {
    held: ReservedList<u8>,
    // how many bytes more it may hold
    room: u32,
    calls: Calls,
    faults: u64,
}

impl Model for MemSink {
    ghost use Rattle.std.specs.Prelude.{◌≤◌};
    ghost use Rattle.cp_io.specs.Memory.{SinkView};

    ghost Value = { SinkView };

    ghost view = { λ s. record { held = s.held.items; room = s.room; calls = s.calls; faults = s.faults } };

    ghost invariant = { λ s. s.room ≤ s.held.spare };
}

impl MemSink {
    pub fn new(alloc: Global, room: u32, fails: Fails) -> Result<MemSink, AllocError>
        ensures held { IfOk result (λ sink. sink.held ≡ []) }
        ensures room { IfOk result (λ sink. sink.room ≡ room) }
        ensures calls { IfOk result (λ sink. sink.calls ≡ record { fails = fails; made = 0 }) }
        ensures faults { IfOk result (λ sink. sink.faults ≡ 0) }
    {
        let mut held = ReservedList::new(alloc);
        held.reserve(room)?;
        Ok(MemSink {
            held,
            room,
            calls: Calls::new(fails),
            faults: 0,
        })
    }

    pub fn held(&self) -> &[u8]
        ensures { result.now ≡ self.now.held }
    {
        self.held.as_slice()
    }

    pub fn faults(&self) -> u64
        ensures { result ≡ self.now.faults }
    {
        self.faults
    }

    /// Counts a call that puts nothing, and a fault where it is to fail.
    pub(super) fn next_call_fails(&mut self) -> bool
        ensures held { self.new.held ≡ self.old.held }
        ensures room { self.new.room ≡ self.old.room }
        ensures calls { self.new.calls ≡ counted self.old.calls }
        ensures later { self.old.faults ≤ self.new.faults }
        ensures fault { IsTrue result → IsSome (failure_of self.old.calls) × Rose self.old.faults self.new.faults }
        ensures no_fault { result ≡ false → (failure_of self.old.calls ≡ None) × (self.new.faults ≡ self.old.faults) }
    {
        if self.calls.next().is_none() {
            return false;
        }
        self.count_fault();
        true
    }

    pub(super) fn count_fault(&mut self)
        ensures held { self.new.held ≡ self.old.held }
        ensures room { self.new.room ≡ self.old.room }
        ensures calls { self.new.calls ≡ self.old.calls }
        ensures later { self.old.faults ≤ self.new.faults }
        ensures fault { Rose self.old.faults self.new.faults }
    {
        self.faults = self.faults.saturating_add(1);
    }

    pub(super) fn calls(&self) -> &Calls
        ensures { result.now ≡ self.now.calls }
    {
        &self.calls
    }
}

impl Sink for MemSink {
    ghost held = { λ s. Some s.held };

    ghost faults = { λ s. s.faults };

    fn put(&mut self, piece: &[u8]) -> Result<(), SinkFault>
        ensures held { Grows (Some self.old.held) piece.now result (Some self.new.held) }
        ensures cause { HasCause self.old.faults self.new.faults result }
        ensures puts { Puts self.old.held self.old.room self.old.calls piece.now result self.new.held self.new.room self.new.calls }
    {
        let failure = self.calls.next();
        let most = most_of(failure, piece);
        let count = most.min(self.room as usize);
        put_all(&mut self.held, &piece[..count]);
        self.room -= count as u32;
        if failure.is_none() && count == piece.len() {
            return Ok(());
        }
        self.faults = self.faults.saturating_add(1);
        Err(SinkFault)
    }
}

/// How many bytes of a piece a call may take.
fn most_of(failure: Option<u32>, piece: &[u8]) -> usize
    ensures { result ≡ most_taken failure piece.now }
{
    match failure {
        Some(taken) => (taken as usize).min(piece.len()),
        None => piece.len(),
    }
}

pub(super) fn put_all(held: &mut ReservedList<u8>, bytes: &[u8])
    requires { length bytes.now ≤ held.old.spare }
    ensures items { held.new.items ≡ held.old.items ++ bytes.now }
    ensures spare { held.new.spare + length bytes.now ≡ held.old.spare }
{
    for byte in bytes {
        held.put(*byte);
    }
}
