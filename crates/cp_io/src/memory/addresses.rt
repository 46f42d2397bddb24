ghost use Rattle.std.specs.Prelude.{◌≡◌, ◌+◌, ◌<◌, ◌≤◌, [], ◌∷◌, ◌++◌, length, IfOk, IsTrue, false};
ghost use Rattle.cp_io.specs.Addresses.{room_of};

use super::sink::put_all;
use cp_list::ReservedList;
use std::alloc::{AllocError, Global};
use std::marker::Model;

/// Addresses one after another, in room for a stated number of bytes. An empty one takes the room of one byte.
#[derive(Debug, Drop)]
pub struct Addresses {
    text: ReservedList<u8>,
    lengths: ReservedList<u32>,
    room: u32,
}

impl Model for Addresses {
    ghost use Rattle.std.specs.Prelude.{◌≡◌, ◌≤◌, length};
    ghost use Rattle.cp_io.specs.Addresses.{AddressesView, pieces, total};

    ghost Value = { AddressesView };

    ghost view = { λ a. record { list = pieces a.lengths.items a.text.items; room = a.room } };

    ghost invariant = { λ a. (total a.lengths.items ≡ length a.text.items) × (a.room ≤ a.text.spare) × (a.room ≤ a.lengths.spare) };
}

impl Addresses {
    pub fn new(alloc: Global, room: u32) -> Result<Addresses, AllocError>
        ensures list { IfOk result (λ addresses. addresses.list ≡ []) }
        ensures room { IfOk result (λ addresses. addresses.room ≡ room) }
    {
        let mut text = ReservedList::new(alloc);
        text.reserve(room)?;
        let mut lengths = ReservedList::new(alloc);
        lengths.reserve(room)?;
        Ok(Addresses {
            text,
            lengths,
            room,
        })
    }

    /// Adds an address if it fits, and says whether it did.
    pub fn add(&mut self, address: &[u8]) -> bool
        ensures added { IsTrue result → self.new.list ≡ self.old.list ++ address.now ∷ [] }
        ensures fits { IsTrue result → self.new.room + room_of address.now ≡ self.old.room }
        ensures same { result ≡ false → self.new ≡ self.old }
        ensures full { result ≡ false → self.old.room < room_of address.now }
    {
        let size = size_of(address);
        if size > self.room as usize {
            return false;
        }
        put_all(&mut self.text, address);
        self.lengths.put(address.len() as u32);
        self.room -= size as u32;
        true
    }
}

/// The room that an address takes.
fn size_of(address: &[u8]) -> usize
    ensures size { result ≡ room_of address.now }
    ensures some { 0 < result }
    ensures bytes { length address.now ≤ result }
{
    if address.is_empty() { 1 } else { address.len() }
}
