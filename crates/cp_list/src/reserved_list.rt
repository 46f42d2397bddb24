ghost use Rattle.std.specs.Prelude.{◌≡◌, ℕ, ◌+◌, ◌-◌, ◌<◌, ◌≤◌, ◌↔◌, [], ◌∷◌, ◌++◌, length, slice_get, slice_set, IsTrue, OnOk, OnErr, OnSome, IfOk, MatchOption};
ghost use Rattle.std.specs.Option.{option_copied};

use crate::list_of::ListOf;
use std::alloc::{AllocError, Global};
use std::marker::Model;

/// A list of at most `u32::MAX` items that grows in room taken ahead. Contracts see its items in order and, beside
/// them, `spare`: how many more items are sure to fit without taking memory.
#[derive(Debug, Drop)]
pub struct ReservedList<T> {
    items: Vec<T>,
    spare: u32,
}

impl<T> Model for ReservedList<T> {
    ghost use Rattle.std.specs.Prelude.{◌+◌, ◌<◌, ◌≤◌, ◌^◌, length};
    ghost use Rattle.std.specs.Vec.{vec_len, vec_capacity};
    ghost use Rattle.cp_list.specs.ReservedList.{ReservedList as Listed, reserved_list_code};

    ghost Value = { Listed T };

    ghost coded = { reserved_list_code T.code };

    ghost view = { λ l. record { items = l.items.items; spare = l.spare } };

    ghost invariant = { λ l. (vec_len l.items + l.spare < 2 ^ 32) × (vec_len l.items + l.spare ≤ vec_capacity l.items) };
}

impl<T> ReservedList<T> {
    /// The empty list. It takes no memory.
    pub fn new(alloc: Global) -> Self
        ensures items { result.items ≡ [] }
        ensures spare { result.spare ≡ 0 }
    {
        ReservedList {
            items: Vec::new(alloc),
            spare: 0,
        }
    }

    pub fn len(&self) -> u32
        ensures { result ≡ length self.now.items }
    {
        self.items.len() as u32
    }

    pub fn is_empty(&self) -> bool
        ensures { IsTrue result ↔ (self.now.items ≡ []) }
    {
        self.items.is_empty()
    }

    /// How many more items are sure to fit without taking memory.
    pub fn spare(&self) -> u32
        ensures { result ≡ self.now.spare }
    {
        self.spare
    }

    /// The item at a place from 0.
    pub fn get(&self, at: u32) -> Option<&T>
        ensures value { option_copied result ≡ slice_get self.now.items at }
        ensures within { OnSome result (at < length self.now.items) }
    {
        self.items.get(at as usize)
    }

    /// Lends the items.
    pub fn as_slice(&self) -> &[T]
        ensures { result.now ≡ self.now.items }
    {
        self.items.as_slice()
    }

    /// The items as a list. It takes no memory.
    pub fn into_list(self) -> ListOf<T>
        ensures { result ≡ self.items }
    {
        let ReservedList { items, spare: _ } = self;
        ListOf::from_vec(items)
    }

    /// The items of a list, with no room taken ahead. It takes no memory.
    pub fn from_list(list: ListOf<T>) -> Self
        ensures items { result.items ≡ list }
        ensures spare { result.spare ≡ 0 }
    {
        ReservedList {
            items: list.into_vec(),
            spare: 0,
        }
    }

    /// Takes out the last item.
    pub fn pop(&mut self) -> Option<T>
        ensures item { MatchOption result ((self.old.items ≡ []) × (self.new.items ≡ [])) (λ last. self.old.items ≡ self.new.items ++ last ∷ []) }
        ensures spare { self.old.spare ≡ self.new.spare }
    {
        self.items.pop()
    }

    /// Makes `spare` at least `more`.
    pub fn reserve(&mut self, more: u32) -> Result<(), AllocError>
        ensures items { self.new.items ≡ self.old.items }
        ensures ok { OnOk result ((more ≤ self.new.spare) × (self.old.spare ≤ self.new.spare)) }
        ensures err { OnErr result (self.new ≡ self.old) }
    {
        if more <= self.spare {
            return Ok(());
        }
        if u32::MAX - self.len() < more {
            return Err(AllocError);
        }
        self.items.reserve(more as usize)?;
        self.spare = more;
        Ok(())
    }
}

impl<T: Drop> ReservedList<T> {
    /// Adds the item at the end. A refused push drops it and changes nothing.
    pub fn push(&mut self, item: T) -> Result<(), AllocError>
        ensures ok { OnOk result (self.new.items ≡ self.old.items ++ item ∷ []) }
        ensures kept { OnOk result (self.new.spare ≡ self.old.spare) }
        ensures err { OnErr result (self.new ≡ self.old) }
    {
        if u32::MAX - self.len() <= self.spare {
            return Err(AllocError);
        }
        self.items.reserve(self.spare as usize + 1)?;
        self.items.push(item)?;
        Ok(())
    }

    /// Adds the item at the end, in room that was reserved.
    pub fn put(&mut self, item: T)
        requires { 0 < self.old.spare }
        ensures items { self.new.items ≡ self.old.items ++ item ∷ [] }
        ensures spare { self.new.spare + 1 ≡ self.old.spare }
    {
        match self.items.push(item) {
            Ok(()) => self.spare -= 1,
            Err(_) => unreachable!(),
        }
    }
}
