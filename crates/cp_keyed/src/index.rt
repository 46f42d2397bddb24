ghost use Rattle.std.specs.Prelude.{◌≡◌, ◌++◌, not, filter, [], ◌∷◌, IfOk, OnOk, MatchOption, None, Some};
ghost use Rattle.std.specs.Ordering.{int_cmp};
ghost use Rattle.std.specs.Option.{option_copied};
ghost use Rattle.std.specs.BTreeMap.{insert_entry};
ghost use Rattle.cp_keyed.specs.Index.{AreAbove, AreAscending, AreBelow, AreRight, IsRight, is_among, row_at, tried, without};

use crate::keyed::{Keyed, Spot};
use crate::maps::{give_up, is_ahead, put_in, take_all_out, take_out};
use crate::search::{next_number, row_agreeing};
use cp_counted::Key;
use std::alloc::{AllocError, Global};
use std::collections::{BTreeMap, BTreeSet};
use std::marker::Model;

/// Rows by number, which are found by key too. Contracts see the rows in order of number, and beside them the rows with
/// the one that was placed ahead: a map takes memory where a row is added, so that what is to be added later without
/// taking memory is placed ahead, and is no row until it is shown.
///
/// With n rows each call takes time for a logarithm of n, but for those that say so. No clause speaks of the time.
#[derive(Drop)]
pub struct Index<T: Keyed> {
    rows: BTreeMap<i64, T, Global>,
    spots: BTreeSet<Spot, Global>,
    ahead: Option<Spot>,
}

impl<T: Keyed> Model for Index<T> {
    ghost use Rattle.cp_keyed.specs.Index.{IndexView, IsAhead, IsIndexed, seen};

    ghost Value = { IndexView T };

    ghost view = { λ x. record { rows = seen x.ahead x.rows.entries; whole = x.rows.entries } };

    ghost invariant = { λ x. IsIndexed T.key x.rows x.spots × IsAhead x.spots x.ahead };
}

impl<T: Keyed + Drop> Index<T> {
    /// No rows. It takes no memory.
    pub fn new(alloc: Global) -> Index<T>
        ensures rows { result.rows ≡ [] }
        ensures whole { result.whole ≡ [] }
    {
        Index {
            rows: BTreeMap::new(alloc),
            spots: BTreeSet::new(alloc),
            ahead: None,
        }
    }

    /// The row with this number.
    pub fn get(&self, number: i64) -> Option<&T>
        ensures { option_copied result ≡ row_at number self.now.rows }
    {
        if is_ahead(&self.ahead, number) {
            return None;
        }
        self.rows.get(&number)
    }

    /// The first row above `after` whose key agrees, with its number.
    pub fn first_agreeing(
        &self,
        key: &Key,
        after: Option<i64>,
    ) -> Result<Option<(i64, &T)>, AllocError>
        ensures found { IfOk result (λ found. MatchOption found (tried T.key key.now after self.now.whole ≡ []) (λ e. tried T.key key.now after self.now.whole ≡ (e.0, e.1.now) ∷ tried T.key key.now (Some e.0) self.now.whole)) }
        ensures ascending { AreAscending self.now.whole }
    {
        row_agreeing(&self.rows, &self.spots, key, after)
    }

    /// A number above those of all rows.
    pub fn next_number(&self) -> Result<i64, AllocError>
        ensures { IfOk result (λ number. AreBelow number self.now.whole) }
    {
        next_number(&self.rows)
    }

    /// Gives up the row that was placed ahead. It takes no memory.
    pub fn drop_ahead(&mut self)
        ensures rows { self.new.rows ≡ self.old.rows }
        ensures whole { self.new.whole ≡ self.old.rows }
    {
        let ahead = self.ahead.take();
        give_up(&mut self.rows, &mut self.spots, ahead);
    }

    /// Places a row ahead, in front of all others, and gives up the one that was placed ahead before.
    pub fn put_front(&mut self, key: Key, number: i64, row: T) -> Result<(), AllocError>
        requires key { key ≡ T.key row }
        requires front { AreAbove number self.old.rows }
        ensures rows { self.new.rows ≡ self.old.rows }
        ensures whole { OnOk result (self.new.whole ≡ (number, row) ∷ self.old.rows) }
    {
        self.put_ahead(key, number, row)
    }

    /// Places a row ahead, behind all others, and gives up the one that was placed ahead before.
    pub fn put_back(&mut self, key: Key, number: i64, row: T) -> Result<(), AllocError>
        requires key { key ≡ T.key row }
        requires back { AreBelow number self.old.rows }
        ensures rows { self.new.rows ≡ self.old.rows }
        ensures whole { OnOk result (self.new.whole ≡ self.old.rows ++ (number, row) ∷ []) }
    {
        self.put_ahead(key, number, row)
    }

    /// Places a row ahead, under a number that no row has.
    fn put_ahead(&mut self, key: Key, number: i64, row: T) -> Result<(), AllocError>
        requires key { key ≡ T.key row }
        requires fresh { row_at number self.old.rows ≡ None }
        ensures rows { self.new.rows ≡ self.old.rows }
        ensures whole { OnOk result (self.new.whole ≡ insert_entry int_cmp self.old.rows number row) }
    {
        self.drop_ahead();
        let spot = put_in(&mut self.rows, &mut self.spots, key, number, row)?;
        self.ahead = Some(spot);
        Ok(())
    }

    /// What was placed ahead is a row now. It takes no memory.
    pub fn show(&mut self)
        ensures rows { self.new.rows ≡ self.old.whole }
        ensures whole { self.new.whole ≡ self.old.whole }
        ensures ascending { AreAscending self.new.whole }
    {
        self.ahead = None;
    }

    /// Takes out the row of a spot, if there is one, after what was placed ahead became a row. It takes no memory.
    pub fn remove(&mut self, spot: &Spot)
        requires { IsRight T.key self.old.whole spot.now }
        ensures rows { self.new.rows ≡ without spot.now.1 self.old.whole }
        ensures whole { self.new.whole ≡ without spot.now.1 self.old.whole }
    {
        self.ahead = None;
        take_out(&mut self.rows, &mut self.spots, spot);
    }

    /// Takes out the rows of these spots, after what was placed ahead became a row. It takes no memory.
    pub fn remove_all(&mut self, spots: &[Spot])
        requires { AreRight T.key self.old.whole spots.now }
        ensures rows { self.new.rows ≡ filter (λ e. not (is_among spots.now e.0)) self.old.whole }
        ensures whole { self.new.whole ≡ filter (λ e. not (is_among spots.now e.0)) self.old.whole }
    {
        self.ahead = None;
        take_all_out(&mut self.rows, &mut self.spots, spots);
    }

    /// Takes out all rows. Its time is that of all of them.
    pub fn clear(&mut self)
        ensures rows { self.new.rows ≡ [] }
        ensures whole { self.new.whole ≡ [] }
    {
        self.ahead = None;
        self.spots.clear();
        self.rows.clear();
    }

    /// The rows in a map. What was placed ahead is given up.
    pub fn into_rows(self) -> BTreeMap<i64, T, Global>
        ensures { result.entries ≡ self.rows }
    {
        let mut index = self;
        index.drop_ahead();
        let Index {
            rows,
            spots: _,
            ahead: _,
        } = index;
        rows
    }
}
