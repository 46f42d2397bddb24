ghost use Rattle.std.specs.Prelude.{◌≡◌, false, [], ◌∷◌, not, filter, IfOk, OnOk, MatchOption, Some};
ghost use Rattle.cp_keyed.specs.Index.{AreAscending, AreRight, IsRight, is_among, tried, without};
ghost use Rattle.cp_factindex.specs.Waiting.{IsAdded, IsSpotOf, is_caller_in, waiter_key};

use crate::numbers::{Numbers, make_room, number_of, set_number};
use crate::waiter::Waiter;
use cp_call::ParkedRow;
use cp_counted::Key;
use cp_keyed::{Index, Keyed, Spot};
use std::alloc::{AllocError, Global};
use std::collections::BTreeMap;
use std::marker::Model;

/// The parked callers by number, in the order in which they were parked, and the number of each. Contracts see the rows,
/// and beside them the rows with the one of a caller that is to be parked without taking memory.
#[derive(Drop)]
pub struct Waiting {
    rows: Index<Waiter>,
    numbers: Numbers,
    ahead: Option<(u32, i64)>,
}

impl Model for Waiting {
    ghost use Rattle.cp_keyed.specs.Index.{IndexView};
    ghost use Rattle.cp_factindex.specs.declared.waiter.Waiter.{Waiter as WaiterSeen};

    ghost Value = { IndexView WaiterSeen };

    ghost view = { λ w. w.rows };

    ghost use Rattle.cp_factindex.specs.Waiting.{IsWaiting};

    ghost invariant = { IsWaiting };
}

impl Waiting {
    /// Nobody is parked. It takes no memory.
    pub fn new(alloc: Global) -> Waiting
        ensures rows { result.rows ≡ [] }
        ensures whole { result.whole ≡ [] }
    {
        Waiting {
            rows: Index::new(alloc),
            numbers: BTreeMap::new(alloc),
            ahead: None,
        }
    }

    /// Whether the caller is parked.
    pub fn is_parked(&self, caller: u32) -> bool
        ensures { result ≡ is_caller_in self.now.rows caller }
    {
        number_of(&self.numbers, caller).is_some()
    }

    /// The first caller behind the number `after` whose key agrees, with its number.
    pub fn first_agreeing(
        &self,
        key: &Key,
        after: Option<i64>,
    ) -> Result<Option<(i64, &Waiter)>, AllocError>
        ensures found { IfOk result (λ found. MatchOption found (tried waiter_key key.now after self.now.whole ≡ []) (λ e. tried waiter_key key.now after self.now.whole ≡ (e.0, e.1.now) ∷ tried waiter_key key.now (Some e.0) self.now.whole)) }
        ensures ascending { AreAscending self.now.whole }
    {
        self.rows.first_agreeing(key, after)
    }

    /// The key and the number of a parked caller.
    pub fn spot_of(&self, caller: u32) -> Result<Option<Spot>, AllocError>
        ensures { IfOk result (λ spot. IsSpotOf self.now.rows caller spot) }
    {
        let Some(number) = number_of(&self.numbers, caller) else {
            return Ok(None);
        };
        match self.rows.get(number) {
            Some(waiter) => Ok(Some((waiter.key()?, number))),
            None => unreachable!(),
        }
    }

    /// Gives up the row that was placed ahead. It takes no memory.
    pub fn drop_ahead(&mut self)
        ensures rows { self.new.rows ≡ self.old.rows }
        ensures whole { self.new.whole ≡ self.old.rows }
    {
        self.ahead = None;
        self.rows.drop_ahead();
    }

    /// Places the row of a caller that is not parked ahead, behind all others.
    pub fn put_ahead(&mut self, row: ParkedRow) -> Result<(), AllocError>
        requires { is_caller_in self.old.rows row.caller ≡ false }
        ensures rows { self.new.rows ≡ self.old.rows }
        ensures whole { OnOk result (IsAdded self.old.rows row self.new.whole) }
    {
        self.drop_ahead();
        let caller = row.caller;
        make_room(&mut self.numbers, caller)?;
        let number = self.rows.next_number()?;
        let waiter = Waiter { row };
        let key = waiter.key()?;
        match self.rows.put_back(key, number, waiter) {
            Ok(()) => {
                self.ahead = Some((caller, number));
                Ok(())
            }
            Err(refused) => {
                self.rows.drop_ahead();
                Err(refused)
            }
        }
    }

    /// The caller whose row was placed ahead is parked now. It takes no memory.
    pub fn show(&mut self)
        ensures rows { self.new.rows ≡ self.old.whole }
        ensures whole { self.new.whole ≡ self.old.whole }
    {
        if let Some((caller, number)) = self.ahead.take() {
            set_number(&mut self.numbers, caller, Some(number));
        }
        self.rows.show();
    }

    /// Takes out the row of a spot, if there is one. It takes no memory.
    pub fn remove(&mut self, spot: &Spot)
        requires { IsRight waiter_key self.old.whole spot.now }
        ensures rows { self.new.rows ≡ without spot.now.1 self.old.whole }
        ensures whole { self.new.whole ≡ without spot.now.1 self.old.whole }
    {
        self.show();
        if let Some(waiter) = self.rows.get(spot.1) {
            let caller = waiter.row.caller;
            set_number(&mut self.numbers, caller, None);
        }
        self.rows.remove(spot);
    }

    /// Takes out the rows of these spots. It takes no memory.
    pub fn remove_all(&mut self, spots: &[Spot])
        requires { AreRight waiter_key self.old.whole spots.now }
        ensures rows { self.new.rows ≡ filter (λ e. not (is_among spots.now e.0)) self.old.whole }
        ensures whole { self.new.whole ≡ filter (λ e. not (is_among spots.now e.0)) self.old.whole }
    {
        self.show();
        for spot in spots {
            self.remove(spot);
        }
    }

    /// Nobody is parked any more. It takes no memory.
    pub fn clear(&mut self)
        ensures rows { self.new.rows ≡ [] }
        ensures whole { self.new.whole ≡ [] }
    {
        self.ahead = None;
        self.numbers.clear();
        self.rows.clear();
    }

    /// The rows in a map. What was placed ahead is given up.
    pub fn into_rows(self) -> BTreeMap<i64, Waiter, Global>
        ensures { result.entries ≡ self.rows }
    {
        let Waiting {
            rows,
            numbers: _,
            ahead: _,
        } = self;
        rows.into_rows()
    }
}
