ghost use Rattle.std.specs.Prelude.{◌≡◌, true, not, filter, None, IfOk, OnOk, OnErr};
ghost use Rattle.std.specs.Ordering.{int_cmp};
ghost use Rattle.std.specs.BTreeMap.{insert_entry};
ghost use Rattle.cp_keyed.specs.Spots.{stands_at};
ghost use Rattle.cp_keyed.specs.Index.{AreRight, IsAhead, IsIndexed, IsRight, is_among, row_at, seen, stands_ahead, without};

use crate::keyed::{Keyed, Spot};
use cp_counted::Key;
use std::alloc::{AllocError, Global};
use std::collections::{BTreeMap, BTreeSet};

/// Takes the row of a spot out of both maps, if there is one.
pub fn take_out<T: Keyed + Drop>(
    rows: &mut BTreeMap<i64, T, Global>,
    spots: &mut BTreeSet<Spot, Global>,
    spot: &Spot,
)
    requires indexed { IsIndexed T.key rows.old spots.old }
    requires right { IsRight T.key rows.old.entries spot.now }
    ensures rows { rows.new.entries ≡ without spot.now.1 rows.old.entries }
    ensures indexed { IsIndexed T.key rows.new spots.new }
{
    spots.remove(spot);
    rows.remove(&spot.1);
}

/// Puts a row into both maps, under a number that no row has. Its spot is handed back.
pub fn put_in<T: Keyed + Drop>(
    rows: &mut BTreeMap<i64, T, Global>,
    spots: &mut BTreeSet<Spot, Global>,
    key: Key,
    number: i64,
    row: T,
) -> Result<Spot, AllocError>
    requires indexed { IsIndexed T.key rows.old spots.old }
    requires key { key ≡ T.key row }
    requires fresh { row_at number rows.old.entries ≡ None }
    ensures rows { OnOk result (rows.new.entries ≡ insert_entry int_cmp rows.old.entries number row) }
    ensures spot { IfOk result (λ copy. copy ≡ (key, number)) }
    ensures stands { IfOk result (λ copy. stands_at spots.new copy.0 copy.1 ≡ true) }
    ensures err { OnErr result (rows.new.entries ≡ rows.old.entries) }
    ensures indexed { IsIndexed T.key rows.new spots.new }
{
    let copy = (key.clone()?, number);
    let kept = (key, number);
    spots.insert(copy)?;
    match rows.insert(number, row) {
        Ok(_) => Ok(kept),
        Err(_) => {
            spots.remove(&kept);
            Err(AllocError)
        }
    }
}

/// Takes what was placed ahead out of both maps.
pub fn give_up<T: Keyed + Drop>(
    rows: &mut BTreeMap<i64, T, Global>,
    spots: &mut BTreeSet<Spot, Global>,
    ahead: Option<Spot>,
)
    requires indexed { IsIndexed T.key rows.old spots.old }
    requires ahead { IsAhead spots.old ahead }
    ensures rows { rows.new.entries ≡ seen ahead rows.old.entries }
    ensures indexed { IsIndexed T.key rows.new spots.new }
{
    match ahead {
        Some(spot) => take_out(rows, spots, &spot),
        None => {}
    }
}

/// Whether the row with this number was placed ahead.
pub fn is_ahead(ahead: &Option<Spot>, number: i64) -> bool
    ensures { result ≡ stands_ahead ahead.now number }
{
    match ahead {
        Some((_, other)) => *other == number,
        None => false,
    }
}

/// Takes the rows of the spots out of both maps.
pub fn take_all_out<T: Keyed + Drop>(
    rows: &mut BTreeMap<i64, T, Global>,
    spots: &mut BTreeSet<Spot, Global>,
    taken: &[Spot],
)
    requires indexed { IsIndexed T.key rows.old spots.old }
    requires right { AreRight T.key rows.old.entries taken.now }
    ensures rows { rows.new.entries ≡ filter (λ e. not (is_among taken.now e.0)) rows.old.entries }
    ensures indexed { IsIndexed T.key rows.new spots.new }
{
    for spot in taken {
        take_out(rows, spots, spot);
    }
}
