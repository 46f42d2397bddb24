ghost use Rattle.std.specs.Prelude.{◌≡◌, true, int_lt, ℤ, Bool, Option, IfOk, ◌||◌, is_some, Some, None, MatchOption, [], ◌∷◌};
ghost use Rattle.std.specs.Option.{option_copied};
ghost use Rattle.std.specs.BTreeMap.{get};
ghost use Rattle.std.specs.Ordering.{int_cmp};
ghost use Rattle.cp_keyed.specs.Spots.{stands_at};
ghost use Rattle.cp_keyed.specs.Index.{AreBelow, IsIndexed, has_agreeing, row_at, tried};
ghost use Rattle.cp_keyed.specs.Search.{AreFrom, IsLeastAfter, number_at};

use crate::keyed::{Keyed, Spot};
use cp_counted::Key;
use std::alloc::{AllocError, Global};
use std::collections::{BTreeMap, BTreeSet};
use std::ops::Bound;

/// The number of a spot that has this key.
fn number_of(found: Option<&Spot>, key: &Key) -> Option<i64>
    ensures { result ≡ number_at key.now (option_copied found.entry) }
{
    match found {
        Some((other, number)) => {
            if other == key {
                let number = *number;
                Some(number)
            } else {
                None
            }
        }
        None => None,
    }
}

/// The least number at which the key stands.
fn first_of_all(spots: &BTreeSet<Spot, Global>, key: &Key) -> Result<Option<i64>, AllocError>
    requires { AreFrom i64.MIN (stands_at spots.now key.now) }
    ensures { IfOk result (IsLeastAfter (stands_at spots.now key.now) None) }
{
    let from = (key.clone()?, i64::MIN);
    Ok(number_of(spots.range(&from..).next(), key))
}

/// The least number above `after` at which the key stands.
fn first_behind(
    spots: &BTreeSet<Spot, Global>,
    key: &Key,
    after: i64,
) -> Result<Option<i64>, AllocError>
    ensures { IfOk result (IsLeastAfter (stands_at spots.now key.now) (Some after)) }
{
    let from = (key.clone()?, after);
    Ok(number_of(
        spots
            .range((Bound::Excluded(&from), Bound::Unbounded))
            .next(),
        key,
    ))
}

/// The least number above `after` at which the key stands.
pub fn first_at(
    spots: &BTreeSet<Spot, Global>,
    key: &Key,
    after: Option<i64>,
) -> Result<Option<i64>, AllocError>
    requires { AreFrom i64.MIN (stands_at spots.now key.now) }
    ensures { IfOk result (IsLeastAfter (stands_at spots.now key.now) after) }
{
    match after {
        None => first_of_all(spots, key),
        Some(after) => first_behind(spots, key, after),
    }
}

/// The number that is lent.
fn number_in(number: &i64) -> Option<i64>
    ensures { result ≡ Some number.now }
{
    let number = *number;
    Some(number)
}

/// The least number of all rows.
fn first_row<T>(rows: &BTreeMap<i64, T, Global>) -> Option<i64>
    ensures { IsLeastAfter (λ q. is_some (get int_cmp rows.now q)) None result }
{
    match rows.first_key_value() {
        Some((number, _)) => number_in(number),
        None => None,
    }
}

/// The least number of a row above `after`.
fn row_behind<T>(rows: &BTreeMap<i64, T, Global>, after: i64) -> Option<i64>
    ensures { IsLeastAfter (λ q. is_some (get int_cmp rows.now q)) (Some after) result }
{
    match rows
        .range((Bound::Excluded(after), Bound::Unbounded))
        .next()
    {
        Some((number, _)) => number_in(number),
        None => None,
    }
}

/// The least number of a row above `after`.
pub fn first_above<T>(rows: &BTreeMap<i64, T, Global>, after: Option<i64>) -> Option<i64>
    ensures { IsLeastAfter (λ q. is_some (get int_cmp rows.now q)) after result }
{
    match after {
        None => first_row(rows),
        Some(after) => row_behind(rows, after),
    }
}

/// The lesser of two numbers, of which each may be missing.
pub fn lesser(a: Option<i64>, b: Option<i64>) -> Option<i64>
    ensures { (test other : ℤ → Bool) → (after : Option ℤ) → IsLeastAfter test after a → IsLeastAfter other after b → IsLeastAfter (λ q. test q || other q) after result }
{
    match (a, b) {
        (Some(a), Some(b)) => Some(if a < b { a } else { b }),
        (Some(a), None) => Some(a),
        (None, b) => b,
    }
}

/// The least number above `after` of a row whose key agrees.
pub fn number_agreeing<T: Keyed>(
    rows: &BTreeMap<i64, T, Global>,
    spots: &BTreeSet<Spot, Global>,
    key: &Key,
    after: Option<i64>,
) -> Result<Option<i64>, AllocError>
    requires { IsIndexed T.key rows.now spots.now }
    ensures { IfOk result (IsLeastAfter (λ q. has_agreeing T.key (get int_cmp rows.now q) key.now) after) }
{
    if let Key::Missing = key {
        return Ok(first_above(rows, after));
    }
    let missing = first_at(spots, &Key::Missing, after)?;
    let same = first_at(spots, key, after)?;
    Ok(lesser(missing, same))
}

/// The row with this number, and the number beside it.
fn row_with<T>(rows: &BTreeMap<i64, T, Global>, number: i64) -> Option<(i64, &T)>
    ensures { MatchOption result (row_at number rows.now.entries ≡ None) (λ e. (e.0 ≡ number) × (row_at number rows.now.entries ≡ Some e.1.now)) }
{
    match rows.get(&number) {
        Some(row) => Some((number, row)),
        None => None,
    }
}

/// The first row above `after` whose key agrees, with its number.
pub fn row_agreeing<'a, T: Keyed>(
    rows: &'a BTreeMap<i64, T, Global>,
    spots: &BTreeSet<Spot, Global>,
    key: &Key,
    after: Option<i64>,
) -> Result<Option<(i64, &'a T)>, AllocError>
    requires { IsIndexed T.key rows.now spots.now }
    ensures { IfOk result (λ found. MatchOption found (tried T.key key.now after rows.now.entries ≡ []) (λ e. tried T.key key.now after rows.now.entries ≡ (e.0, e.1.now) ∷ tried T.key key.now (Some e.0) rows.now.entries)) }
{
    match number_agreeing(rows, spots, key, after)? {
        Some(number) => match row_with(rows, number) {
            Some(found) => Ok(Some(found)),
            None => unreachable!(),
        },
        None => Ok(None),
    }
}

/// A number above those of all rows.
pub fn next_number<T>(rows: &BTreeMap<i64, T, Global>) -> Result<i64, AllocError>
    ensures { IfOk result (λ number. AreBelow number rows.now.entries) }
{
    match rows.last_key_value() {
        Some((last, _)) => number_behind(last),
        None => Ok(0),
    }
}

/// The number behind this one.
fn number_behind(last: &i64) -> Result<i64, AllocError>
    ensures { IfOk result (λ number. int_lt last.now number ≡ true) }
{
    let last = *last;
    match last.checked_add(1) {
        Some(number) => Ok(number),
        None => Err(AllocError),
    }
}
