ghost use Rattle.std.specs.Prelude.{◌≡◌, ◌≤◌, ◌+◌, IfOk, IfSome, Some};
ghost use Rattle.cp_call.specs.Object.{first_seen, is_above};
ghost use Rattle.cp_counted.specs.Keys.{term_key};
ghost use Rattle.cp_keyed.specs.Index.{row_at};
ghost use Rattle.cp_factindex.specs.Contents.{facts_in};
ghost use Rattle.cp_factindex.specs.Purged.{IsPurgedBy};
ghost use Rattle.cp_factindex.specs.Steps.{steps_to_look, steps_to_purge};

use cp_call::FactRow;
use cp_counted::{Key, Steps, key_of, unifiable_counted};
use cp_keyed::{Index, Keyed, Spot};
use cp_term::Term;
use std::alloc::{AllocError, Global};
use std::sync::ledger::Ledger;

/// Whether a place lies above a cursor.
pub fn lies_above(after: Option<i64>, place: i64) -> bool
    ensures { result ≡ is_above after place }
{
    match after {
        None => true,
        Some(cursor) => cursor < place,
    }
}

/// The first fact that the pattern of this key sees above the cursor, copied, with its place.
fn seen_row<L: Ledger>(
    alloc: Global,
    facts: &Index<Term>,
    key: &Key,
    pattern: &Term,
    after: Option<i64>,
    steps: &mut Steps<L>,
) -> Result<Option<FactRow>, AllocError>
    requires whole { facts.now.whole ≡ facts.now.rows }
    requires key { key.now ≡ term_key pattern.now }
    ensures found { IfOk result (λ found. found ≡ first_seen (facts_in facts.now.rows) pattern.now after) }
    ensures row { IfOk result (λ found. IfSome found (λ f. row_at f.place facts.now.rows ≡ Some f.fact)) }
    ensures counted { steps.old ≤ steps.new }
    ensures steps { steps.new ≤ steps.old + steps_to_look pattern.now after (facts_in facts.now.rows) }
{
    let mut cursor = after;
    'rows: while let Some((place, fact)) = facts.first_agreeing(key, cursor)? {
        if unifiable_counted(alloc, pattern, fact, steps)? {
            return Ok(Some(FactRow {
                place,
                fact: fact.copy()?,
            }));
        }
        cursor = Some(place);
    }
    Ok(None)
}

/// A copy of the first fact that a call with this pattern and cursor sees, with its place.
pub fn first_seen_row<L: Ledger>(
    alloc: Global,
    facts: &Index<Term>,
    pattern: &Term,
    after: Option<i64>,
    steps: &mut Steps<L>,
) -> Result<Option<FactRow>, AllocError>
    requires { facts.now.whole ≡ facts.now.rows }
    ensures found { IfOk result (λ found. found ≡ first_seen (facts_in facts.now.rows) pattern.now after) }
    ensures row { IfOk result (λ found. IfSome found (λ f. row_at f.place facts.now.rows ≡ Some f.fact)) }
    ensures counted { steps.old ≤ steps.new }
    ensures steps { steps.new ≤ steps.old + steps_to_look pattern.now after (facts_in facts.now.rows) }
{
    let key = key_of(pattern)?;
    seen_row(alloc, facts, &key, pattern, after, steps)
}

/// The keys and places of all facts that unify with the pattern, which has this key.
fn unifying_rows<L: Ledger>(
    alloc: Global,
    facts: &Index<Term>,
    key: &Key,
    pattern: &Term,
    steps: &mut Steps<L>,
) -> Result<Vec<Spot>, AllocError>
    requires whole { facts.now.whole ≡ facts.now.rows }
    requires key { key.now ≡ term_key pattern.now }
    ensures purged { IfOk result (λ spots. IsPurgedBy pattern.now facts.now.rows spots.items) }
    ensures counted { steps.old ≤ steps.new }
    ensures steps { steps.new ≤ steps.old + steps_to_purge pattern.now (facts_in facts.now.rows) }
{
    let mut spots = Vec::new(alloc);
    let mut cursor = None;
    'rows: while let Some((place, fact)) = facts.first_agreeing(key, cursor)? {
        if unifiable_counted(alloc, pattern, fact, steps)? {
            spots.push((fact.key()?, place))?;
        }
        cursor = Some(place);
    }
    Ok(spots)
}

/// The keys and places of all facts that unify with the pattern.
pub fn unifying<L: Ledger>(
    alloc: Global,
    facts: &Index<Term>,
    pattern: &Term,
    steps: &mut Steps<L>,
) -> Result<Vec<Spot>, AllocError>
    requires { facts.now.whole ≡ facts.now.rows }
    ensures purged { IfOk result (λ spots. IsPurgedBy pattern.now facts.now.rows spots.items) }
    ensures counted { steps.old ≤ steps.new }
    ensures steps { steps.new ≤ steps.old + steps_to_purge pattern.now (facts_in facts.now.rows) }
{
    let key = key_of(pattern)?;
    unifying_rows(alloc, facts, &key, pattern, steps)
}
