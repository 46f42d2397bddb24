// A turnstile is made, with its passes.
ghost use Rattle.std.specs.Prelude.{◌≡◌, ℕ, ◌+◌, ◌-◌, ◌<◌, ◌≤◌, List, [], ◌∷◌, Some, None, IfOk, IfErr, length, slice_index_or};
ghost use Rattle.std.specs.Prelude.{vec_len, vec_capacity};
ghost use Rattle.cp_turn.specs.Turns.{maker};
ghost use Rattle.cp_turn.specs.Passes.{PassView, AreFresh};

use crate::ledgered::Ledgered;
use crate::pass::{Pass, Passes, SeatOf};
use crate::rule::{SplitPass, TurnstileKey};
use crate::turn::TableOf;
use crate::turnstile::Turnstile;
use atomic_table::{Refused, Table};
use std::alloc::{AllocError, Global};
use std::snapshot::Snapshot;

// The words of the table: the next ticket, the ticket that is served, and a word for each caller to park on.
fn words_for(alloc: Global, callers: u32) -> Result<Vec<u64>, AllocError>
    ensures { IfOk result (λ v. (parking : List ℕ) × (v.items ≡ 0 ∷ 0 ∷ parking) × (length parking ≡ callers)) }
{
    vec![in alloc; 0; callers as usize + 2]
}

// The value that came back.
fn give_back<T>(mut slots: Vec<Option<T>>) -> T
    requires { (x : T) × (slots.items ≡ Some x ∷ []) }
    ensures { slots.items ≡ Some result ∷ [] }
{
    let last = slots.pop();
    slots.destroy_empty();
    match last {
        Some(Some(value)) => value,
        _ => unreachable!(),
    }
}

// Makes the next pass.
fn split_pass<T: Ledgered>(table: &TableOf<T>, seat: &mut SeatOf<T>, number: u32) -> Pass<T>
    requires table { (seat.old.table_id ≡ table.now.shared.table_id) × (2 < table.now.shared.table_id.words) }
    requires maker { (p : ℕ) × (k : ℕ) × (b : T.Basis) × (seat.old.me ≡ (maker p k b, [])) × (0 < p) × (number ≡ k + 1) }
    ensures table { (seat.new.table_id ≡ seat.old.table_id) × (seat.new.id ≡ seat.old.id) }
    ensures maker { (p : ℕ) (k : ℕ) (b : T.Basis) → seat.old.me ≡ (maker p k b, []) → seat.new.me ≡ (maker (p - 1) (k + 1) b, []) }
    ensures pass { result ≡ record { table = seat.old.table_id; number = number; mine = []; seen = []; turns = 0; found = None; base = seat.old.me.0.base } }
{
    let seat = table.shared.split_seat::<SplitPass>(seat);
    Pass {
        number,
        turns: 0,
        seat,
    }
}

// Makes all passes.
fn split_passes<T: Ledgered>(
    table: &TableOf<T>,
    seat: SeatOf<T>,
    passes: Vec<Pass<T>>,
    callers: u32,
) -> Passes<T>
    requires table { (seat.table_id ≡ table.now.shared.table_id) × (2 < table.now.shared.table_id.words) }
    requires maker { (b : T.Basis) × (seat.me ≡ (maker callers 0 b, [])) }
    requires room { (passes.items ≡ []) × (vec_len passes ≡ 0) × (vec_capacity passes ≡ callers) }
    ensures count { length result ≡ callers }
    ensures fresh { (k : ℕ) (d : PassView T.Entry T.Basis) → k < callers → slice_index_or result k d ≡ record { table = seat.table_id; number = k + 1; mine = []; seen = []; turns = 0; found = None; base = seat.me.0.base } }
{
    let mut seat = seat;
    let mut passes = passes;
    for i in 0..callers {
        passes.push_reserved(split_pass(table, &mut seat, i + 1));
    }
    Passes::from_vec(passes)
}

/// A turnstile over a value that has no entries, with the passes 1 to `callers`. For want of memory the value comes back.
pub fn make<T: Ledgered>(
    alloc: Global,
    value: T,
    callers: u32,
) -> Result<(Turnstile<T>, Passes<T>), T>
    requires some { 0 < callers }
    requires empty { T.entries value ≡ [] }
    ensures made { IfOk result (λ m. (m.0.callers ≡ callers) × (m.0.base ≡ T.base value) × AreFresh m.0 m.1) }
    ensures refused { IfErr result (λ v. v ≡ value) }
{
    let Ok(passes) = Vec::with_capacity(alloc, callers as usize) else {
        return Err(value);
    };
    let Ok(words) = words_for(alloc, callers) else {
        return Err(value);
    };
    let Ok(mut slots) = Vec::with_capacity(alloc, 1) else {
        return Err(value);
    };
    let about = TurnstileKey {
        callers: u64::from(callers),
        value: Snapshot::of(&value),
    };
    slots.push_reserved(Some(value));
    match Table::new(alloc, words.as_slice(), slots, &about) {
        Ok((table, seat)) => {
            let passes = split_passes(&table, seat, passes, callers);
            Ok((Turnstile { table }, passes))
        }
        Err(Refused { slots }) => Err(give_back(slots)),
    }
}
