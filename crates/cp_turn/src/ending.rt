// A turnstile is closed: its passes are joined into one seat, which then speaks for all of them.
ghost use Rattle.std.specs.Prelude.{◌≡◌, ℕ, ◌+◌, ◌<◌, List, [], ◌∷◌, None, All, length, map};
ghost use Rattle.cp_list.specs.Lists.{own};
ghost use Rattle.cp_turn.specs.Turns.{count_of, collector, AreSeen};
ghost use Rattle.cp_turn.specs.Passes.{seen_by};

use crate::ledgered::Ledgered;
use crate::pass::{Pass, SeatOf};
use crate::rule::JoinPass;
use crate::turn::TableOf;

// Takes in one pass.
fn join_pass<T: Ledgered>(table: &TableOf<T>, seat: &mut SeatOf<T>, pass: Pass<T>)
    requires table { (seat.old.table_id ≡ table.now.shared.table_id) × (2 < table.now.shared.table_id.words) }
    requires seat { (p : ℕ) × (seen_lists : List (ℕ × List T.Entry)) × (seat.old.me ≡ (collector p seen_lists, [])) }
    requires own { (pass.table ≡ table.now.shared.table_id) × (pass.found ≡ None) }
    ensures table { (seat.new.table_id ≡ seat.old.table_id) × (seat.new.id ≡ seat.old.id) }
    ensures joined { seat.new.me ≡ (collector (seat.old.me.0.parts + 1) (seen_by pass ∷ seat.old.me.0.seen_lists), []) }
    ensures mine { pass.mine ≡ own T.by pass.number pass.seen }
{
    let Pass {
        number: _,
        turns: _,
        seat: other,
    } = pass;
    table.shared.join_seat::<JoinPass>(seat, other);
}

// Takes in all passes.
pub(crate) fn join_passes<T: Ledgered>(
    table: &TableOf<T>,
    seat: &mut SeatOf<T>,
    mut passes: Vec<Pass<T>>,
)
    requires table { (seat.old.table_id ≡ table.now.shared.table_id) × (2 < table.now.shared.table_id.words) }
    requires none_yet { seat.old.me ≡ (collector 0 [], []) }
    requires own { All (λ p. (p.table ≡ table.now.shared.table_id) × (p.found ≡ None)) passes.items }
    ensures table { (seat.new.table_id ≡ seat.old.table_id) × (seat.new.id ≡ seat.old.id) }
    ensures all { seat.new.me ≡ (collector (length passes.items) (map seen_by passes.items), []) }
    ensures mine { All (λ p. p.mine ≡ own T.by p.number p.seen) passes.items }
{
    while let Some(pass) = passes.pop() {
        join_pass(table, seat, pass);
    }
}

// Ends the table, where the seat speaks for all passes.
pub(crate) fn take_out<T: Ledgered>(table: TableOf<T>, seat: SeatOf<T>) -> T
    requires table { (seat.table_id ≡ table.shared.table_id) × (table.shared.table_id.slots ≡ 1) }
    requires all { (seen_lists : List (ℕ × List T.Entry)) × (seat.me.0 ≡ collector table.shared.key.callers seen_lists) }
    ensures base { T.base result ≡ T.base table.shared.key.value.value }
    ensures seen_lists { AreSeen T.by (T.entries result) seat.me.0.seen_lists }
    ensures others { (n : ℕ) → count_of n seat.me.0.seen_lists ≡ 0 → own T.by n (T.entries result) ≡ [] }
{
    let mut closed = table.close_with(seat);
    let value = closed.take(0);
    closed.free();
    match value {
        Some(value) => value,
        None => unreachable!(),
    }
}
