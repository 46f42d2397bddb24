// The steps of one turn: a ticket is drawn, its turn is waited for, and the next ticket is served.
ghost use Rattle.std.specs.Prelude.{◌≡◌, ◌≢◌, ℕ, ◌+◌, ◌-◌, ◌%◌, ◌<◌, ◌≤◌, ◌^◌, List, [], ◌∷◌, Some, None, MatchOption};
ghost use Rattle.cp_turn.specs.declared.view.Stage.TheVariants.{Waiting, Entered};
ghost use Rattle.cp_turn.specs.Turns.{pass_view, at_stage, outside};
ghost use Rattle.cp_turn.specs.Passes.{IsIdle, HasTicket, Lengthens, IsTaken};

use crate::ledgered::Ledgered;
use crate::pass::SeatOf;
use crate::rule::{Draw, Look, Park, Serve, Turns, TurnstileKey};
use crate::view::SeatView;
use atomic_table::Table;
use std::alloc::Global;
use std::sync::Wait;
use std::{hint, thread};

pub(crate) type TableOf<T> = Table<
    Option<T>,
    SeatView<<T as Ledgered>::Entry, <T as Ledgered>::Basis>,
    TurnstileKey<T>,
    Turns,
    Global,
>;

// How often a waiting caller looks before it parks: first in a row, and then leaving its processor to others.
const SPINS: u32 = 100;

const YIELDS: u32 = 4;

// Draws the next ticket.
pub(crate) fn draw<T: Ledgered>(table: &TableOf<T>, seat: &mut SeatOf<T>) -> u64
    requires table { (seat.old.table_id ≡ table.now.shared.table_id) × (2 < table.now.shared.table_id.words) }
    requires outside { IsIdle seat.old.me }
    ensures table { (seat.new.table_id ≡ seat.old.table_id) × (seat.new.id ≡ seat.old.id) }
    ensures waits { (t : ℕ) × (result ≡ t % 2 ^ 64) × (seat.new.me ≡ (at_stage (Waiting t) seat.old.me.0, seat.old.me.1)) }
{
    table.shared.fetch_add::<Draw>(seat, 0, 1)
}

// Takes the value, where the ticket is on.
fn look<T: Ledgered>(table: &TableOf<T>, seat: &mut SeatOf<T>, ticket: u64) -> Option<T>
    requires table { (seat.old.table_id ≡ table.now.shared.table_id) × (2 < table.now.shared.table_id.words) }
    requires waits { HasTicket ticket seat.old.me }
    ensures table { (seat.new.table_id ≡ seat.old.table_id) × (seat.new.id ≡ seat.old.id) }
    ensures taken { MatchOption result (seat.new.me ≡ seat.old.me) (λ x. IsTaken T.by T.entries T.base x seat.old.me seat.new.me) }
{
    if table.shared.load::<Look>(seat, 1) == ticket {
        table.shared.exchange(seat, 0, None)
    } else {
        None
    }
}

// Looks for a short while.
fn spin<T: Ledgered>(table: &TableOf<T>, seat: &mut SeatOf<T>, ticket: u64) -> Option<T>
    requires table { (seat.old.table_id ≡ table.now.shared.table_id) × (2 < table.now.shared.table_id.words) }
    requires waits { HasTicket ticket seat.old.me }
    ensures table { (seat.new.table_id ≡ seat.old.table_id) × (seat.new.id ≡ seat.old.id) }
    ensures taken { MatchOption result (seat.new.me ≡ seat.old.me) (λ x. IsTaken T.by T.entries T.base x seat.old.me seat.new.me) }
{
    for round in 0..SPINS + YIELDS {
        if let Some(value) = look(table, seat, ticket) {
            return Some(value);
        }
        if round < SPINS {
            hint::spin_loop();
        } else {
            thread::yield_now();
        }
    }
    None
}

// The word that a caller with this ticket parks on. The tickets that are out follow one another and are no more than
// the callers, so that each leads to a word of its own.
fn parking_word<T: Ledgered>(table: &TableOf<T>, ticket: u64) -> usize
    requires { 2 < table.now.shared.table_id.words }
    ensures word { result ≡ 2 + ticket % (table.now.shared.table_id.words - 2) }
    ensures within { (2 ≤ result) × (result < table.now.shared.table_id.words) }
{
    let callers = table.word_count() - 2;
    2 + (ticket % callers as u64) as usize
}

// Looks, and parks where the ticket is not on. The word is set before the look, so that who serves the ticket after the
// look finds it set.
fn park<T: Ledgered, R: Wait>(
    rt: &R,
    table: &TableOf<T>,
    seat: &mut SeatOf<T>,
    ticket: u64,
) -> Option<T>
    requires table { (seat.old.table_id ≡ table.now.shared.table_id) × (2 < table.now.shared.table_id.words) }
    requires waits { HasTicket ticket seat.old.me }
    ensures table { (seat.new.table_id ≡ seat.old.table_id) × (seat.new.id ≡ seat.old.id) }
    ensures taken { MatchOption result (seat.new.me ≡ seat.old.me) (λ x. IsTaken T.by T.entries T.base x seat.old.me seat.new.me) }
{
    let word = parking_word(table, ticket);
    table.shared.store::<Park>(seat, word, 1);
    if let Some(value) = look(table, seat, ticket) {
        return Some(value);
    }
    table.shared.park(rt, word, 1);
    None
}

// Waits until the ticket is on, and takes the value.
pub(crate) fn wait<T: Ledgered, R: Wait>(
    rt: &R,
    table: &TableOf<T>,
    seat: &mut SeatOf<T>,
    ticket: u64,
) -> T
    requires table { (seat.old.table_id ≡ table.now.shared.table_id) × (2 < table.now.shared.table_id.words) }
    requires waits { HasTicket ticket seat.old.me }
    ensures table { (seat.new.table_id ≡ seat.old.table_id) × (seat.new.id ≡ seat.old.id) }
    ensures taken { IsTaken T.by T.entries T.base result seat.old.me seat.new.me }
{
    if let Some(value) = spin(table, seat, ticket) {
        return value;
    }
    for _ in rt.forever() {
        if let Some(value) = park(rt, table, seat, ticket) {
            return value;
        }
    }
    unreachable!()
}

// Puts the value into the slot that the seat took.
fn give<T: Ledgered>(table: &TableOf<T>, seat: &mut SeatOf<T>, value: T)
    requires table { seat.old.table_id ≡ table.now.shared.table_id }
    requires empty { seat.old.me.1 ≡ (0, None) ∷ [] }
    ensures table { (seat.new.table_id ≡ seat.old.table_id) × (seat.new.id ≡ seat.old.id) }
    ensures given { seat.new.me ≡ (seat.old.me.0, (0, Some value) ∷ []) }
{
    let empty = table.shared.exchange(seat, 0, Some(value));
    let None = empty else { unreachable!() };
}

// Gives the slot back, and serves the next ticket, which it answers.
pub(crate) fn serve<T: Ledgered>(table: &TableOf<T>, seat: &mut SeatOf<T>, value: T) -> u64
    requires table { (seat.old.table_id ≡ table.now.shared.table_id) × (2 < table.now.shared.table_id.words) }
    requires inside { (n : ℕ) × (seen : List T.Entry) × (b : T.Basis) × (t : ℕ) × (found : List T.Entry) × (seat.old.me ≡ (pass_view n seen b (Entered t found), (0, None) ∷ [])) × Lengthens T.by n found (T.entries value) × (T.base value ≡ b) }
    ensures table { (seat.new.table_id ≡ seat.old.table_id) × (seat.new.id ≡ seat.old.id) }
    ensures served { seat.new.me ≡ (outside (T.entries value) seat.old.me.0, []) }
{
    give(table, seat, value);
    table.shared.fetch_add::<Serve>(seat, 1, 1).wrapping_add(1)
}

// Wakes the caller that is parked for this ticket. Where none is, it makes no call of the system.
pub(crate) fn wake<T: Ledgered>(table: &TableOf<T>, seat: &mut SeatOf<T>, ticket: u64)
    requires table { (seat.old.table_id ≡ table.now.shared.table_id) × (2 < table.now.shared.table_id.words) }
    ensures table { (seat.new.table_id ≡ seat.old.table_id) × (seat.new.id ≡ seat.old.id) }
    ensures same { seat.new.me ≡ seat.old.me }
{
    let word = parking_word(table, ticket);
    if table.shared.peek(word) != 0 {
        table.shared.store::<Park>(seat, word, 0);
        table.shared.wake_all(word);
    }
}
