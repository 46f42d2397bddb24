// A hall is closed: the passes of each object are taken back, and the object comes out from behind its turnstile.
ghost use Rattle.std.specs.Prelude.{◌≡◌, ◌≢◌, ℕ, ◌<◌, List, [], ◌∷◌, ◌++◌, ◌^◌, map, All, length, slice_index_or, IfOk, OnOk};
ghost use Rattle.cp_call.specs.declared.call.Entry.{Entry};
ghost use Rattle.cp_call.specs.Sound.{own_entries};
ghost use Rattle.cp_list.specs.Lists.{IsPrefix};
ghost use Rattle.cp_turn.specs.Passes.{PassView, TurnstileView};
ghost use Rattle.cp_hall.specs.declared.hall.HallRow.{HallRow};
ghost use Rattle.cp_hall.specs.Hall.{objects_of, history_at};
ghost use Rattle.cp_turn_hall.specs.Behind.{HallPassView, hall_at_start, IsPassOf, IsSeenIn};
ghost use Rattle.cp_turn_hall.specs.Closing.{last_pass, without_last, IsTakenOut};

use crate::grown::GrownRow;
use crate::hall::TurnHall;
use crate::pass::{HallPass, HallPasses, ObjectPass};
use cp_hall::{HallRow, PlainHall};
use cp_turn::{Pass, Passes, Turnstile};
use std::alloc::{AllocError, Global};

// The last pass of a caller.
fn take_last(hall_pass: &mut HallPass) -> Pass<GrownRow>
    requires { 0 < length hall_pass.old.places }
    ensures pass { (none : PassView Entry HallRow) → result ≡ last_pass none hall_pass.old }
    ensures rest { hall_pass.new ≡ without_last hall_pass.old }
{
    match hall_pass.places.pop() {
        Some(place) => {
            let ObjectPass { pass, looked: _ } = place;
            pass
        }
        None => unreachable!(),
    }
}

// The last pass of each caller.
fn collect(
    alloc: Global,
    hall_passes: &mut Vec<HallPass>,
) -> Result<Vec<Pass<GrownRow>>, AllocError>
    requires { All (λ d. 0 < length d.places) hall_passes.old.items }
    ensures long { IfOk result (λ v. length v.items ≡ length hall_passes.old.items) }
    ensures each { IfOk result (λ v. (k : ℕ) (d : HallPassView) (none : PassView Entry HallRow) → k < length hall_passes.old.items → slice_index_or v.items k none ≡ last_pass none (slice_index_or hall_passes.old.items k d)) }
    ensures rest { OnOk result (hall_passes.new.items ≡ map without_last hall_passes.old.items) }
{
    let mut out = Vec::with_capacity(alloc, hall_passes.len())?;
    for i in 0..hall_passes.len() {
        out.push_reserved(take_last(&mut hall_passes[i]));
    }
    Ok(out)
}

// Takes an object out from behind its turnstile, which is the one of the callers' last passes.
fn take_out(
    alloc: Global,
    turnstile: Turnstile<GrownRow>,
    hall_passes: &mut Vec<HallPass>,
) -> Result<HallRow, AllocError>
    requires last { (before : List (TurnstileView HallRow)) × All (IsPassOf (before ++ turnstile ∷ [])) hall_passes.old.items }
    requires all { turnstile.callers ≡ length hall_passes.old.items }
    requires few { length hall_passes.old.items < 2 ^ 32 }
    ensures row { IfOk result (λ row. IsTakenOut turnstile row hall_passes.old.items) }
    ensures rest { OnOk result (hall_passes.new.items ≡ map without_last hall_passes.old.items) }
{
    let passes = collect(alloc, hall_passes)?;
    Ok(turnstile.close(Passes::from_vec(passes)).into_row())
}

impl TurnHall {
    /// Takes the objects out from behind their turnstiles, where all passes are back. The history of each begins with what
    /// each caller has seen of it, and has besides what it had at first entries of these callers alone. A refusal gives
    /// nothing back.
    pub fn close(self, passes: HallPasses) -> Result<PlainHall, AllocError>
        requires of_hall { All (IsPassOf self) passes }
        requires all { All (λ t. t.callers ≡ length passes) self }
        ensures objects { IfOk result (λ hall. objects_of hall ≡ objects_of (hall_at_start self)) }
        ensures grown { IfOk result (λ hall. (p : ℕ) → IsPrefix (history_at (hall_at_start self) p) (history_at hall p)) }
        ensures seen { IfOk result (λ hall. All (IsSeenIn hall self) passes) }
        ensures others { IfOk result (λ hall. (n p : ℕ) → All (λ pass. pass.number ≢ n) passes → own_entries n (history_at hall p) ≡ own_entries n (history_at (hall_at_start self) p)) }
    {
        let TurnHall {
            alloc,
            mut turnstiles,
        } = self;
        let mut hall_passes = passes.into_vec();
        let mut rows = Vec::with_capacity(alloc, turnstiles.len())?;
        while let Some(turnstile) = turnstiles.pop() {
            rows.push(take_out(alloc, turnstile, &mut hall_passes)?)?;
        }
        rows.reverse();
        Ok(PlainHall::from_rows(alloc, rows))
    }
}
