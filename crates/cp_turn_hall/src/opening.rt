// A hall is put behind turnstiles: each object goes behind one, and its passes are handed out to the callers.
ghost use Rattle.std.specs.Prelude.{◌≡◌, ℕ, ◌+◌, ◌<◌, List, [], ◌∷◌, ◌++◌, All, length, slice_index_or, IfOk, OnOk};
ghost use Rattle.cp_call.specs.History.{Legal};
ghost use Rattle.cp_turn_hall.specs.Behind.{HallPassView, hall_at_start, IsPassOf, AreNew, seen_at};
ghost use Rattle.cp_hall.specs.Hall.{history_at};

use crate::grown::GrownRow;
use crate::hall::TurnHall;
use crate::pass::{HallPass, HallPasses, ObjectPass};
use cp_hall::{HallRow, PlainHall};
use cp_turn::{Pass, Turnstile, make};
use std::alloc::{AllocError, Global};

// A pass for each caller, of no objects yet.
fn empty_passes(alloc: Global, callers: u32) -> Result<Vec<HallPass>, AllocError>
    ensures long { IfOk result (λ r. length r.items ≡ callers) }
    ensures each { IfOk result (λ r. (k : ℕ) (d : _) → k < callers → slice_index_or r.items k d ≡ record { number = k + 1; places = [] }) }
{
    let mut passes = Vec::new(alloc);
    for i in 0..callers {
        passes.push(HallPass {
            number: i + 1,
            places: Vec::new(alloc),
        })?;
    }
    Ok(passes)
}

// One object more for one caller.
fn hand(hall_pass: &mut HallPass, pass: Pass<GrownRow>) -> Result<(), AllocError>
    ensures { OnOk result (hall_pass.new ≡ record { number = hall_pass.old.number; places = hall_pass.old.places ++ record { pass = pass; looked = 0 } ∷ [] }) }
{
    hall_pass.places.push(ObjectPass { pass, looked: 0 })?;
    Ok(())
}

// Each caller gets the pass that stands at its place.
fn hand_out(hall_passes: &mut Vec<HallPass>, passes: Vec<Pass<GrownRow>>) -> Result<(), AllocError>
    requires { length hall_passes.old.items ≡ length passes.items }
    ensures long { OnOk result (length hall_passes.new.items ≡ length hall_passes.old.items) }
    ensures each { OnOk result ((k : ℕ) (d : HallPassView) (e : _) → k < length passes.items → slice_index_or hall_passes.new.items k d ≡ record { number = (slice_index_or hall_passes.old.items k d).number; places = (slice_index_or hall_passes.old.items k d).places ++ record { pass = slice_index_or passes.items k e; looked = 0 } ∷ [] }) }
{
    let mut rest = passes;
    while let Some(pass) = rest.pop() {
        hand(&mut hall_passes[rest.len()], pass)?;
    }
    Ok(())
}

// One object more, behind a turnstile.
fn add_object(
    alloc: Global,
    row: HallRow,
    callers: u32,
    turnstiles: &mut Vec<Turnstile<GrownRow>>,
    hall_passes: &mut Vec<HallPass>,
) -> Result<(), AllocError>
    requires some { 0 < callers }
    requires legal { Legal row.pred.kind row.pred.opening row.pred.history }
    requires passes { (length hall_passes.old.items ≡ callers) × AreNew turnstiles.old.items hall_passes.old.items }
    ensures passes { OnOk result ((length hall_passes.new.items ≡ callers) × AreNew turnstiles.new.items hall_passes.new.items) }
    ensures turnstiles { OnOk result ((t : _) × (turnstiles.new.items ≡ turnstiles.old.items ++ t ∷ []) × (t.base ≡ row) × (t.callers ≡ callers)) }
{
    let Ok((turnstile, passes)) = make(alloc, GrownRow::new(row), callers) else {
        return Err(AllocError);
    };
    hand_out(hall_passes, passes.into_vec())?;
    turnstiles.push(turnstile)?;
    Ok(())
}

/// Puts each object of a hall behind a turnstile, and gives the passes of the callers 1 to `callers`, of whom there is
/// one at least. What a pass has seen of an object is the history that the object has now. A refusal gives nothing back.
pub fn turn_hall(hall: PlainHall, callers: u32) -> Result<(TurnHall, HallPasses), AllocError>
    requires some { 0 < callers }
    ensures hall { IfOk result (λ m. hall_at_start m.0 ≡ hall) }
    ensures callers { IfOk result (λ m. All (λ t. t.callers ≡ callers) m.0 × (length m.1 ≡ callers)) }
    ensures passes { IfOk result (λ m. AreNew m.0 m.1) }
    ensures of_hall { IfOk result (λ m. All (IsPassOf m.0) m.1) }
    ensures seen { IfOk result (λ m. All (λ pass. (p : ℕ) → seen_at m.0 pass.places p ≡ history_at hall p) m.1) }
{
    let (alloc, rows) = hall.into_rows();
    let mut hall_passes = empty_passes(alloc, callers)?;
    let mut turnstiles = Vec::new(alloc);
    for row in rows {
        add_object(alloc, row, callers, &mut turnstiles, &mut hall_passes)?;
    }
    Ok((
        TurnHall { alloc, turnstiles },
        HallPasses::from_vec(hall_passes),
    ))
}
