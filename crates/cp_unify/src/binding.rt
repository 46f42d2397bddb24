ghost use Rattle.std.specs.Prelude.{◌≡◌, ℕ, true, not, ◌<◌, ◌≢◌, [], ◌∷◌, length, IfOk, OnOk};
ghost use Rattle.cp_term.specs.declared.cell.Cell.TheVariants.{Var as VarCell};
ghost use Rattle.cp_term.specs.Numbering.{occurs};
ghost use Rattle.cp_heap.specs.State.{term, instance_at, IsEnd, Extends};
ghost use Rattle.cp_heap.specs.Looks.{IsFree};
ghost use Rattle.cp_unify.specs.Steps.{Unifies, IsHorizon};
ghost use Rattle.cp_unify.specs.declared.horizon.Horizon.{Horizon as TheHorizon};

use crate::horizon::Horizon;
use crate::words::argument_count;
use cp_heap::{Heap, Ref};
use std::alloc::AllocError;

/// Binds the younger of two variables to the older one.
pub(crate) fn bind_younger(
    heap: &mut Heap,
    left: Ref,
    left_number: u32,
    right: Ref,
    right_number: u32,
) -> Result<bool, AllocError>
    requires left { IsFree heap.old left.at left_number }
    requires right { IsFree heap.old right.at right_number }
    requires differ { left_number ≢ right_number }
    ensures goes_on { IfOk result (λ goes_on. Unifies heap.old heap.new left.at right.at goes_on) }
    ensures horizon { OnOk result ((z : TheHorizon) → IsHorizon z heap.old → IsHorizon z heap.new) }
    ensures kept { heap.new ≡ record heap.old { trail = heap.new.trail } }
    ensures extends { Extends heap.old heap.new }
{
    if left_number < right_number {
        bind_to_older(heap, right, right_number, left, left_number)?;
    } else {
        bind_to_older(heap, left, left_number, right, right_number)?;
    }
    Ok(true)
}

fn bind_to_older(
    heap: &mut Heap,
    variable: Ref,
    number: u32,
    older: Ref,
    older_number: u32,
) -> Result<(), AllocError>
    requires variable { IsFree heap.old variable.at number }
    requires older { IsFree heap.old older.at older_number }
    requires age { older_number < number }
    ensures left { OnOk result (Unifies heap.old heap.new variable.at older.at true) }
    ensures right { OnOk result (Unifies heap.old heap.new older.at variable.at true) }
    ensures horizon { OnOk result ((z : TheHorizon) → IsHorizon z heap.old → IsHorizon z heap.new) }
    ensures kept { heap.new ≡ record heap.old { trail = heap.new.trail } }
    ensures extends { Extends heap.old heap.new }
{
    heap.bind(variable, older)?;
    Ok(())
}

/// Binds a variable to a term that is none, unless it occurs in it.
pub(crate) fn bind_term(
    heap: &mut Heap,
    horizon: &mut Horizon,
    variable: Ref,
    number: u32,
    to: Ref,
) -> Result<bool, AllocError>
    requires variable { IsFree heap.old variable.at number }
    requires live { to.at < length heap.old.terms }
    requires end { IsEnd heap.old to.at }
    requires value { (m : ℕ) → term heap.old to.at ≡ VarCell m ∷ [] → ⊥ }
    requires horizon { IsHorizon horizon.old heap.old }
    ensures left { IfOk result (λ goes_on. Unifies heap.old heap.new variable.at to.at goes_on) }
    ensures right { IfOk result (λ goes_on. Unifies heap.old heap.new to.at variable.at goes_on) }
    ensures horizon { OnOk result (IsHorizon horizon.new heap.new) }
    ensures kept { heap.new ≡ record heap.old { trail = heap.new.trail } }
    ensures extends { Extends heap.old heap.new }
{
    let word = heap.word(to);
    if !is_apart(heap, horizon, number, to)? {
        return Ok(false);
    }
    heap.bind(variable, to)?;
    horizon.note(number, to, word);
    Ok(true)
}

/// Whether a variable does not occur in a term that is none.
fn is_apart(heap: &Heap, horizon: &Horizon, number: u32, to: Ref) -> Result<bool, AllocError>
    requires live { to.at < length heap.now.terms }
    requires end { IsEnd heap.now to.at }
    requires value { (m : ℕ) → term heap.now to.at ≡ VarCell m ∷ [] → ⊥ }
    requires horizon { IsHorizon horizon.now heap.now }
    ensures { IfOk result (λ apart. occurs number (instance_at heap.now to.at) ≡ not apart) }
{
    if argument_count(heap.word(to)) == 0 {
        return Ok(true);
    }
    if horizon.parts(number, to) {
        return Ok(true);
    }
    let found = heap.occurs(number, to)?;
    Ok(!found)
}
