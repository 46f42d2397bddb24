ghost use Rattle.std.specs.Prelude.{◌≡◌, ◌<◌, [], ◌∷◌, length, get_or, reverse, IfOk, OnOk};
ghost use Rattle.cp_code.specs.Code.{Code};
ghost use Rattle.cp_code.specs.Machine.{fail_move};
ghost use Rattle.cp_run.specs.declared.frame.Frame.TheVariants as frame;
ghost use Rattle.cp_run.specs.Shown.{here_of, shown, moved};
ghost use Rattle.cp_run.specs.Stands.{FramesStand, Holds, Stands};
ghost use Rattle.cp_run.specs.Entering.{IsExtended};
ghost use Rattle.cp_back.specs.Rows.{collect_row};
ghost use Rattle.cp_back.specs.Undoing.{frames_under};
ghost use Rattle.cp_back.specs.Copies.{AreImported};

use crate::undoing::take_back;
use crate::unifying::unify_or_fail;
use cp_heap::{Heap, Ref, Refs};
use cp_lists::list_of;
use cp_run::{Moment, Run};
use cp_term::Terms;
use std::alloc::{AllocError, Global};

/// A findall has all copies of its template (ISO/IEC 13211-1, 8.10.1): it goes on where their list unifies with its
/// result, and so do the copies of the findall around it.
pub(crate) fn back_to_findall(
    run: &mut Run,
    moment: Moment,
    outer: Terms,
    list: Ref,
    rest: u32,
    level: u64,
) -> Result<(), AllocError>
    requires { FramesStand (here_of run.old) (frame.Gathering moment outer list rest level ∷ reverse run.old.frames.items) }
    ensures moved { OnOk result ((code : Code) → shown code run.new ≡ fail_move (frames_under code run.old (frame.Gathering moment outer list rest level)) run.old.units run.old.copies) }
    ensures stands { OnOk result (Stands run.new) }
{
    take_back(run, moment);
    let copies = std::mem::replace(&mut run.copies, outer);
    collect(run, copies, list, rest, level)?;
    Ok(())
}

/// Runs the goals behind, where the list of the copies unifies with a result.
fn collect(run: &mut Run, copies: Terms, list: Ref, rest: u32, level: u64) -> Result<(), AllocError>
    requires holds { Holds run.old }
    requires list { list.at < length run.old.heap.terms }
    requires rest { rest < length run.old.goals }
    ensures moved { OnOk result ((code : Code) → shown code run.new ≡ moved code run.old rest level (collect_row (get_or run.old.heap.terms list.at []) copies)) }
    ensures stands { OnOk result (Stands run.new) }
{
    let elements = put_copies(run, copies)?;
    let whole = list_of(run.alloc, &mut run.heap, &elements)?;
    unify_or_fail(run, list, whole, rest, level)?;
    Ok(())
}

/// Puts copies on the heap, each with new variables.
fn put_copies(run: &mut Run, copies: Terms) -> Result<Refs, AllocError>
    requires { Holds run.old }
    ensures imported { IfOk result (AreImported run.old.heap run.new.heap copies) }
    ensures extended { OnOk result (IsExtended run.old run.new) }
{
    let elements = import_all(run.alloc, &mut run.heap, &copies);
    drop_terms(copies);
    let elements = elements?;
    Ok(elements)
}

/// Makes terms of the heap, each with new variables.
fn import_all(alloc: Global, heap: &mut Heap, terms: &Terms) -> Result<Refs, AllocError>
    ensures { IfOk result (AreImported heap.old heap.new terms.now) }
{
    let _mark = heap.mark();
    let mut refs = Refs::new(alloc);
    'terms: for term in terms.as_slice() {
        refs.push(heap.import(term)?)?;
    }
    Ok(refs)
}

pub(crate) fn drop_terms(_terms: Terms) {}
