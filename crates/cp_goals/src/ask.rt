ghost use Rattle.std.specs.Prelude.{◌≡◌, ◌<◌, ℕ, List, Result, Ok, Err, length, IfOk, OnOk};
ghost use Rattle.cp_term.specs.declared.cell.Cell.{Cell};
ghost use Rattle.cp_code.specs.Code.{Code};
ghost use Rattle.cp_code.specs.Requests as requests;
ghost use Rattle.cp_code.specs.Requests.{Refused, full_name};
ghost use Rattle.cp_request.specs.Asked as asked;
ghost use Rattle.cp_request.specs.Refused.{kind as kind_of, HasCulprit, Asks};
ghost use Rattle.cp_run.specs.Shown as standing;
ghost use Rattle.cp_run.specs.Shown.{here_of, instance_in, shown, moved};
ghost use Rattle.cp_run.specs.Stands.{Holds, Stands, HasManner};
ghost use Rattle.cp_run.specs.Gaining.{IsGained, raise_row};
ghost use Rattle.cp_goals.specs.Rows.{asks_row, HasAnswer};

use cp_heap::Ref;
use cp_request::{Asking, ErrorKind, Manner, Refusal};
use cp_run::{Point, Run};
use cp_term::PredName;
use std::alloc::AllocError;

/// Asks a shared object, in front of a list of goals, or raises the error for which nothing is asked, in the context of a
/// predicate.
pub fn ask_or_raise(
    run: &mut Run,
    answer: Result<Asking, Refusal>,
    context: &PredName,
    rest: u32,
    level: u64,
) -> Result<(), AllocError>
    requires holds { Holds run.old }
    requires answer { HasAnswer run.old.heap answer }
    requires rest { rest < length run.old.goals }
    ensures moved { OnOk result ((code : Code) (wanted : Result requests.Asking Refused) → Asks run.old.heap wanted answer → shown code run.new ≡ moved code run.old rest level (asks_row wanted (full_name context.now))) }
    ensures stands { OnOk result (Stands run.new) }
{
    match answer {
        Ok(asking) => {
            ask(run, asking, rest, level)?;
            Ok(())
        }
        Err(Refusal::Raised(kind)) => {
            refuse(run, kind, context, rest)?;
            Ok(())
        }
        Err(Refusal::NoMemory) => Err(AllocError),
    }
}

/// Asks from the beginning of the object's history on.
fn ask(run: &mut Run, asking: Asking, rest: u32, level: u64) -> Result<(), AllocError>
    requires holds { Holds run.old }
    requires manner { asked.HasManner run.old.heap asking.manner }
    requires rest { rest < length run.old.goals }
    ensures moved { OnOk result ((code : Code) (error_context : List Cell) → shown code run.new ≡ moved code run.old rest level (asks_row (Ok (asked.asking_shown run.old.heap asking)) error_context)) }
    ensures stands { OnOk result (Stands run.new) }
{
    let manner = settled(run, asking.manner)?;
    run.go(Point::Asks {
        asking: Asking { manner, ..asking },
        from: None,
        rest,
        level,
    });
    Ok(())
}

/// The same manner, where its term stands as its instance.
fn settled(run: &mut Run, manner: Manner) -> Result<Manner, AllocError>
    requires holds { Holds run.old }
    requires manner { asked.HasManner run.old.heap manner }
    ensures manner { IfOk result (λ settled. (copy : List Cell) → standing.manner_shown run.new.heap.terms copy settled ≡ asked.manner_shown run.old.heap copy manner) }
    ensures places { IfOk result (λ settled. HasManner run.new.heap.terms settled) }
    ensures gained { OnOk result (IsGained run.old run.new) }
{
    match manner {
        Manner::Finds(at) => {
            let at = run.instance(at)?;
            Ok(Manner::Finds(at))
        }
        Manner::Posts(at) => {
            let at = run.instance(at)?;
            Ok(Manner::Posts(at))
        }
        Manner::FindsOnce => Ok(Manner::FindsOnce),
        Manner::Changes => Ok(Manner::Changes),
    }
}

/// Raises an error of this kind.
fn refuse(run: &mut Run, kind: ErrorKind, context: &PredName, rest: u32) -> Result<(), AllocError>
    requires holds { Holds run.old }
    requires culprit { HasCulprit run.old.heap kind }
    requires rest { rest < length run.old.goals }
    ensures moved { OnOk result ((code : Code) (level : ℕ) → shown code run.new ≡ moved code run.old rest level (raise_row (kind_of run.old.heap kind) (full_name context.now))) }
    ensures stands { OnOk result (Stands run.new) }
{
    let term = put_kind(run, kind)?;
    run.raise(term, context, rest)?;
    Ok(())
}

/// The kind as a term of the heap.
fn put_kind(run: &mut Run, kind: ErrorKind) -> Result<Ref, AllocError>
    requires holds { Holds run.old }
    requires culprit { HasCulprit run.old.heap kind }
    ensures place { IfOk result (λ at. at.at < length run.new.heap.terms) }
    ensures kind { IfOk result (λ at. instance_in (here_of run.new) at.at ≡ kind_of run.old.heap kind) }
    ensures gained { OnOk result (IsGained run.old run.new) }
{
    let term = kind.put(run.alloc, &mut run.heap)?;
    Ok(term)
}
