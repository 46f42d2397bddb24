ghost use Rattle.std.specs.Prelude.{◌≡◌, ℕ, ◌<◌, [], ◌∷◌, ◌++◌, codes, length, get_or, IfOk, OnOk};
ghost use Rattle.cp_goal.specs.Builtins as builtins;
ghost use Rattle.cp_code.specs.Bodies as body;
ghost use Rattle.cp_code.specs.Code.{Code};
ghost use Rattle.cp_code.specs.Machine as machine;
ghost use Rattle.cp_code.specs.Machine.{goal_move};
ghost use Rattle.cp_run.specs.Shown.{bound, goals_shown, here_of, frames_of, shown, moved};
ghost use Rattle.cp_run.specs.Stands.{Holds, Stands};
ghost use Rattle.cp_enter.specs.Rows.{copy_row};

use crate::entering::enter;
use crate::raising::context_of;
use cp_heap::{ExportError, Ref, Refs};
use cp_run::{Item, Point, Run};
use cp_term::{Name, Term, Terms};
use std::alloc::AllocError;

/// `findall/3` (ISO/IEC 13211-1, 8.10.1): its goal is run, and the copies that the findall around it has so far are set aside.
pub fn run_find_all(
    run: &mut Run,
    seer: &Name,
    template: Ref,
    goal: Ref,
    list: Ref,
    rest: u32,
    level: u64,
) -> Result<(), AllocError>
    requires holds { Holds run.old }
    requires template { template.at < length run.old.heap.terms }
    requires goal { goal.at < length run.old.heap.terms }
    requires list { list.at < length run.old.heap.terms }
    requires rest { rest < length run.old.goals }
    ensures moved { OnOk result ((code : Code) (own : ℕ) → shown code run.new ≡ moved code run.old rest level (goal_move code (body.FindAll seer.now (get_or run.old.heap.terms template.at []) (get_or run.old.heap.terms goal.at []) (get_or run.old.heap.terms list.at [])) own)) }
    ensures stands { OnOk result (Stands run.new) }
{
    let context = context_of(run.alloc, seer, b"findall", 3)?;
    let seer_of_copy = seer.clone()?;
    let solutions = run.put(
        Item::Copy {
            seer: seer_of_copy,
            template,
        },
        rest,
    )?;
    set_aside(run, list, rest, level)?;
    enter(
        run,
        seer,
        goal,
        &Refs::new(run.alloc),
        &context,
        solutions,
        level,
    )?;
    Ok(())
}

/// Sets the copies so far aside, in a frame that takes the copies to come.
fn set_aside(run: &mut Run, list: Ref, rest: u32, level: u64) -> Result<(), AllocError>
    requires holds { Holds run.old }
    requires list { list.at < length run.old.heap.terms }
    requires rest { rest < length run.old.goals }
    ensures holds { OnOk result (Holds run.new) }
    ensures state { OnOk result (run.new ≡ record run.old { frames = run.new.frames; copies = [] }) }
    ensures frames { OnOk result ((code : Code) → frames_of code run.new ≡ machine.Gathering run.old.copies (get_or run.old.heap.terms list.at []) (goals_shown (here_of run.old) rest) (bound (here_of run.old)) run.old.heap.variables level ∷ frames_of code run.old) }
{
    let outer = take_copies(run);
    run.push_gathering(outer, list, rest, level)?;
    Ok(())
}

/// The copies so far; none is left.
fn take_copies(run: &mut Run) -> Terms
    ensures copies { result ≡ run.old.copies }
    ensures state { run.new ≡ record run.old { copies = [] } }
{
    std::mem::replace(&mut run.copies, Terms::new(run.alloc))
}

/// A solution of the goal of a findall that the module `seer` sees: a copy of its template is taken. One of more than 4,096
/// cells raises an error.
pub fn run_copy(run: &mut Run, seer: &Name, template: Ref, rest: u32) -> Result<(), AllocError>
    requires holds { Holds run.old }
    requires template { template.at < length run.old.heap.terms }
    requires rest { rest < length run.old.goals }
    ensures moved { OnOk result ((code : Code) (level : ℕ) → shown code run.new ≡ moved code run.old rest level (copy_row (get_or run.old.heap.terms template.at []) (builtins.context seer.now (codes "findall") 3))) }
    ensures stands { OnOk result (Stands run.new) }
{
    match run.heap.export(template) {
        Ok(copy) => {
            keep_copy(run, copy)?;
            Ok(())
        }
        Err(ExportError::TooLarge) => {
            let context = context_of(run.alloc, seer, b"findall", 3)?;
            run.raise_too_large(&context, rest)?;
            Ok(())
        }
        Err(ExportError::NoMemory) => Err(AllocError),
    }
}

/// Puts a copy behind those so far, and goes back for the next solution.
fn keep_copy(run: &mut Run, copy: Term) -> Result<(), AllocError>
    ensures { OnOk result (run.new ≡ record run.old { point = Point.Fails; copies = run.old.copies ++ copy ∷ [] }) }
{
    run.copies.push(copy)?;
    run.go(Point::Fails);
    Ok(())
}
