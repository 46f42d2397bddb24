ghost use Rattle.std.specs.Prelude.{◌≡◌, ℕ, ◌<◌, ◌≤◌, length, codes, IfOk, OnOk};
ghost use Rattle.cp_term.specs.Numbering.{canon};
ghost use Rattle.cp_ops.specs.Text.{text_of};
ghost use Rattle.cp_ops.specs.Standard.{standard};
ghost use Rattle.cp_heap.specs.State.{instance_at};
ghost use Rattle.cp_code.specs.Code.{Code};
ghost use Rattle.cp_code.specs.Goals as goals;
ghost use Rattle.cp_code.specs.Programs.{code_of, ops_of};
ghost use Rattle.cp_code.specs.Requests.{full_name};
ghost use Rattle.cp_run.specs.Shown.{shown, moved};
ghost use Rattle.cp_run.specs.Stands.{Holds, Stands};
ghost use Rattle.cp_run.specs.Gaining.{raise_row};
ghost use Rattle.cp_goal.specs.Errors.{resource_error};
ghost use Rattle.cp_goals.specs.Kinds.{style_shown};
ghost use Rattle.cp_goals.specs.Rows.{builtin_row, writes_row, IsGoalOf};

use crate::arguments::first_argument;
use crate::style::Style;
use cp_code::Program;
use cp_heap::Ref;
use cp_io::{Bytes, bytes_of};
use cp_ops::OpTable;
use cp_run::{Point, Run};
use cp_term::{Name, PredName, Term};
use std::alloc::{AllocError, Global};

/// The largest piece of output, in bytes.
const PIECE_LIMIT: u32 = 65535;

/// `write/1` and `writeq/1`, under the operators of the module that sees the goal.
pub(crate) fn write(
    program: &Program,
    run: &mut Run,
    style: Style,
    context: &PredName,
    goal: Ref,
    rest: u32,
    level: u64,
) -> Result<(), AllocError>
    requires holds { Holds run.old }
    requires goal { IsGoalOf run.old.heap context.now goal.at }
    requires arity { context.now.arity ≡ 1 }
    requires rest { rest < length run.old.goals }
    ensures moved { OnOk result ((budget : ℕ) → shown (code_of program.now budget) run.new ≡ moved (code_of program.now budget) run.old rest level (builtin_row (code_of program.now budget) (goals.Write (style_shown style)) context.now (instance_at run.old.heap goal.at))) }
    ensures stands { OnOk result (Stands run.new) }
{
    let at = first_argument(&run.heap, goal);
    let bytes = text_at(program, run, style, &context.module, at)?;
    put(run, bytes, context, rest, level)?;
    Ok(())
}

/// `nl/0`
pub(crate) fn new_line(
    run: &mut Run,
    context: &PredName,
    rest: u32,
    level: u64,
) -> Result<(), AllocError>
    requires holds { Holds run.old }
    requires rest { rest < length run.old.goals }
    ensures moved { OnOk result ((code : Code) → shown code run.new ≡ moved code run.old rest level (writes_row (codes "\n") (full_name context.now))) }
    ensures stands { OnOk result (Stands run.new) }
{
    let bytes = bytes_of(run.alloc, b"\n")?;
    put(run, bytes, context, rest, level)?;
    Ok(())
}

/// The text of the term at a place, under the operators of a module.
fn text_at(
    program: &Program,
    run: &Run,
    style: Style,
    seer: &Name,
    at: Ref,
) -> Result<Bytes, AllocError>
    requires { at.at < length run.now.heap.terms }
    ensures { IfOk result (λ text. text ≡ text_of (style_shown style) (ops_of program.now.modules program.now.ops seer.now) (canon (instance_at run.now.heap at.at))) }
{
    let term = run.heap.whole(at)?;
    match program.operators(seer) {
        Some(ops) => style.text(run.alloc, &term, ops),
        None => standard_text(run.alloc, style, &term),
    }
}

/// The text of a term under the standard operators.
fn standard_text(alloc: Global, style: Style, term: &Term) -> Result<Bytes, AllocError>
    ensures { IfOk result (λ text. text ≡ text_of (style_shown style) standard term.now) }
{
    let ops = OpTable::standard(alloc)?;
    style.text(alloc, term, &ops)
}

/// Hands bytes to the output port, or raises an error where they are more than one piece holds.
fn put(
    run: &mut Run,
    bytes: Bytes,
    context: &PredName,
    rest: u32,
    level: u64,
) -> Result<(), AllocError>
    requires holds { Holds run.old }
    requires rest { rest < length run.old.goals }
    ensures moved { OnOk result ((code : Code) → shown code run.new ≡ moved code run.old rest level (writes_row bytes (full_name context.now))) }
    ensures stands { OnOk result (Stands run.new) }
{
    if bytes.len() > PIECE_LIMIT {
        too_large(run, context, rest)?;
        return Ok(());
    }
    hand_over(run, bytes, context, rest, level)
}

fn hand_over(
    run: &mut Run,
    bytes: Bytes,
    context: &PredName,
    rest: u32,
    level: u64,
) -> Result<(), AllocError>
    requires holds { Holds run.old }
    requires few { length bytes ≤ 65535 }
    requires rest { rest < length run.old.goals }
    ensures moved { OnOk result ((code : Code) → shown code run.new ≡ moved code run.old rest level (writes_row bytes (full_name context.now))) }
    ensures stands { OnOk result (Stands run.new) }
{
    let context = context.clone()?;
    run.go(Point::Writes {
        bytes,
        context,
        rest,
        level,
    });
    Ok(())
}

/// The bytes are more than one piece holds.
fn too_large(run: &mut Run, context: &PredName, rest: u32) -> Result<(), AllocError>
    requires holds { Holds run.old }
    requires rest { rest < length run.old.goals }
    ensures moved { OnOk result ((code : Code) (level : ℕ) → shown code run.new ≡ moved code run.old rest level (raise_row (resource_error (codes "output_piece")) (full_name context.now))) }
    ensures stands { OnOk result (Stands run.new) }
{
    let kind = run.put_resource_error(b"output_piece")?;
    run.raise(kind, context, rest)?;
    Ok(())
}
