ghost use Rattle.std.specs.Prelude.{[], ◌∷◌, ◌++◌, OnOk};
ghost use Rattle.cp_term.specs.declared.cell.Cell.TheVariants.{Func};
ghost use Rattle.cp_log_text.specs.History.{call_parts, cursor_parts};
ghost use Rattle.cp_log_text.specs.Building.{Gains};

use crate::line::Line;
use cp_call::Call;
use cp_term::Term;
use std::alloc::AllocError;

/// Adds a call on a shared object.
pub(crate) fn add_call(line: &mut Line, call: &Call) -> Result<(), AllocError>
    ensures { OnOk result (Gains line.old line.new (call_parts call.now)) }
{
    match call {
        Call::AddFront { fact } => add_compound(line, b"add_front", fact),
        Call::AddBack { fact } => add_compound(line, b"add_back", fact),
        Call::Next { pattern, after } => add_look(line, b"next", pattern, *after),
        Call::Take { pattern, after } => add_look(line, b"take", pattern, *after),
        Call::NextNb { pattern, after } => add_look(line, b"next_nb", pattern, *after),
        Call::TakeNb { pattern, after } => add_look(line, b"take_nb", pattern, *after),
        Call::Purge { pattern } => add_compound(line, b"purge", pattern),
        Call::Replace { fact } => add_compound(line, b"replace", fact),
        Call::Close => line.word(b"close"),
        Call::Reopen => line.word(b"reopen"),
        Call::Leave => line.word(b"leave"),
    }
}

/// Adds a compound of one argument.
pub(crate) fn add_compound(line: &mut Line, name: &[u8], argument: &Term) -> Result<(), AllocError>
    ensures { OnOk result (Gains line.old line.new ((Func name.now 1 ∷ []) ∷ argument.now ∷ [])) }
{
    line.functor(name, 1)?;
    line.term(argument)?;
    Ok(())
}

/// Adds a call that looks for a fact.
fn add_look(
    line: &mut Line,
    name: &[u8],
    pattern: &Term,
    after: Option<i64>,
) -> Result<(), AllocError>
    ensures { OnOk result (Gains line.old line.new ((Func name.now 2 ∷ []) ∷ pattern.now ∷ cursor_parts after)) }
{
    line.functor(name, 2)?;
    line.term(pattern)?;
    add_cursor(line, after)?;
    Ok(())
}

/// Adds where a call begins to look.
fn add_cursor(line: &mut Line, after: Option<i64>) -> Result<(), AllocError>
    ensures { OnOk result (Gains line.old line.new (cursor_parts after)) }
{
    match after {
        None => line.word(b"none"),
        Some(place) => {
            line.functor(b"at", 1)?;
            line.integer(place)?;
            Ok(())
        }
    }
}
