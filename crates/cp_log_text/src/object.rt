ghost use Rattle.std.specs.Prelude.{◌≡◌, [], ◌∷◌, IfOk, OnOk};
ghost use Rattle.cp_log_text.specs.Line.{functor, word, atom, number, term_with};
ghost use Rattle.cp_log_text.specs.History.{object_parts, name_parts};
ghost use Rattle.cp_log_text.specs.Building.{Gains};

use crate::line::Line;
use cp_call::ObjectName;
use cp_term::PredName;
use std::alloc::{AllocError, Global};

/// The line that the entries of a shared object follow.
pub(crate) fn object_line(alloc: Global, name: &ObjectName) -> Result<Line, AllocError>
    ensures { IfOk result (λ line. line.cells ≡ term_with (object_parts name.now)) }
{
    let mut line = Line::new(alloc);
    line.functor(b"object", 1)?;
    add_name(&mut line, name)?;
    Ok(line)
}

fn add_name(line: &mut Line, name: &ObjectName) -> Result<(), AllocError>
    ensures { OnOk result (Gains line.old line.new (name_parts name.now)) }
{
    match name {
        ObjectName::Goals => line.word(b"$goals"),
        ObjectName::Ended => line.word(b"$ended"),
        ObjectName::Pred(name) => add_predicate(line, name),
    }
}

/// Adds a predicate as `M:N/A`.
fn add_predicate(line: &mut Line, name: &PredName) -> Result<(), AllocError>
    ensures { OnOk result (Gains line.old line.new (functor ":" 2 ∷ atom name.now.«module» ∷ functor "/" 2 ∷ atom name.now.name ∷ number name.now.arity ∷ [])) }
{
    line.functor(b":", 2)?;
    line.name(&name.module)?;
    add_indicator(line, name)?;
    Ok(())
}

fn add_indicator(line: &mut Line, name: &PredName) -> Result<(), AllocError>
    ensures { OnOk result (Gains line.old line.new (functor "/" 2 ∷ atom name.now.name ∷ number name.now.arity ∷ [])) }
{
    line.functor(b"/", 2)?;
    line.name(&name.name)?;
    line.number(u32::from(name.arity))?;
    Ok(())
}
