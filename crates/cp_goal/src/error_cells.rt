ghost use Rattle.std.specs.Prelude.{◌≡◌, ◌++◌, true, [], ◌∷◌, OnOk, IfOk, pos, ◌≤◌, length};
ghost use Rattle.std.specs.Str.{IsUtf8};
ghost use Rattle.cp_term.specs.declared.cell.Cell.TheVariants.{Int as IntCell, Atom as AtomCell, Func as FuncCell};
ghost use Rattle.cp_term.specs.Preorder.{is_terms};
ghost use Rattle.cp_term.specs.Numbering.{is_numbered_from};
ghost use Rattle.cp_goal.specs.Errors as kinds;

use cp_term::{Cell, Cells, Name, Term};
use std::alloc::{AllocError, Global};

fn push_atom(alloc: Global, cells: &mut Cells, text: &[u8]) -> Result<(), AllocError>
    requires utf8 { IsUtf8 text.now }
    requires len { length text.now ≤ 1024 }
    ensures { OnOk result (cells.new ≡ cells.old ++ AtomCell text.now ∷ []) }
{
    cells.push(Cell::Atom(Name::known(alloc, text)?))?;
    Ok(())
}

/// The functor of an error term.
fn functor(alloc: Global, text: &[u8], arity: u16) -> Result<Cells, AllocError>
    requires utf8 { IsUtf8 text.now }
    requires len { length text.now ≤ 1024 }
    ensures { IfOk result (λ cells. cells ≡ FuncCell text.now arity ∷ []) }
{
    let mut cells = Cells::new(alloc);
    cells.push(Cell::Func(Name::known(alloc, text)?, arity))?;
    Ok(cells)
}

pub(crate) fn instantiation_error(alloc: Global) -> Result<Term, AllocError>
    ensures { IfOk result (λ term. term ≡ kinds.instantiation_error) }
{
    let mut cells = Cells::new(alloc);
    push_atom(alloc, &mut cells, b"instantiation_error")?;
    Ok(Term::known(cells))
}

pub(crate) fn evaluation_error(alloc: Global, why: &[u8]) -> Result<Term, AllocError>
    requires utf8 { IsUtf8 why.now }
    requires len { length why.now ≤ 1024 }
    ensures { IfOk result (λ term. term ≡ kinds.evaluation_error why.now) }
{
    let mut cells = functor(alloc, b"evaluation_error", 1)?;
    push_atom(alloc, &mut cells, why)?;
    Ok(Term::known(cells))
}

pub(crate) fn domain_error(alloc: Global, domain: &[u8], culprit: i64) -> Result<Term, AllocError>
    requires utf8 { IsUtf8 domain.now }
    requires len { length domain.now ≤ 1024 }
    ensures { IfOk result (λ term. term ≡ kinds.domain_error domain.now (IntCell culprit ∷ [])) }
{
    let mut cells = functor(alloc, b"domain_error", 2)?;
    push_atom(alloc, &mut cells, domain)?;
    cells.push(Cell::Int(culprit))?;
    Ok(Term::known(cells))
}

/// A type error whose culprit is a name with its number of arguments.
pub(crate) fn type_error_of_indicator(
    alloc: Global,
    kind: &[u8],
    name: Name,
    arity: u16,
) -> Result<Term, AllocError>
    requires utf8 { IsUtf8 kind.now }
    requires len { length kind.now ≤ 1024 }
    ensures { IfOk result (λ term. term ≡ kinds.type_error kind.now (kinds.indicator name arity)) }
{
    let mut cells = functor(alloc, b"type_error", 2)?;
    push_atom(alloc, &mut cells, kind)?;
    push_indicator(alloc, &mut cells, name, arity)?;
    Ok(Term::known(cells))
}

fn push_indicator(
    alloc: Global,
    cells: &mut Cells,
    name: Name,
    arity: u16,
) -> Result<(), AllocError>
    ensures { OnOk result (cells.new ≡ cells.old ++ kinds.indicator name arity) }
{
    cells.push(Cell::Func(Name::known(alloc, b"/")?, 2))?;
    cells.push(Cell::Atom(name))?;
    cells.push(Cell::Int(arity as i64))?;
    Ok(())
}
