ghost use Rattle.std.specs.Prelude.{◌≡◌, ◌≤◌, IfOk, OnOk, [], ◌∷◌, ◌++◌, codes, length};
ghost use Rattle.std.specs.Str.{IsUtf8};
ghost use Rattle.cp_term.specs.declared.cell.Cell.TheVariants.{Var, Atom, Func};
ghost use Rattle.cp_call.specs.Life.{how_term, ended_fact};
ghost use Rattle.cp_shell.specs.Stage.{stage_with};

use cp_call::{How, Next};
use cp_term::{Cell, Cells, Name, Term};
use std::alloc::{AllocError, Global};

/// Where a worker stands between two events: it looks for a goal, its goal makes a request, or it says how its goal
/// ended.
#[derive(Drop)]
pub enum Stage {
    Idle,
    Runs { number: i64, request: Next },
    Ends { number: i64, end: Term },
}

/// The term of these cells, which are one.
fn term_of(cells: Cells) -> Result<Term, AllocError>
    ensures { IfOk result (λ term. term ≡ cells) }
{
    match Term::from_cells(cells) {
        Ok(term) => Ok(term),
        Err(_) => Err(AllocError),
    }
}

/// An atom as a term.
pub(crate) fn atom(alloc: Global, text: &[u8]) -> Result<Term, AllocError>
    requires utf8 { IsUtf8 text.now }
    requires len { length text.now ≤ 1024 }
    ensures { IfOk result (λ term. term ≡ Atom text.now ∷ []) }
{
    let mut cells = Cells::new(alloc);
    cells.push(Cell::Atom(Name::known(alloc, text)?))?;
    term_of(cells)
}

fn push_all(cells: &mut Cells, term: &Term) -> Result<(), AllocError>
    ensures { OnOk result (cells.new ≡ cells.old ++ term.now) }
{
    for cell in term.cells() {
        cells.push(cell.clone()?)?;
    }
    Ok(())
}

/// `ball(Ball)`.
fn ball_term(alloc: Global, ball: &Term) -> Result<Term, AllocError>
    ensures { IfOk result (λ term. term ≡ Func (codes "ball") 1 ∷ ball.now) }
{
    let mut cells = Cells::new(alloc);
    cells.push(Cell::Func(Name::known(alloc, b"ball")?, 1))?;
    push_all(&mut cells, ball)?;
    term_of(cells)
}

/// `ended(Number, End)`.
pub(crate) fn ended_term(alloc: Global, number: i64, end: &Term) -> Result<Term, AllocError>
    ensures { IfOk result (λ term. term ≡ ended_fact number end.now) }
{
    let mut cells = Cells::new(alloc);
    cells.push(Cell::Func(Name::known(alloc, b"ended")?, 2))?;
    cells.push(Cell::Int(number))?;
    push_all(&mut cells, end)?;
    term_of(cells)
}

/// How a goal ended, as a term.
fn end_term(alloc: Global, how: &How) -> Result<Term, AllocError>
    ensures { IfOk result (λ term. term ≡ how_term how.now) }
{
    match how {
        How::Done => atom(alloc, b"fail"),
        How::Steps => atom(alloc, b"steps"),
        How::Ball(ball) => ball_term(alloc, ball),
    }
}

/// The stage of the goal of this number, which does this next.
pub(crate) fn stage_of(alloc: Global, number: i64, next: Next) -> Result<Stage, AllocError>
    ensures { IfOk result (λ stage. stage ≡ stage_with number next) }
{
    match next {
        Next::Answer { goal: _ } => Ok(Stage::Ends {
            number,
            end: atom(alloc, b"true")?,
        }),
        Next::End { how } => Ok(Stage::Ends {
            number,
            end: end_term(alloc, &how)?,
        }),
        Next::Ask { object, call } => Ok(Stage::Runs {
            number,
            request: Next::Ask { object, call },
        }),
        Next::Put { bytes } => Ok(Stage::Runs {
            number,
            request: Next::Put { bytes },
        }),
        Next::Remote { call } => Ok(Stage::Runs {
            number,
            request: Next::Remote { call },
        }),
    }
}

/// A variable as a term: the pattern that every fact fits.
pub(crate) fn any_term(alloc: Global) -> Result<Term, AllocError>
    ensures { IfOk result (λ term. term ≡ Var 0 ∷ []) }
{
    let mut cells = Cells::new(alloc);
    cells.push(Cell::Var(0))?;
    term_of(cells)
}
