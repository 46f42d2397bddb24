ghost use Rattle.std.specs.Prelude.{◌≡◌, ℕ, ◌<◌, ◌≤◌, [], ◌∷◌, ◌++◌, length, codes, IfOk, OnOk};
ghost use Rattle.std.specs.Str.{IsUtf8};
ghost use Rattle.cp_term.specs.declared.cell.Cell.TheVariants.{Atom as AtomCell, Func as FuncCell};
ghost use Rattle.cp_code.specs.Code.{Code};
ghost use Rattle.cp_code.specs.Requests.{full_name};
ghost use Rattle.cp_code.specs.Tree.{check_ball};
ghost use Rattle.cp_run.specs.Shown.{shown, moved};
ghost use Rattle.cp_run.specs.Stands.{Holds, Stands};
ghost use Rattle.cp_run.specs.Gaining.{throw_row};

use cp_run::Run;
use cp_term::{Cell, Cells, Name, PredName, Term};
use std::alloc::{AllocError, Global};

/// The ball of an assertion that fails is thrown: `rtcheck(What, M:N/A, Number)` (Ciao manual, run-time checks; the form of
/// the ball is this project's own).
pub(crate) fn throw_check(
    run: &mut Run,
    what: &[u8],
    pred: &PredName,
    number: u32,
    rest: u32,
) -> Result<(), AllocError>
    requires utf8 { IsUtf8 what.now }
    requires len { length what.now ≤ 1024 }
    requires holds { Holds run.old }
    requires rest { rest < length run.old.goals }
    ensures moved { OnOk result ((code : Code) (level : ℕ) → shown code run.new ≡ moved code run.old rest level (throw_row (check_ball what.now pred.now number))) }
    ensures stands { OnOk result (Stands run.new) }
{
    let ball = check_ball(run.alloc, what, pred, number)?;
    run.throw(ball, rest)?;
    Ok(())
}

fn check_ball(alloc: Global, what: &[u8], pred: &PredName, number: u32) -> Result<Term, AllocError>
    requires utf8 { IsUtf8 what.now }
    requires len { length what.now ≤ 1024 }
    ensures { IfOk result (λ ball. ball ≡ check_ball what.now pred.now number) }
{
    let mut cells = Cells::new(alloc);
    push_what(alloc, &mut cells, what)?;
    push_indicator(alloc, &mut cells, pred)?;
    cells.push(Cell::Int(i64::from(number)))?;
    Ok(Term::known(cells))
}

fn push_what(alloc: Global, cells: &mut Cells, what: &[u8]) -> Result<(), AllocError>
    requires utf8 { IsUtf8 what.now }
    requires len { length what.now ≤ 1024 }
    ensures { OnOk result (cells.new ≡ cells.old ++ FuncCell (codes "rtcheck") 3 ∷ AtomCell what.now ∷ []) }
{
    let check = Name::known(alloc, b"rtcheck")?;
    let what = Name::known(alloc, what)?;
    cells.push(Cell::Func(check, 3))?;
    cells.push(Cell::Atom(what))?;
    Ok(())
}

fn push_indicator(alloc: Global, cells: &mut Cells, pred: &PredName) -> Result<(), AllocError>
    ensures { OnOk result (cells.new ≡ cells.old ++ full_name pred.now) }
{
    push_module(alloc, cells, &pred.module)?;
    push_name(alloc, cells, &pred.name)?;
    cells.push(Cell::Int(i64::from(pred.arity)))?;
    Ok(())
}

fn push_module(alloc: Global, cells: &mut Cells, owner: &Name) -> Result<(), AllocError>
    ensures { OnOk result (cells.new ≡ cells.old ++ FuncCell (codes ":") 2 ∷ AtomCell owner.now ∷ []) }
{
    let colon = Name::known(alloc, b":")?;
    cells.push(Cell::Func(colon, 2))?;
    cells.push(Cell::Atom(owner.clone()?))?;
    Ok(())
}

fn push_name(alloc: Global, cells: &mut Cells, name: &Name) -> Result<(), AllocError>
    ensures { OnOk result (cells.new ≡ cells.old ++ FuncCell (codes "/") 2 ∷ AtomCell name.now ∷ []) }
{
    let slash = Name::known(alloc, b"/")?;
    cells.push(Cell::Func(slash, 2))?;
    cells.push(Cell::Atom(name.clone()?))?;
    Ok(())
}
