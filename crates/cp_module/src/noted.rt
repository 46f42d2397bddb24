ghost use Rattle.std.specs.Prelude.{◌≡◌, OnOk, if◌then◌else◌};
ghost use Rattle.cp_declaration.specs.declared.indicator.Indicator.{Indicator as Named};
ghost use Rattle.cp_declaration.specs.Declarations.{declaration};
ghost use Rattle.cp_code.specs.Clauses.{head_of};
ghost use Rattle.cp_module.specs.Causes.{is_in, shares_by, is_option, headed};
ghost use Rattle.cp_module.specs.Above.{known_in, known_behind, with_clause, with_sharing};

use crate::above::Above;
use crate::clause::pred_of_head;
use cp_declaration::{Declaration, Indicator, Indicators, declaration_of, is_declaration};
use cp_read::ReadClause;
use cp_term::{Cell, Term};
use std::alloc::{AllocError, Global};

/// Notes what a clause says of predicates.
pub(crate) fn note(alloc: Global, above: &mut Above, clause: &ReadClause) -> Result<(), AllocError>
    ensures { OnOk result ((p : Named) → known_in above.new p ≡ known_behind clause.now p (known_in above.old p)) }
{
    if is_declaration(&clause.term) {
        note_declaration(alloc, above, &clause.term)
    } else {
        note_head(above, clause.term.cells())
    }
}

fn note_declaration(alloc: Global, above: &mut Above, clause: &Term) -> Result<(), AllocError>
    ensures { OnOk result ((p : Named) → known_in above.new p ≡ with_sharing (is_in (shares_by (declaration clause.now)) p) (known_in above.old p)) }
{
    let said = declaration_of(alloc, clause)?;
    let preds = shares_by(alloc, said);
    note_shared(above, preds.as_slice())
}

/// The predicates that a declaration declares to be shared.
fn shares_by(alloc: Global, said: Option<Declaration>) -> Indicators
    ensures { result ≡ shares_by said }
{
    match said {
        Some(Declaration::Shared { suspends: _, preds }) => preds,
        _ => Indicators::new(alloc),
    }
}

fn note_shared(above: &mut Above, preds: &[Indicator]) -> Result<(), AllocError>
    ensures { OnOk result ((p : Named) → known_in above.new p ≡ with_sharing (is_in preds.now p) (known_in above.old p)) }
{
    for pred in preds {
        above.add_shared(&pred.name, pred.arity)?;
    }
    Ok(())
}

fn note_head(above: &mut Above, cells: &[Cell]) -> Result<(), AllocError>
    ensures { OnOk result ((p : Named) → known_in above.new p ≡ (if is_option p (headed (head_of cells.now)) then with_clause (known_in above.old p) else known_in above.old p)) }
{
    match pred_of_head(cells) {
        Some(pred) => above.add_clause(pred.name, pred.arity),
        None => Ok(()),
    }
}
