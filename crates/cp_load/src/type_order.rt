ghost use Rattle.std.specs.Prelude.{◌≡◌, ◌&&◌, nat_eq, IfOk, OnOk};
ghost use Rattle.cp_module.specs.Causes.{pred_of};
ghost use Rattle.cp_load.specs.Types.{type_order};
ghost use Rattle.cp_load.specs.Typing.{is_name_in, is_type_named, with_type};

use crate::clauses::pred_of;
use crate::type_names::{declared_names, is_name_in};
use cp_declaration::{Indicator, Indicators};
use cp_link::is_in;
use cp_read::ReadClause;
use cp_term::Name;
use std::alloc::{AllocError, Global};

/// The regular types that a file declares and has clauses of, in the order of their first clauses.
pub(crate) fn type_order(alloc: Global, clauses: &[ReadClause]) -> Result<Indicators, AllocError>
    ensures { IfOk result (λ order. order ≡ type_order clauses.now) }
{
    let names = declared_names(alloc, clauses)?;
    let mut order = Indicators::new(alloc);
    for clause in clauses {
        push_clause(&mut order, names.as_slice(), clause)?;
    }
    Ok(order)
}

/// Adds the predicate of a clause, if it is a type of one of these names and is not there.
fn push_clause(
    order: &mut Indicators,
    names: &[Name],
    clause: &ReadClause,
) -> Result<(), AllocError>
    ensures { OnOk result (order.new ≡ with_type names.now order.old (pred_of clause.now)) }
{
    match pred_of(clause)? {
        Some(pred) => push_type(order, names, pred),
        None => Ok(()),
    }
}

fn push_type(order: &mut Indicators, names: &[Name], pred: Indicator) -> Result<(), AllocError>
    ensures { OnOk result (order.new ≡ with_type names.now order.old (Some pred)) }
{
    if !is_type_named(names, &pred) || is_in(order.as_slice(), &pred) {
        return Ok(());
    }
    order.push(pred)
}

fn is_type_named(names: &[Name], pred: &Indicator) -> bool
    ensures { result ≡ is_type_named names.now pred.now }
{
    pred.arity == 1 && is_name_in(names, &pred.name)
}
