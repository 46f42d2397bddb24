ghost use Rattle.std.specs.Prelude.{◌≡◌, true, Ok, is_some, is_ok, OnOk, unwrap_or};
ghost use Rattle.std.specs.List.{list_all};
ghost use Rattle.cp_ops.specs.Operators.{declare, is_fixed, priority_of};
ghost use Rattle.cp_module.specs.Texts.{declared, ops_after};
ghost use Rattle.cp_module.specs.Operators.{is_accepted};

use cp_declaration::{Declaration, Names, declaration_of};
use cp_ops::{Fix, OpError, OpTable};
use cp_term::{Name, Term};
use std::alloc::{AllocError, Global};

/// Makes the table what it is behind a clause: an `op` declaration of which nothing is refused changes it.
pub(crate) fn change_operators(
    alloc: Global,
    ops: &mut OpTable,
    clause: &Term,
) -> Result<(), AllocError>
    ensures { OnOk result (ops.new ≡ ops_after ops.old clause.now) }
{
    match declaration_of(alloc, clause)? {
        Some(
            Declaration::Operators {
                priority,
                kind,
                names,
            },
        ) => declare_all(ops, priority, &kind, names.as_slice()),
        _ => Ok(()),
    }
}

/// Makes each of the names such an operator, unless one of them is refused.
fn declare_all(
    ops: &mut OpTable,
    priority: i64,
    kind: &Name,
    names: &[Name],
) -> Result<(), AllocError>
    ensures { OnOk result (ops.new ≡ unwrap_or (declared ops.old priority kind.now names.now) ops.old) }
{
    if !are_accepted(priority, kind, names) {
        return Ok(());
    }
    for name in names {
        declare(ops, priority, kind, name)?;
    }
    Ok(())
}

/// Makes an accepted name such an operator.
fn declare(ops: &mut OpTable, priority: i64, kind: &Name, name: &Name) -> Result<(), AllocError>
    requires { is_ok (declare ops.old priority kind.now name.now) ≡ true }
    ensures { OnOk result (declare ops.old priority kind.now name.now ≡ Ok ops.new) }
{
    match ops.declare(priority, kind, name) {
        Ok(()) => Ok(()),
        Err(OpError::NoMemory) => Err(AllocError),
        Err(_) => unreachable!(),
    }
}

/// Whether each of the names may be made such an operator.
pub(crate) fn are_accepted(priority: i64, kind: &Name, names: &[Name]) -> bool
    ensures { result ≡ list_all (is_accepted priority kind.now) names.now }
{
    names.iter().all(|name| is_accepted(priority, kind, name))
}

fn is_accepted(priority: i64, kind: &Name, name: &Name) -> bool
    ensures { result ≡ is_accepted priority kind.now name.now }
{
    is_priority(priority) && Fix::named(kind.bytes()).is_some() && !is_fixed(name.bytes())
}

fn is_priority(priority: i64) -> bool
    ensures { result ≡ is_some (priority_of priority) }
{
    0 <= priority && priority <= 1200
}

/// Whether no declaration changes the name.
fn is_fixed(name: &[u8]) -> bool
    ensures { result ≡ is_fixed name.now }
{
    name == b",".as_slice()
        || name == b"|".as_slice()
        || name == b"[]".as_slice()
        || name == b"{}".as_slice()
}
