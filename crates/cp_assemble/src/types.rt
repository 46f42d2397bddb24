ghost use Rattle.std.specs.Prelude.{◌≡◌, ◌++◌, IfOk, OnOk};
ghost use Rattle.std.specs.List.{filter_map, flat_map};
ghost use Rattle.cp_link.specs.Modules.{one, said};
ghost use Rattle.cp_link.specs.Linked.{type_by, types_in};

use cp_code::{Clauses, TypeRow, Types};
use cp_declaration::Declaration;
use cp_link::said;
use cp_module::ModulePart;
use cp_read::ReadClause;
use std::alloc::{AllocError, Global};

/// The regular types of the files, without their clauses.
pub(crate) fn types(alloc: Global, parts: &[ModulePart]) -> Result<Types, AllocError>
    ensures { IfOk result (λ all. all ≡ flat_map types_in parts.now) }
{
    let mut all = Types::new(alloc);
    for part in parts {
        push_types(alloc, &mut all, part.clauses().as_slice())?;
    }
    Ok(all)
}

fn push_types(alloc: Global, all: &mut Types, clauses: &[ReadClause]) -> Result<(), AllocError>
    ensures { OnOk result (all.new ≡ all.old ++ filter_map (λ c. type_by (said c)) clauses.now) }
{
    for clause in clauses {
        push_type(alloc, all, clause)?;
    }
    Ok(())
}

/// Adds the regular type that a clause declares, if it declares one.
fn push_type(alloc: Global, all: &mut Types, clause: &ReadClause) -> Result<(), AllocError>
    ensures { OnOk result (all.new ≡ all.old ++ one (type_by (said clause.now))) }
{
    match said(alloc, clause)? {
        Some(Declaration::RegType { name }) => {
            all.push(TypeRow {
                name,
                clauses: Clauses::new(alloc),
            })
        }
        _ => Ok(()),
    }
}
