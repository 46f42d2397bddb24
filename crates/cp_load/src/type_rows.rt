ghost use Rattle.std.specs.Prelude.{◌≡◌, IfOk, OnOk};
ghost use Rattle.std.specs.Option.{option_copied};
ghost use Rattle.cp_assertion.specs.RegularTypes.{first_irregular, given};
ghost use Rattle.cp_module.specs.Causes.{least};
ghost use Rattle.cp_load.specs.Types.{line_of, irregular, irregular_types, type_order, with_types};

use crate::type_order::type_order;
use cp_assemble::Places;
use cp_assertion::{TypeError, add_regtype};
use cp_code::{Clause, Clauses, TypeRow, Types};
use cp_link::name_of;
use cp_module::{Cause, ModulePart, Why, soonest};
use cp_term::Name;
use std::alloc::{AllocError, Global};

/// Gives the regular types of a file their clauses, and tells what counts of those that the rules do not admit.
pub(crate) fn add_file_types(
    alloc: Global,
    types: &mut Types,
    part: &ModulePart,
) -> Result<Option<Cause>, AllocError>
    ensures cause { IfOk result (λ cause. cause ≡ least (irregular_types types.old part.now (type_order part.now.clauses))) }
    ensures types { OnOk result (types.new ≡ with_types types.old part.now (type_order part.now.clauses)) }
{
    let module = name_of(alloc, part)?;
    let clauses = part.clauses().as_slice();
    let order = type_order(alloc, clauses)?;
    let places = Places::of(alloc, clauses)?;
    let mut cause: Option<Cause> = None;
    for pred in order.as_slice() {
        let own = places.all_of(alloc, &module, clauses, pred)?;
        let found = add_type(alloc, types, &pred.name, own)?;
        cause = soonest(cause, found);
    }
    Ok(cause)
}

/// Gives a regular type its clauses, and tells the first that the rules do not admit.
fn add_type(
    alloc: Global,
    types: &mut Types,
    name: &Name,
    own: Clauses,
) -> Result<Option<Cause>, AllocError>
    ensures cause { IfOk result (λ cause. cause ≡ least (irregular own (first_irregular types.old name.now own))) }
    ensures types { OnOk result (types.new ≡ given types.old name.now own) }
{
    match add_regtype(alloc, types, name, &own) {
        Ok(()) => Ok(None),
        Err(TypeError::NotRegular { clause }) => {
            let line = line_of(own.get(clause));
            give(types, name, own);
            Ok(Some(Cause {
                line,
                why: Why::NotRegular,
            }))
        }
        Err(TypeError::NoMemory) => Err(AllocError),
    }
}

fn line_of(clause: Option<&Clause>) -> u32
    ensures { result ≡ line_of (option_copied clause.entry) }
{
    match clause {
        Some(clause) => clause.line,
        None => 1,
    }
}

/// Gives the first row of this name these clauses.
fn give(types: &mut Types, name: &Name, clauses: Clauses)
    ensures { types.new ≡ given types.old name.now clauses }
{
    let none = Types::new(types.alloc());
    let mut rows = std::mem::replace(types, none).into_vec();
    give_row(rows.as_mut_slice(), name.bytes(), clauses);
    *types = Types::from_vec(rows);
}

fn give_row(rows: &mut [TypeRow], name: &[u8], clauses: Clauses)
    ensures { rows.new ≡ given rows.old name.now clauses }
{
    for at in 0..rows.len() {
        if rows[at].name.bytes() == name {
            let row = &mut rows[at];
            row.clauses = clauses;
            return;
        }
    }
}
