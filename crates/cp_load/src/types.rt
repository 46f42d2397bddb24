ghost use Rattle.std.specs.Prelude.{◌≡◌, ◌++◌, None, Ok, IfOk, OnOk};
ghost use Rattle.std.specs.Option.{option_map};
ghost use Rattle.cp_module.specs.Causes.{least};
ghost use Rattle.cp_module.specs.Least.{soonest};
ghost use Rattle.cp_link.specs.Kept.{fault_of};
ghost use Rattle.cp_load.specs.Types.{irregular_types, type_order, with_types, type_fault, typed};
ghost use Rattle.cp_load.specs.Typing.{declared_names, again_in};

use crate::step::refusal_at;
use crate::type_names::note_types;
use crate::type_rows::add_file_types;
use cp_code::{Names, Types};
use cp_module::{Cause, ModulePart, Refusal, soonest};
use std::alloc::{AllocError, Global};

/// Gives the regular types of files their clauses, and tells what is refused in them.
pub(crate) fn add_types(
    alloc: Global,
    types: &mut Types,
    parts: &[ModulePart],
) -> Result<Option<Refusal>, AllocError>
    ensures refusal { IfOk result (λ refusal. option_map fault_of refusal ≡ type_fault types.old parts.now) }
    ensures types { result ≡ Ok None → types.new ≡ typed types.old parts.now }
{
    let mut names = Names::new(alloc);
    for part in parts {
        let found = type_cause(alloc, types, &mut names, part)?;
        if let Some(cause) = found {
            let refusal = refusal_at(alloc, part.file(), cause)?;
            return Ok(Some(refusal));
        }
    }
    Ok(None)
}

/// Gives the regular types of a file their clauses, and tells what counts of what is refused in them. The names are those of
/// the types that the files before it declare, and then those of its own too.
fn type_cause(
    alloc: Global,
    types: &mut Types,
    names: &mut Names,
    part: &ModulePart,
) -> Result<Option<Cause>, AllocError>
    ensures cause { IfOk result (λ cause. cause ≡ soonest (least (again_in names.old part.now.clauses)) (least (irregular_types types.old part.now (type_order part.now.clauses)))) }
    ensures types { OnOk result (types.new ≡ with_types types.old part.now (type_order part.now.clauses)) }
    ensures names { OnOk result (names.new ≡ names.old ++ declared_names part.now.clauses) }
{
    let again = note_types(alloc, names, part.clauses().as_slice())?;
    let irregular = add_file_types(alloc, types, part)?;
    Ok(soonest(again, irregular))
}
