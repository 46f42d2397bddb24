ghost use Rattle.std.specs.Prelude.{◌≡◌, IfOk};
ghost use Rattle.std.specs.Option.{option_map};
ghost use Rattle.cp_module.specs.Causes.{is_defined};
ghost use Rattle.cp_link.specs.Kept.{fault_of};
ghost use Rattle.cp_load.specs.Accepted.{main, main_fault};

use crate::clauses::is_defined;
use crate::step::refusal_at;
use cp_declaration::Indicator;
use cp_module::{Cause, ModulePart, Refusal, Why};
use cp_read::ReadClause;
use cp_term::Name;
use std::alloc::{AllocError, Global};

/// What is refused where the first module is to define `main/0`.
pub(crate) fn main_refusal(
    alloc: Global,
    needs_main: bool,
    parts: &[ModulePart],
) -> Result<Option<Refusal>, AllocError>
    ensures { IfOk result (λ refusal. option_map fault_of refusal ≡ main_fault needs_main parts.now) }
{
    match parts {
        [first, ..] => {
            if needs_main && !defines_main(alloc, first.clauses().as_slice())? {
                let refusal = no_main(alloc, first)?;
                Ok(Some(refusal))
            } else {
                Ok(None)
            }
        }
        [] => Ok(None),
    }
}

fn no_main(alloc: Global, part: &ModulePart) -> Result<Refusal, AllocError>
    ensures { IfOk result (λ refusal. fault_of refusal ≡ record { file = part.now.file; cause = record { line = 1; why = Why.NoMain } }) }
{
    refusal_at(
        alloc,
        part.file(),
        Cause {
            line: 1,
            why: Why::NoMain,
        },
    )
}

fn defines_main(alloc: Global, clauses: &[ReadClause]) -> Result<bool, AllocError>
    ensures { IfOk result (λ found. found ≡ is_defined clauses.now main) }
{
    let main = main_pred(alloc)?;
    is_defined(alloc, clauses, &main)
}

/// The predicate `main/0`.
fn main_pred(alloc: Global) -> Result<Indicator, AllocError>
    ensures { IfOk result (λ pred. pred ≡ main) }
{
    let name = Name::known(alloc, b"main")?;
    Ok(Indicator { name, arity: 0 })
}
