ghost use Rattle.std.specs.Prelude.{◌≡◌, None, Ok, IfOk, OnOk};
ghost use Rattle.std.specs.Option.{option_map};
ghost use Rattle.cp_module.specs.Causes.{least};
ghost use Rattle.cp_link.specs.Kept.{fault_of};
ghost use Rattle.cp_link.specs.Modules.{name_of};
ghost use Rattle.cp_load.specs.Answers.{SpeakOfArguments};
ghost use Rattle.cp_load.specs.Assertions.{causes_in, assertion_fault, ClausesAdd, FilesAdd};
ghost use Rattle.cp_load.specs.Asserting.{KeepsRest};

use crate::asserted::add_assertion;
use crate::step::refusal_at;
use cp_code::Program;
use cp_link::name_of;
use cp_module::{Cause, ModulePart, Refusal, soonest};
use std::alloc::{AllocError, Global};

/// Adds the assertions of files to those of a program, and tells what is refused in them. Nothing else of it is changed.
pub(crate) fn add_assertions(
    alloc: Global,
    program: &mut Program,
    parts: &[ModulePart],
) -> Result<Option<Refusal>, AllocError>
    ensures refusal { IfOk result (λ refusal. option_map fault_of refusal ≡ assertion_fault program.old parts.now) }
    ensures added { result ≡ Ok None → FilesAdd program.old parts.now program.old.checks program.new.checks }
    ensures rest { OnOk result (KeepsRest program.old program.new) }
    ensures arguments { OnOk result (SpeakOfArguments program.old.checks → SpeakOfArguments program.new.checks) }
{
    for part in parts {
        let found = add_file_assertions(alloc, program, part)?;
        if let Some(cause) = found {
            let refusal = refusal_at(alloc, part.file(), cause)?;
            return Ok(Some(refusal));
        }
    }
    Ok(None)
}

/// Adds the assertions of a file, and tells what counts of what is refused in them.
fn add_file_assertions(
    alloc: Global,
    program: &mut Program,
    part: &ModulePart,
) -> Result<Option<Cause>, AllocError>
    ensures cause { IfOk result (λ cause. cause ≡ least (causes_in program.old part.now)) }
    ensures added { result ≡ Ok None → ClausesAdd program.old (name_of part.now) part.now.clauses program.old.checks (λ more. program.new.checks ≡ more) }
    ensures rest { OnOk result (KeepsRest program.old program.new) }
    ensures arguments { OnOk result (SpeakOfArguments program.old.checks → SpeakOfArguments program.new.checks) }
{
    let module = name_of(alloc, part)?;
    let mut cause: Option<Cause> = None;
    for clause in part.clauses().as_slice() {
        let why = add_assertion(alloc, program, &module, clause)?;
        cause = soonest(cause, Cause::on(clause.line, why));
    }
    Ok(cause)
}
