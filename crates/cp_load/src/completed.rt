ghost use Rattle.std.specs.Prelude.{◌≡◌, None, Ok, IfOk, OnOk};
ghost use Rattle.std.specs.Option.{option_map};
ghost use Rattle.cp_link.specs.Kept.{fault_of};
ghost use Rattle.cp_load.specs.Types.{typed};
ghost use Rattle.cp_load.specs.Loading.{completion_fault, Completes};

use crate::assertions::add_assertions;
use crate::main_goal::main_refusal;
use crate::types::add_types;
use cp_code::Program;
use cp_module::{ModulePart, Refusal};
use std::alloc::{AllocError, Global};

/// Gives a program of files the clauses of its regular types and its assertions, and tells what is refused in them and for
/// want of `main/0`.
pub(crate) fn complete(
    alloc: Global,
    program: &mut Program,
    needs_main: bool,
    parts: &[ModulePart],
) -> Result<Option<Refusal>, AllocError>
    ensures refusal { IfOk result (λ refusal. option_map fault_of refusal ≡ completion_fault needs_main parts.now program.old) }
    ensures completes { result ≡ Ok None → Completes parts.now program.old program.new }
{
    let in_types = add_types(alloc, &mut program.types, parts)?;
    if in_types.is_some() {
        return Ok(in_types);
    }
    let in_assertions = add_assertions(alloc, program, parts)?;
    if in_assertions.is_some() {
        return Ok(in_assertions);
    }
    main_refusal(alloc, needs_main, parts)
}
