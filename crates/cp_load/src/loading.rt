ghost use Rattle.std.specs.Prelude.{◌≡◌, []};
ghost use Rattle.cp_link.specs.Modules.{shared_in};
ghost use Rattle.cp_load.specs.Answers.{Loads, HasCause};
ghost use Rattle.cp_load.specs.Loading.{Makes, MakesLinked};
ghost use Rattle.cp_load.specs.Prelude.{prelude};

use crate::completed::complete;
use crate::error::LoadError;
use crate::gathering::gather;
use crate::operators::operators_of;
use crate::prelude::prelude;
use cp_assemble::{LinkError, ModuleParts, link};
use cp_code::Program;
use cp_io::Files;
use cp_module::{Loaded, ModulePart};
use std::alloc::Global;

/// What is asked of a program beside that its files are accepted.
#[derive(Debug, Clone, Copy, PartialEq, Eq, Drop)]
pub struct Need {
    /// The first module defines `main/0`.
    pub main: bool,
}

/// The program of the file of this name and of the files that it imports, directly or not, with the prelude; or else the first
/// refusal in them, or the name of the file that is missing, that has more than 1,048,576 bytes or that could not be
/// fetched. A program has at most 64 files, and each is fetched once.
pub fn load<F: Files>(
    alloc: Global,
    files: &mut F,
    name: &[u8],
    need: Need,
) -> Result<Program, LoadError>
    ensures loads { Loads (F.tree files.old) name.now need.main result }
    ensures cause { HasCause (F.faults files.old) (F.faults files.new) (F.misses files.old) (F.misses files.new) result }
    ensures tree { F.tree files.new ≡ F.tree files.old }
{
    let parts = gather(alloc, files, name)?;
    program_of(alloc, parts, need.main)
}

/// The program that files make, with the prelude.
fn program_of(alloc: Global, parts: ModuleParts, needs_main: bool) -> Result<Program, LoadError>
    ensures { Makes needs_main parts result }
{
    let mut program = linked(alloc, &parts)?;
    if let Some(refusal) = complete(alloc, &mut program, needs_main, parts.as_slice())? {
        return Err(LoadError::Refused(refusal));
    }
    program.ops = operators_of(alloc, parts)?;
    Ok(program)
}

/// The program that files make with the prelude, before its regular types have their clauses and its assertions are read.
fn linked(alloc: Global, parts: &ModuleParts) -> Result<Program, LoadError>
    ensures { MakesLinked parts.now result }
{
    match prelude(alloc) {
        Loaded::Part(common) => linked_with(alloc, parts, &common),
        Loaded::Refused(_) => unreachable!(),
        Loaded::NoMemory => Err(LoadError::NoMemory),
    }
}

fn linked_with(
    alloc: Global,
    parts: &ModuleParts,
    common: &ModulePart,
) -> Result<Program, LoadError>
    requires prelude { common.now ≡ prelude }
    requires shares { shared_in common.now.clauses ≡ [] }
    ensures { MakesLinked parts.now result }
{
    match link(alloc, parts, common) {
        Ok(program) => Ok(program),
        Err(LinkError::Refused(refusal)) => Err(LoadError::Refused(refusal)),
        Err(LinkError::NoMemory) => Err(LoadError::NoMemory),
    }
}
