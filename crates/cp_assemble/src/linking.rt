ghost use Rattle.std.specs.Prelude.{◌≡◌, []};
ghost use Rattle.cp_link.specs.Modules.{shared_in};
ghost use Rattle.cp_assemble.specs.Answers.{Links};

use crate::assembling::assemble;
use cp_code::Program;
use cp_link::refusal_in;
use cp_list::ListOf;
use cp_module::{ModulePart, Refusal};
use std::alloc::Global;

/// The files of a program, in loading order.
pub type ModuleParts = ListOf<ModulePart>;

/// Why files make no program together.
#[derive(Debug, Drop)]
pub enum LinkError {
    Refused(Refusal),
    NoMemory,
}

/// The program that these files and the prelude make, or the first refusal in them. The files stand in loading order, and
/// those that one of them imports are among them; the prelude has no shared predicates. Regular types have no clauses yet,
/// there are no assertions, and the operators of the files stay with them.
pub fn link(alloc: Global, parts: &ModuleParts, prelude: &ModulePart) -> Result<Program, LinkError>
    requires prelude { shared_in prelude.now.clauses ≡ [] }
    ensures { Links parts.now prelude.now result }
{
    match refusal_in(alloc, parts.as_slice()) {
        Ok(Some(refusal)) => Err(LinkError::Refused(refusal)),
        Ok(None) => match assemble(alloc, parts.as_slice(), prelude) {
            Ok(program) => Ok(program),
            Err(_) => Err(LinkError::NoMemory),
        },
        Err(_) => Err(LinkError::NoMemory),
    }
}
