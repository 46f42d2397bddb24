ghost use Rattle.std.specs.Prelude.{◌≡◌, ◌⊎◌};
ghost use Rattle.cp_generate.specs.Program.{program_of};
ghost use Rattle.cp_top.specs.Written.{end_on, IsShort, IsAnswer};

use crate::refuse::answer;
use crate::told::{Told, short};
use cp_generate::generate;
use cp_io::Sink;
use std::alloc::Global;

/// Writes the generated program with so many items.
pub(crate) fn write_generated<S: Sink>(alloc: Global, items: u32, out: S) -> Told<S>
    requires { S.faults out ≡ 0 }
    ensures { IsShort (end_on S.held S.faults out result.out result.status result.outcome) ⊎ IsAnswer (program_of items) (end_on S.held S.faults out result.out result.status result.outcome) }
{
    match generate(alloc, items) {
        Err(_) => short(out),
        Ok(text) => answer(text.as_slice(), out),
    }
}
