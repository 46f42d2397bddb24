ghost use Rattle.std.specs.Prelude.{◌≡◌};
ghost use Rattle.cp_top.specs.Written.{end_on};
ghost use Rattle.cp_top.specs.Loading.{IsUnloaded};

use crate::file_line::{file_line, refused_line};
use crate::refuse::refuse;
use crate::told::{Told, short};
use cp_io::{Bytes, Sink};
use cp_load::LoadError;
use std::alloc::Global;

/// Tells why there is no program.
pub(crate) fn tell_unloaded<S: Sink>(alloc: Global, error: LoadError, out: S) -> Told<S>
    requires { S.faults out ≡ 0 }
    ensures { IsUnloaded error (end_on S.held S.faults out result.out result.status result.outcome) }
{
    match error {
        LoadError::Refused(refusal) => refuse(65, refused_line(alloc, &refusal), out),
        LoadError::Missing(file) => {
            refuse(66, file_line(alloc, file.as_slice(), b"missing"), out)
        }
        LoadError::FileTooBig(file) => {
            refuse(66, file_line(alloc, file.as_slice(), b"too big"), out)
        }
        LoadError::FileFault(file) => refuse(66, file_line(alloc, file.as_slice(), b"fault"), out),
        LoadError::NoMemory => short(out),
    }
}
