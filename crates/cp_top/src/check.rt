ghost use Rattle.std.specs.Prelude.{◌≡◌, ◌⊎◌, false, IfOk};
ghost use Rattle.cp_top.specs.Lines.{accepted_line};
ghost use Rattle.cp_top.specs.Written.{end_on, IsShort, IsAnswer};
ghost use Rattle.cp_top.specs.Loading.{use_of, IsLoadEnd};

use crate::refuse::answer;
use crate::told::{Told, short};
use crate::unloaded::tell_unloaded;
use cp_code::Program;
use cp_io::{Files, Sink};
use cp_load::{Need, load};
use itoa::Buffer;
use std::alloc::{AllocError, Global};

/// `{ACCEPTED: M modules, C clauses, S shared}` and a newline.
fn accepted_line(alloc: Global, program: &Program) -> Result<Vec<u8>, AllocError>
    ensures { IfOk result (λ line. line.items ≡ accepted_line program.now) }
{
    let mut digits = Buffer::new();
    let mut line = Vec::from_slice(alloc, b"{ACCEPTED: ")?;
    line.extend_from_slice(digits.format(program.modules.len()).as_bytes())?;
    line.extend_from_slice(b" modules, ")?;
    line.extend_from_slice(digits.format(program.written).as_bytes())?;
    line.extend_from_slice(b" clauses, ")?;
    line.extend_from_slice(digits.format(program.shared.len()).as_bytes())?;
    line.extend_from_slice(b" shared}\n")?;
    Ok(line)
}

/// Tells what an accepted program is of.
fn tell_accepted<S: Sink>(alloc: Global, program: &Program, out: S) -> Told<S>
    requires { S.faults out ≡ 0 }
    ensures { IsShort (end_on S.held S.faults out result.out result.status result.outcome) ⊎ IsAnswer (accepted_line program.now) (end_on S.held S.faults out result.out result.status result.outcome) }
{
    match accepted_line(alloc, program) {
        Err(_) => short(out),
        Ok(line) => answer(line.as_slice(), out),
    }
}

/// Loads a file, and tells what the program is of or why there is none.
pub(crate) fn check<F: Files, S: Sink>(alloc: Global, files: &mut F, file: &[u8], out: S) -> Told<S>
    requires { S.faults out ≡ 0 }
    ensures ending { IsLoadEnd file.now false (use_of F.tree F.faults F.misses files.old files.new) (λ p. IsShort (end_on S.held S.faults out result.out result.status result.outcome) ⊎ IsAnswer (accepted_line p) (end_on S.held S.faults out result.out result.status result.outcome)) (end_on S.held S.faults out result.out result.status result.outcome) }
    ensures tree { F.tree files.new ≡ F.tree files.old }
{
    match load(alloc, files, file, Need { main: false }) {
        Err(error) => tell_unloaded(alloc, error, out),
        Ok(program) => tell_accepted(alloc, &program, out),
    }
}
