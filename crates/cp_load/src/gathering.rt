ghost use Rattle.std.specs.Prelude.{◌≡◌, ◌+◌, ◌≤◌, ◌<◌, ℕ, List, length, Some, OnOk};
ghost use Rattle.cp_load.specs.Answers.{HasCause};
ghost use Rattle.cp_load.specs.Gathering.{most_bytes, taken};
ghost use Rattle.cp_load.specs.Reached.{Gathers, IsTaken, TakesFile, IsReached, Reaches};

use crate::error::LoadError;
use crate::step::step_refusal;
use cp_assemble::ModuleParts;
use cp_io::{ByteLists, Bytes, Fetched, Files, bytes_of};
use cp_module::{Loaded, ModulePart, module_of};
use std::alloc::Global;

/// The most bytes that a file has.
const MOST_BYTES: u32 = 1048576;

/// The file of this name and those that are imported from it, directly or not, in loading order: each by itself, and none
/// refused for its name or for the number of files.
pub(crate) fn gather<F: Files>(
    alloc: Global,
    files: &mut F,
    name: &[u8],
) -> Result<ModuleParts, LoadError>
    ensures loads { Gathers (F.tree files.old) name.now result }
    ensures cause { HasCause (F.faults files.old) (F.faults files.new) (F.misses files.old) (F.misses files.new) result }
    ensures tree { F.tree files.new ≡ F.tree files.old }
{
    let mut known = ByteLists::new(alloc);
    known.push(bytes_of(alloc, name)?)?;
    let mut parts = ModuleParts::new(alloc);
    'files: while parts.len() < known.len() {
        gather_next(alloc, files, &mut known, &mut parts)?;
    }
    Ok(parts)
}

/// Loads the first of the known files that is not loaded yet, and makes those known that it imports.
fn gather_next<F: Files>(
    alloc: Global,
    files: &mut F,
    known: &mut ByteLists,
    parts: &mut ModuleParts,
) -> Result<(), LoadError>
    requires next { length parts.old < length known.old }
    requires room { length known.old ≤ 64 }
    ensures loads { (name : List ℕ) → IsReached (F.tree files.old) name known.old parts.old → Reaches (F.tree files.old) name known.new parts.new result }
    ensures cause { HasCause (F.faults files.old) (F.faults files.new) (F.misses files.old) (F.misses files.new) result }
    ensures tree { F.tree files.new ≡ F.tree files.old }
    ensures more { OnOk result (length parts.new ≡ length parts.old + 1) }
{
    let file = &known.as_slice()[parts.len() as usize];
    let part = load_file(alloc, files, file.as_slice())?;
    let refusal = step_refusal(alloc, known, parts.as_slice(), &part)?;
    if let Some(refusal) = refusal {
        return Err(LoadError::Refused(refusal));
    }
    parts.push(part)?;
    Ok(())
}

/// What the file of this name is by itself.
fn load_file<F: Files>(alloc: Global, files: &mut F, file: &[u8]) -> Result<ModulePart, LoadError>
    ensures loads { TakesFile (F.tree files.old) file.now result }
    ensures cause { HasCause (F.faults files.old) (F.faults files.new) (F.misses files.old) (F.misses files.new) result }
    ensures tree { F.tree files.new ≡ F.tree files.old }
{
    let name = bytes_of(alloc, file)?;
    match files.fetch(file, MOST_BYTES)? {
        Fetched::Bytes(text) => part_of(alloc, name, text.as_slice()),
        Fetched::Missing => Err(LoadError::Missing(name)),
        Fetched::Fault => Err(LoadError::FileFault(name)),
    }
}

/// What the file with this name and these bytes is by itself.
fn part_of(alloc: Global, file: Bytes, text: &[u8]) -> Result<ModulePart, LoadError>
    requires { length text.now ≤ most_bytes + 1 }
    ensures loads { IsTaken file (Some text.now) result }
    ensures cause { (faults misses : ℕ) → HasCause faults faults misses misses result }
{
    if text.len() > MOST_BYTES as usize {
        return Err(LoadError::FileTooBig(file));
    }
    match module_of(alloc, file.as_slice(), text) {
        Loaded::Part(part) => Ok(part),
        Loaded::Refused(refusal) => Err(LoadError::Refused(refusal)),
        Loaded::NoMemory => Err(LoadError::NoMemory),
    }
}
