ghost use Rattle.std.specs.Prelude.{◌≡◌, ◌<◌, ◌-◌, ◌^◌, None, length, IfOk};
ghost use Rattle.cp_module.specs.Answers.{Loads, IsLoaded};
ghost use Rattle.cp_module.specs.Causes.{refused};
ghost use Rattle.cp_module.specs.Paths.{base_of};
ghost use Rattle.cp_module.specs.Parts.{part};

use crate::cause::Cause;
use crate::judged::refused;
use crate::part::ModulePart;
use crate::paths::base_of;
use crate::refusal::Refusal;
use crate::text::{Text, text_of};
use cp_io::{Bytes, bytes_of};
use std::alloc::{AllocError, Global};

/// What a file is by itself.
#[derive(Drop)]
pub enum Loaded {
    Part(ModulePart),
    Refused(Refusal),
    NoMemory,
}

/// The part of a program that the file with this name and these bytes is, or the refusal that counts in it. What other
/// files say of it is not looked at.
pub fn module_of(alloc: Global, file: &[u8], text: &[u8]) -> Loaded
    requires { length text.now < 2 ^ 32 - 1 }
    ensures { Loads file.now text.now result }
{
    match load(alloc, file, text) {
        Ok(loaded) => loaded,
        Err(_) => Loaded::NoMemory,
    }
}

fn load(alloc: Global, file: &[u8], text: &[u8]) -> Result<Loaded, AllocError>
    requires { length text.now < 2 ^ 32 - 1 }
    ensures { IfOk result (λ loaded. Loads file.now text.now loaded) }
{
    let name = bytes_of(alloc, file)?;
    let text = text_of(alloc, text)?;
    let cause = refused(alloc, base_of(file), &text)?;
    Ok(answer_of(name, text, cause))
}

/// The file with this name and text, for which this counts.
fn answer_of(file: Bytes, text: Text, cause: Option<Cause>) -> Loaded
    requires { cause ≡ refused (base_of file) text }
    ensures { IsLoaded file text result }
{
    match cause {
        Some(Cause { line, why }) => Loaded::Refused(Refusal { file, line, why }),
        None => part(file, text),
    }
}

fn part(file: Bytes, text: Text) -> Loaded
    requires { refused (base_of file) text ≡ None }
    ensures { result ≡ Loaded.Part (part file text) }
{
    let Text {
        clauses,
        ops,
        fault: _,
    } = text;
    Loaded::Part(ModulePart::new(file, clauses, ops))
}
