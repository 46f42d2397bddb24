ghost use Rattle.std.specs.Prelude.{◌≡◌, ◌++◌, map, IfOk, OnOk};
ghost use Rattle.std.specs.List.{flat_map};
ghost use Rattle.cp_link.specs.Exported.{shown};
ghost use Rattle.cp_link.specs.Linked.{import_in, imports_of};

use cp_code::{Import, Imports, PredNames};
use cp_link::{ModuleExports, all_exports, imports_in, name_of};
use cp_module::ModulePart;
use cp_term::{Name, PredName};
use std::alloc::{AllocError, Global};

/// What the files import.
pub(crate) fn imports(alloc: Global, parts: &[ModulePart]) -> Result<Imports, AllocError>
    ensures { IfOk result (λ all. all ≡ flat_map (imports_of parts.now) parts.now) }
{
    let mut all = Imports::new(alloc);
    let modules = all_exports(alloc, parts)?;
    for part in parts {
        push_imports_of(alloc, &mut all, parts, modules.as_slice(), part)?;
    }
    Ok(all)
}

fn push_imports_of(
    alloc: Global,
    all: &mut Imports,
    parts: &[ModulePart],
    modules: &[ModuleExports],
    part: &ModulePart,
) -> Result<(), AllocError>
    requires { modules.now ≡ map shown parts.now }
    ensures { OnOk result (all.new ≡ all.old ++ imports_of parts.now part.now) }
{
    let name = name_of(alloc, part)?;
    let preds = imports_in(
        alloc,
        parts,
        modules,
        part.file(),
        part.clauses().as_slice(),
    )?;
    push_seen(all, &name, preds)
}

/// Adds that a module sees these predicates.
fn push_seen(all: &mut Imports, seer: &Name, preds: PredNames) -> Result<(), AllocError>
    ensures { OnOk result (all.new ≡ all.old ++ map (import_in seer.now) preds) }
{
    for pred in preds.into_vec() {
        let import = import_in(seer, pred)?;
        all.push(import)?;
    }
    Ok(())
}

fn import_in(seer: &Name, pred: PredName) -> Result<Import, AllocError>
    ensures { IfOk result (λ import. import ≡ import_in seer.now pred) }
{
    Ok(Import {
        seer: seer.clone()?,
        pred,
    })
}
