ghost use Rattle.std.specs.Prelude.{◌≡◌, ◌&&◌, Some, map, IfOk};
ghost use Rattle.std.specs.List.{list_any};
ghost use Rattle.cp_code.specs.Bodies.{is};
ghost use Rattle.cp_code.specs.Programs.{is_of_prelude};
ghost use Rattle.cp_link.specs.Exported.{shown, exports_it_in, is_active, is_exported_by, is_exported_in};

use crate::exports::export_list;
use crate::names::name_of;
use crate::pred_list::PredList;
use crate::spot::Written;
use cp_declaration::Indicator;
use cp_list::ListOf;
use cp_module::ModulePart;
use cp_term::{Name, PredName};
use std::alloc::{AllocError, Global};

/// A module and what it exports.
#[derive(Drop)]
pub struct ModuleExports {
    pub(crate) module_name: Name,
    pub(crate) exports: PredList,
}

/// What the modules of a program export, in loading order.
pub type AllExports = ListOf<ModuleExports>;

/// What the files export.
pub fn all_exports(alloc: Global, parts: &[ModulePart]) -> Result<AllExports, AllocError>
    ensures { IfOk result (λ all. all ≡ map shown parts.now) }
{
    let mut all = AllExports::new(alloc);
    for part in parts {
        let module = shown(alloc, part)?;
        all.push(module)?;
    }
    Ok(all)
}

fn shown(alloc: Global, part: &ModulePart) -> Result<ModuleExports, AllocError>
    ensures { IfOk result (λ shown_part. shown_part ≡ shown part.now) }
{
    let module_name = name_of(alloc, part)?;
    let exports = export_list(alloc, part)?;
    Ok(ModuleExports {
        module_name,
        exports,
    })
}

/// Whether a goal may be written with this module: its predicate is exported by a module of the program, by the prelude or
/// by an active module.
pub(crate) fn is_exported(
    all: &[ModuleExports],
    active: &[PredName],
    written: &Written,
) -> Result<bool, AllocError>
    ensures { IfOk result (λ found. found ≡ is_exported_in all.now active.now written.now) }
{
    match &written.pred {
        Some(pred) => is_exported_by(all, active, &written.module_name, pred),
        None => Ok(false),
    }
}

fn is_exported_by(
    all: &[ModuleExports],
    active: &[PredName],
    module_name: &Name,
    pred: &Indicator,
) -> Result<bool, AllocError>
    ensures { IfOk result (λ found. found ≡ is_exported_by all.now active.now module_name.now (Some pred.now)) }
{
    if is_exported_by_prelude(module_name, pred) {
        return Ok(true);
    }
    let found = is_exported_by_one(all, module_name, pred)?;
    Ok(found || is_one_active(active, module_name, pred))
}

fn is_exported_by_one(
    all: &[ModuleExports],
    module_name: &Name,
    pred: &Indicator,
) -> Result<bool, AllocError>
    ensures { IfOk result (λ found. found ≡ list_any (exports_it_in module_name.now pred.now) all.now) }
{
    for of in all {
        if of.exports_it(module_name, pred)? {
            return Ok(true);
        }
    }
    Ok(false)
}

fn is_one_active(active: &[PredName], module_name: &Name, pred: &Indicator) -> bool
    ensures { result ≡ list_any (is_active module_name.now pred.now) active.now }
{
    active.iter().any(|name| is_active(module_name, pred, name))
}

fn is_exported_by_prelude(module_name: &Name, pred: &Indicator) -> bool
    ensures { result ≡ (is module_name.now "prelude" && is_of_prelude pred.now.name pred.now.arity) }
{
    module_name.bytes() == b"prelude".as_slice() && is_of_prelude(pred.name.bytes(), pred.arity)
}

/// Whether every module sees a predicate of the prelude under this name and arity.
fn is_of_prelude(name: &[u8], arity: u16) -> bool
    ensures { result ≡ is_of_prelude name.now arity }
{
    match arity {
        1 => name == b"once".as_slice(),
        2 => name == b"member".as_slice() || name == b"length".as_slice(),
        3 => name == b"append".as_slice() || name == b"between".as_slice(),
        _ => false,
    }
}

impl ModuleExports {
    fn exports_it(&self, module_name: &Name, pred: &Indicator) -> Result<bool, AllocError>
        ensures { IfOk result (λ found. found ≡ exports_it_in module_name.now pred.now self.now) }
    {
        if self.module_name.bytes() != module_name.bytes() {
            return Ok(false);
        }
        self.exports.has(pred)
    }
}

fn is_active(module_name: &Name, pred: &Indicator, name: &PredName) -> bool
    ensures { result ≡ is_active module_name.now pred.now name.now }
{
    module_name.bytes() == name.module.bytes()
        && pred.name.bytes() == name.name.bytes()
        && pred.arity == name.arity
}
