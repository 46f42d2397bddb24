ghost use Rattle.std.specs.Prelude.{◌≡◌, IfOk};
ghost use Rattle.std.specs.Option.{option_copied};
ghost use Rattle.cp_link.specs.Keyed.{noted, differs};

use cp_term::Name;
use std::alloc::AllocError;

/// The modules that predicates of one name and arity are imported from: the first of them, and whether there are others.
#[derive(Drop)]
pub(crate) struct Origin {
    pub(crate) module_name: Name,
    pub(crate) several: bool,
}

/// The origin with one module more.
pub(crate) fn noted(origin: Option<&Origin>, module_name: &Name) -> Result<Origin, AllocError>
    ensures { IfOk result (λ more. more ≡ noted (option_copied origin.entry) module_name.now) }
{
    match origin {
        None => Ok(Origin {
            module_name: module_name.clone()?,
            several: false,
        }),
        Some(origin) => Ok(Origin {
            module_name: origin.module_name.clone()?,
            several: origin.several || origin.module_name.bytes() != module_name.bytes(),
        }),
    }
}

/// Whether one of the modules is another one than this.
pub(crate) fn differs(origin: Option<&Origin>, module_name: &Name) -> bool
    ensures { result ≡ differs (option_copied origin.entry) module_name.now }
{
    match origin {
        None => false,
        Some(origin) => origin.several || module_name.bytes() != origin.module_name.bytes(),
    }
}
