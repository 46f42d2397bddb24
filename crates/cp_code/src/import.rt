ghost use Rattle.std.specs.Prelude.{◌≡◌, find};
ghost use Rattle.std.specs.Option.{option_copied};
ghost use Rattle.cp_code.specs.Programs.{imports_as};

use cp_list::ListOf;
use cp_term::{Name, PredName};

/// A predicate that a module imports, from a file or from an active module.
#[derive(Debug, Drop)]
pub struct Import {
    /// The module that sees it.
    pub seer: Name,
    pub pred: PredName,
}

/// What the modules of a program import.
pub type Imports = ListOf<Import>;

impl Import {
    fn is_as(&self, seer: &[u8], name: &[u8], arity: u16) -> bool
        ensures { result ≡ imports_as seer.now name.now arity self.now }
    {
        self.seer.bytes() == seer && self.pred.name.bytes() == name && self.pred.arity == arity
    }
}

/// What a module imports under this name and arity.
pub(crate) fn imported<'a>(
    imports: &'a Imports,
    seer: &[u8],
    name: &[u8],
    arity: u16,
) -> Option<&'a Import>
    ensures { option_copied result ≡ find (imports_as seer.now name.now arity) imports.now }
{
    imports
        .as_slice()
        .iter()
        .find(|import| import.is_as(seer, name, arity))
}
