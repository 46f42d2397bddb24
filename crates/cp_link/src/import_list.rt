ghost use Rattle.std.specs.Prelude.{◌≡◌, ◌∷◌, ◌++◌, [], IfOk};
ghost use Rattle.std.specs.List.{list_any};
ghost use Rattle.cp_link.specs.Imports.{is_imported};
ghost use Rattle.cp_link.specs.Refusals.{clashes_with};
ghost use Rattle.cp_link.specs.Keyed.{named, bare};

use crate::origin::{Origin, differs, noted};
use crate::pred_list::{Key, key_of};
use cp_code::PredNames;
use cp_declaration::Indicator;
use cp_term::PredName;
use indexmap::IndexMap;
use std::alloc::{AllocError, Global};
use std::marker::Model;

/// Imported predicates in their order, with a table of the modules that each name and arity is imported from. Contracts see
/// the list.
#[derive(Drop)]
pub(crate) struct ImportList {
    preds: PredNames,
    origins: IndexMap<Key, Origin>,
}

impl Model for ImportList {
    ghost use Rattle.std.specs.Prelude.{List};
    ghost use Rattle.cp_term.specs.declared.pred_name.PredName.{PredName};
    ghost use Rattle.cp_link.specs.Imported.{preds_in, HasOrigins};

    ghost Value = { List PredName };

    ghost view = { preds_in };

    ghost invariant = { HasOrigins };
}

impl ImportList {
    pub(crate) fn new(alloc: Global) -> ImportList
        ensures { result ≡ [] }
    {
        ImportList {
            preds: PredNames::new(alloc),
            origins: IndexMap::new(alloc),
        }
    }

    /// The list with these behind it.
    pub(crate) fn with_all(self, preds: PredNames) -> Result<ImportList, AllocError>
        ensures { IfOk result (λ all. all ≡ self ++ preds) }
    {
        let mut all = self;
        for pred in preds.into_vec() {
            let longer = all.with(pred)?;
            all = longer;
        }
        Ok(all)
    }

    /// The list with one predicate more.
    fn with(self, pred: PredName) -> Result<ImportList, AllocError>
        ensures { IfOk result (λ all. all ≡ self ++ pred ∷ []) }
    {
        let ImportList {
            mut preds,
            mut origins,
        } = self;
        let key = key_in(&pred)?;
        let origin = noted(origins.get(&key), &pred.module)?;
        origins.insert(key, origin)?;
        preds.push(pred)?;
        Ok(ImportList { preds, origins })
    }

    /// Whether a predicate is imported, by its name and its number of arguments.
    pub(crate) fn has(&self, pred: &Indicator) -> Result<bool, AllocError>
        ensures { IfOk result (λ found. found ≡ is_imported self.now pred.now) }
    {
        let key = key_of(pred)?;
        Ok(self.origins.get(&key).is_some())
    }

    /// Whether a predicate of the same name and arity is imported from another module.
    pub(crate) fn clashes(&self, import: &PredName) -> Result<bool, AllocError>
        ensures { IfOk result (λ found. found ≡ list_any (clashes_with import.now) self.now) }
    {
        let key = key_in(import)?;
        Ok(differs(self.origins.get(&key), &import.module))
    }
}

/// The key of a predicate of a module.
fn key_in(pred: &PredName) -> Result<Key, AllocError>
    ensures { IfOk result (λ key. named key ≡ bare pred.now) }
{
    Ok(Key {
        name: pred.name.clone()?,
        arity: pred.arity,
    })
}
