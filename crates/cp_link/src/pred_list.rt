ghost use Rattle.std.specs.Prelude.{◌≡◌, ◌∷◌, ◌++◌, [], IfOk};
ghost use Rattle.cp_module.specs.Causes.{is_in};
ghost use Rattle.cp_link.specs.Keyed.{named};

use crate::names::copy_of;
use cp_declaration::{Indicator, Indicators};
use cp_term::Name;
use indexmap::IndexSet;
use std::alloc::{AllocError, Global};
use std::marker::Model;

/// The name of a predicate and its number of arguments.
#[derive(PartialEq, Eq, Hash, Drop)]
pub(crate) struct Key {
    pub(crate) name: Name,
    pub(crate) arity: u16,
}

/// Predicates in an order, with a table that finds them. Contracts see the list.
#[derive(Drop)]
pub struct PredList {
    preds: Indicators,
    keys: IndexSet<Key>,
}

impl Model for PredList {
    ghost use Rattle.std.specs.Prelude.{List};
    ghost use Rattle.cp_declaration.specs.declared.indicator.Indicator.{Indicator};
    ghost use Rattle.cp_link.specs.Listed.{preds_in, IsListed};

    ghost Value = { List Indicator };

    ghost view = { preds_in };

    ghost invariant = { IsListed };
}

/// The key of a predicate.
pub(crate) fn key_of(pred: &Indicator) -> Result<Key, AllocError>
    ensures { IfOk result (λ key. named key ≡ pred.now) }
{
    Ok(Key {
        name: pred.name.clone()?,
        arity: pred.arity,
    })
}

impl PredList {
    pub(crate) fn new(alloc: Global) -> PredList
        ensures { result ≡ [] }
    {
        PredList {
            preds: Indicators::new(alloc),
            keys: IndexSet::new(alloc),
        }
    }

    /// These predicates.
    pub(crate) fn of(alloc: Global, preds: &[Indicator]) -> Result<PredList, AllocError>
        ensures { IfOk result (λ all. all ≡ preds.now) }
    {
        let mut all = PredList::new(alloc);
        for pred in preds {
            let longer = all.with(copy_of(pred)?)?;
            all = longer;
        }
        Ok(all)
    }

    /// The list with one predicate more.
    pub(crate) fn with(self, pred: Indicator) -> Result<PredList, AllocError>
        ensures { IfOk result (λ all. all ≡ self ++ pred ∷ []) }
    {
        let PredList {
            mut preds,
            mut keys,
        } = self;
        let key = key_of(&pred)?;
        keys.insert(key)?;
        preds.push(pred)?;
        Ok(PredList { preds, keys })
    }

    /// Whether a predicate is in the list.
    pub(crate) fn has(&self, pred: &Indicator) -> Result<bool, AllocError>
        ensures { IfOk result (λ found. found ≡ is_in self.now pred.now) }
    {
        let key = key_of(pred)?;
        Ok(self.keys.contains(&key))
    }

    pub(crate) fn as_slice(&self) -> &[Indicator]
        ensures { result.now ≡ self.now }
    {
        self.preds.as_slice()
    }

    pub(crate) fn into_preds(self) -> Indicators
        ensures { result ≡ self }
    {
        let PredList { preds, keys: _keys } = self;
        preds
    }
}
