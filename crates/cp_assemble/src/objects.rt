ghost use Rattle.std.specs.Prelude.{◌≡◌, ◌<◌, ◌≤◌, [], length, position, IfSome};
ghost use Rattle.cp_term.specs.PredNameEq.{pred_name_eq};
ghost use Rattle.cp_link.specs.Linked.{object_of};

use cp_code::PredNames;
use cp_term::PredName;
use std::alloc::Global;
use std::marker::Model;

/// The shared predicates of a program, at most 32, in loading order.
#[derive(Drop)]
pub(crate) struct Objects {
    preds: PredNames,
}

impl Model for Objects {
    ghost use Rattle.std.specs.Prelude.{◌≤◌, List, length};
    ghost use Rattle.cp_term.specs.declared.pred_name.PredName.{PredName};

    ghost Value = { List PredName };

    ghost view = { λ o. o.preds };

    ghost invariant = { λ o. length o.preds ≤ 32 };
}

impl Objects {
    pub(crate) fn none(alloc: Global) -> Objects
        ensures { result ≡ [] }
    {
        Objects {
            preds: PredNames::new(alloc),
        }
    }

    pub(crate) fn new(preds: PredNames) -> Objects
        requires { length preds ≤ 32 }
        ensures { result ≡ preds }
    {
        Objects { preds }
    }

    /// The number of a shared predicate among the shared objects of its program, of which two are lists of goals.
    pub(crate) fn object_of(&self, pred: &PredName) -> u32
        ensures { result ≡ object_of self.now pred.now }
    {
        match place_of(self.preds.as_slice(), pred) {
            Some(at) => at as u32 + 2,
            None => 2,
        }
    }

    pub(crate) fn into_preds(self) -> PredNames
        ensures { result ≡ self }
    {
        let Objects { preds } = self;
        preds
    }
}

fn place_of(preds: &[PredName], pred: &PredName) -> Option<usize>
    ensures place { result ≡ position (pred_name_eq pred.now) preds.now }
    ensures within { IfSome result (λ at. at < length preds.now) }
{
    preds.iter().position(|other| *pred == *other)
}
