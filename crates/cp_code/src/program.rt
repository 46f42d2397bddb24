ghost use Rattle.std.specs.Prelude.{◌≡◌, ◌<◌, find, position, length, IfSome, MatchOption};
ghost use Rattle.std.specs.Option.{option_copied};
ghost use Rattle.std.specs.Str.{bytes_eq};
ghost use Rattle.cp_code.specs.Programs.{sees, imports_as, imported_pred, is_of_prelude, own_ops};
ghost use Rattle.cp_code.specs.Candidates.{HasNoneFrom, IsFirstFrom, clauses_at};

use crate::assertion::Assertions;
use crate::clause::Clauses;
use crate::import::{Imports, imported};
use crate::peer::Peers;
use crate::pred_info::{PredNames, Preds, place_of};
use crate::type_row::Types;
use cp_list::ListOf;
use cp_ops::OpTable;
use cp_term::{Cell, Name};

/// Names of modules.
pub type Names = ListOf<Name>;

/// Operators, a table for each module.
pub type OpTables = ListOf<OpTable>;

/// A program: what its files come to once they are loaded, the prelude included.
#[derive(Drop)]
pub struct Program {
    /// The module of the first file.
    pub first: Name,
    pub preds: Preds,
    /// The shared predicates in loading order. The first one is object 2, the next one object 3, and so on.
    pub shared: PredNames,
    /// What the first module exports.
    pub exports: PredNames,
    pub peers: Peers,
    pub types: Types,
    pub checks: Assertions,
    /// The modules of the files, in loading order.
    pub modules: Names,
    /// For each of `modules`, its operators as they stand at the end of its file.
    pub ops: OpTables,
    pub imports: Imports,
    /// How many clauses of the files are no declarations.
    pub written: u32,
}

impl Program {
    /// The number of the first clause of a predicate, at or after `from`, whose first argument can match one that begins
    /// with the cell `first`. Predicates and clauses are counted from 0. `first` is None where the goal has no argument.
    /// It takes no memory.
    pub fn candidates(&self, pred: u32, first: Option<&Cell>, from: u32) -> Option<u32>
        ensures { MatchOption result (HasNoneFrom (clauses_at self.now.preds pred) (option_copied first.entry) from) (IsFirstFrom (clauses_at self.now.preds pred) (option_copied first.entry) from) }
    {
        let info = self.preds.get(pred)?;
        candidate(&info.clauses, first, from)
    }

    /// The number of the predicate that a module sees under a name and arity: its own, or else one that it imports, or
    /// else one of the prelude. Predicates are counted from 0. It takes no memory.
    pub fn sees(&self, seer: &Name, name: &Name, arity: u16) -> Option<u32>
        ensures { result ≡ sees self.now.preds self.now.imports seer.now name.now arity }
    {
        let own = place_of(&self.preds, seer.bytes(), name.bytes(), arity);
        if own.is_some() {
            return own;
        }
        let imported = self.imported(seer, name, arity);
        if imported.is_some() {
            return imported;
        }
        if is_of_prelude(name.bytes(), arity) {
            place_of(&self.preds, b"prelude", name.bytes(), arity)
        } else {
            None
        }
    }

    /// The operators of a module of one of the files, as they stand at the end of its file; every other module has the
    /// standard ones. It takes no memory.
    pub fn operators(&self, module_name: &Name) -> Option<&OpTable>
        ensures { option_copied result ≡ own_ops self.now.modules self.now.ops module_name.now }
    {
        let at = place_among(&self.modules, module_name)?;
        self.ops.get(at)
    }

    /// The number of the predicate that a module imports under a name and arity.
    fn imported(&self, seer: &Name, name: &Name, arity: u16) -> Option<u32>
        ensures { result ≡ imported_pred self.now.preds (find (imports_as seer.now name.now arity) self.now.imports) }
    {
        let import = imported(&self.imports, seer.bytes(), name.bytes(), arity)?;
        place_of(
            &self.preds,
            import.pred.module.bytes(),
            import.pred.name.bytes(),
            import.pred.arity,
        )
    }
}

/// The place of a name among others, from 0.
fn place_among(names: &Names, name: &Name) -> Option<u32>
    ensures { result ≡ position (λ n. bytes_eq n name.now) names.now }
{
    let _len = names.len();
    match position_among(names.as_slice(), name.bytes()) {
        Some(at) => Some(at as u32),
        None => None,
    }
}

fn position_among(names: &[Name], name: &[u8]) -> Option<usize>
    ensures place { result ≡ position (λ n. bytes_eq n name.now) names.now }
    ensures within { IfSome result (λ at. at < length names.now) }
{
    names.iter().position(|own| own.bytes() == name)
}

/// Whether every module sees a predicate of the prelude under this name and arity.
fn is_of_prelude(name: &[u8], arity: u16) -> bool
    ensures { result ≡ is_of_prelude name.now arity }
{
    match arity {
        1 => name == b"once".as_slice(),
        2 => name == b"member".as_slice() || name == b"length".as_slice(),
        3 => name == b"append".as_slice() || name == b"between".as_slice(),
        _ => false,
    }
}

/// The number of the first of the clauses, at or after `from`, whose first argument can match.
fn candidate(clauses: &Clauses, first: Option<&Cell>, from: u32) -> Option<u32>
    ensures { MatchOption result (HasNoneFrom clauses.now (option_copied first.entry) from) (IsFirstFrom clauses.now (option_copied first.entry) from) }
{
    for at in from..clauses.len() {
        let Some(clause) = clauses.get(at) else {
            return None;
        };
        if clause.can_match(first) {
            return Some(at);
        }
    }
    None
}
