ghost use Rattle.std.specs.Prelude.{◌≡◌, ◌∷◌, ◌++◌, [], map, slice_get, IfOk, OnOk, if◌then◌else◌};
ghost use Rattle.std.specs.List.{filter_map};
ghost use Rattle.cp_declaration.specs.declared.indicator.Indicator.{Indicator as Pred};
ghost use Rattle.cp_module.specs.Causes.{same, pred_of, clauses_of};
ghost use Rattle.cp_link.specs.Modules.{one};
ghost use Rattle.cp_link.specs.Linked.{clause_in};
ghost use Rattle.cp_assemble.specs.Index.{places_in, places_or, place_by, pred_by, IsTableOf};
ghost use Rattle.cp_assemble.specs.Rows.{named};

use cp_code::{Clause, Clauses};
use cp_declaration::{Indicator, is_declaration};
use cp_link::own_preds;
use cp_list::ListOf;
use cp_read::ReadClause;
use cp_term::Name;
use indexmap::IndexMap;
use std::alloc::{AllocError, Global};
use std::marker::Model;

/// Places of clauses among those of a file.
type Numbers = ListOf<usize>;

/// The name of a predicate and its number of arguments.
#[derive(PartialEq, Eq, Hash, Drop)]
struct Key {
    name: Name,
    arity: u16,
}

/// The places of the clauses of each predicate among those of a file. Contracts see its rows.
#[derive(Drop)]
pub struct Places {
    rows: IndexMap<Key, Numbers>,
}

impl Model for Places {
    ghost use Rattle.std.specs.Prelude.{List};
    ghost use Rattle.cp_assemble.specs.Index.{Row};
    ghost use Rattle.cp_assemble.specs.Rows.{rows_in};

    ghost Value = { List Row };

    ghost view = { rows_in };
}

impl Places {
    fn new(alloc: Global) -> Self
        ensures { result ≡ [] }
    {
        Places {
            rows: IndexMap::new(alloc),
        }
    }

    /// The table of the clauses of a file.
    pub fn of(alloc: Global, clauses: &[ReadClause]) -> Result<Places, AllocError>
        ensures { IfOk result (λ places. IsTableOf clauses.now places) }
    {
        let mut places = Places::new(alloc);
        for at in 0..clauses.len() {
            let found = pred_at(alloc, clauses, at)?;
            places.note(alloc, at, found)?;
        }
        Ok(places)
    }

    /// Notes that a clause of a predicate, or a declaration, stands at a place.
    fn note(&mut self, alloc: Global, at: usize, found: Option<Indicator>) -> Result<(), AllocError>
        ensures { OnOk result ((p : Pred) → places_in self.new p ≡ places_in self.old p ++ place_by at found p) }
    {
        match found {
            Some(pred) => self.add(alloc, at, pred),
            None => Ok(()),
        }
    }

    fn add(&mut self, alloc: Global, at: usize, pred: Indicator) -> Result<(), AllocError>
        ensures { OnOk result ((p : Pred) → places_in self.new p ≡ places_in self.old p ++ (if same p pred then at ∷ [] else [])) }
    {
        let Indicator { name, arity } = pred;
        let copy = name.clone()?;
        let mut places = self.replace(Key { name: copy, arity }, Numbers::new(alloc))?;
        places.push(at)?;
        let _none = self.replace(Key { name, arity }, places)?;
        Ok(())
    }

    /// Makes these the places of a predicate, and gives those that it had.
    fn replace(&mut self, key: Key, places: Numbers) -> Result<Numbers, AllocError>
        ensures rows { OnOk result ((p : Pred) → places_in self.new p ≡ (if same p (named key) then places else places_in self.old p)) }
        ensures old { IfOk result (λ old. old ≡ places_in self.old (named key)) }
    {
        let none = Numbers::new(places.alloc());
        let old = self.rows.insert(key, places)?;
        Ok(places_or(old, none))
    }

    /// The clauses of a predicate of a file, as clauses of a module, where this is the table of the clauses of the file.
    pub fn all_of(
        &self,
        alloc: Global,
        module_name: &Name,
        clauses: &[ReadClause],
        pred: &Indicator,
    ) -> Result<Clauses, AllocError>
        requires { IsTableOf clauses.now self.now }
        ensures { IfOk result (λ all. all ≡ map (clause_in module_name.now) (clauses_of clauses.now pred.now)) }
    {
        let all = self.clauses_of(alloc, module_name, clauses, pred)?;
        Ok(all)
    }

    /// The clauses that stand where those of a predicate do, as clauses of a module.
    pub(crate) fn clauses_of(
        &self,
        alloc: Global,
        module_name: &Name,
        clauses: &[ReadClause],
        pred: &Indicator,
    ) -> Result<Clauses, AllocError>
        ensures { IfOk result (λ all. all ≡ map (clause_in module_name.now) (filter_map (slice_get clauses.now) (places_in self.now pred.now))) }
    {
        let key = Key {
            name: pred.name.clone()?,
            arity: pred.arity,
        };
        match self.rows.get(&key) {
            Some(places) => {
                let all = clauses_at(alloc, module_name, clauses, places.as_slice())?;
                Ok(all)
            }
            None => Ok(Clauses::new(alloc)),
        }
    }
}

/// Of a predicate that is not in the table there are no places.
fn places_or(found: Option<Numbers>, none: Numbers) -> Numbers
    requires { none ≡ [] }
    ensures { result ≡ places_or found }
{
    match found {
        Some(places) => places,
        None => none,
    }
}

/// The predicate that the clause at a place is of, if one stands there.
fn pred_at(
    alloc: Global,
    clauses: &[ReadClause],
    at: usize,
) -> Result<Option<Indicator>, AllocError>
    ensures { IfOk result (λ pred. pred ≡ pred_by (slice_get clauses.now at)) }
{
    match clauses.get(at) {
        Some(clause) => {
            let found = pred_of(alloc, clause)?;
            Ok(found)
        }
        None => Ok(None),
    }
}

/// The predicate that a clause is of. A declaration is of none.
fn pred_of(alloc: Global, clause: &ReadClause) -> Result<Option<Indicator>, AllocError>
    ensures { IfOk result (λ pred. pred ≡ pred_of clause.now) }
{
    if is_declaration(&clause.term) {
        return Ok(None);
    }
    let mut preds = own_preds(alloc, std::slice::from_ref(clause))?;
    let found = preds.pop();
    Ok(found)
}

/// The clauses at these places, as clauses of a module.
fn clauses_at(
    alloc: Global,
    module_name: &Name,
    clauses: &[ReadClause],
    places: &[usize],
) -> Result<Clauses, AllocError>
    ensures { IfOk result (λ all. all ≡ map (clause_in module_name.now) (filter_map (slice_get clauses.now) places.now)) }
{
    let mut all = Clauses::new(alloc);
    for at in places {
        push_at(&mut all, module_name, clauses, *at)?;
    }
    Ok(all)
}

fn push_at(
    all: &mut Clauses,
    module_name: &Name,
    clauses: &[ReadClause],
    at: usize,
) -> Result<(), AllocError>
    ensures { OnOk result (all.new ≡ all.old ++ map (clause_in module_name.now) (one (slice_get clauses.now at))) }
{
    match clauses.get(at) {
        Some(clause) => all.push(clause_in(module_name, clause)?),
        None => Ok(()),
    }
}

fn clause_in(module_name: &Name, clause: &ReadClause) -> Result<Clause, AllocError>
    ensures { IfOk result (λ copy. copy ≡ clause_in module_name.now clause.now) }
{
    Ok(Clause {
        whole: clause.term.copy()?,
        module: module_name.clone()?,
        line: clause.line,
    })
}
