ghost use Rattle.std.specs.Prelude.{◌≡◌};
ghost use Rattle.cp_factindex.specs.Contents.{facts_after, parked_after, facts_in, parked_in, state_in, changed, AreRightFacts, AreRightParked, IsRightChange, IsFresh};

use crate::waiting::Waiting;
use cp_call::ObjectKind;
use cp_keyed::{Index, Spot};
use cp_term::Term;

/// The state of a shared object.
#[derive(Drop)]
pub struct Contents {
    pub kind: ObjectKind,
    pub facts: Index<Term>,
    pub lowest: i64,
    pub highest: i64,
    pub is_open: bool,
    pub waiting: Waiting,
}

/// What a call changes of the facts.
#[derive(Drop)]
pub enum FactsChange {
    Keep,
    /// The fact that was placed ahead is added.
    Show,
    Remove(Spot),
    RemoveAll(Vec<Spot>),
    Set(Index<Term>),
}

/// What a call changes of the parked callers.
#[derive(Drop)]
pub enum ParkedChange {
    Keep,
    /// The caller whose row was placed ahead is parked.
    Show,
    Remove(Spot),
    RemoveAll(Vec<Spot>),
    Clear,
}

/// What a call changes: the facts, the parked callers, and the values that the other parts of the state get.
#[derive(Drop)]
pub struct Change {
    pub facts: FactsChange,
    pub parked: ParkedChange,
    pub lowest: i64,
    pub highest: i64,
    pub is_open: bool,
}

/// Gives up what was placed ahead. It takes no memory.
pub fn drop_ahead(contents: &mut Contents)
    ensures state { state_in contents.new ≡ state_in contents.old }
    ensures fresh { IsFresh contents.new }
{
    contents.facts.drop_ahead();
    contents.waiting.drop_ahead();
}

/// Changes the facts. It takes no memory.
pub fn change_facts(facts: &mut Index<Term>, change: FactsChange)
    requires { AreRightFacts change facts.old }
    ensures { facts_in facts.new.rows ≡ facts_after change facts.old }
{
    match change {
        FactsChange::Keep => {}
        FactsChange::Show => facts.show(),
        FactsChange::Remove(spot) => facts.remove(&spot),
        FactsChange::RemoveAll(spots) => facts.remove_all(spots.as_slice()),
        FactsChange::Set(others) => *facts = others,
    }
}

/// Changes the parked callers. It takes no memory.
pub fn change_parked(waiting: &mut Waiting, change: ParkedChange)
    requires { AreRightParked change waiting.old }
    ensures { parked_in waiting.new.rows ≡ parked_after change waiting.old }
{
    match change {
        ParkedChange::Keep => {}
        ParkedChange::Show => waiting.show(),
        ParkedChange::Remove(spot) => waiting.remove(&spot),
        ParkedChange::RemoveAll(spots) => waiting.remove_all(spots.as_slice()),
        ParkedChange::Clear => waiting.clear(),
    }
}

/// Makes a change. It takes no memory.
pub fn make(contents: &mut Contents, change: Change)
    requires { IsRightChange change contents.old }
    ensures { state_in contents.new ≡ changed change contents.old }
{
    let Change {
        facts,
        parked,
        lowest,
        highest,
        is_open,
    } = change;
    change_facts(&mut contents.facts, facts);
    change_parked(&mut contents.waiting, parked);
    contents.lowest = lowest;
    contents.highest = highest;
    contents.is_open = is_open;
}
