ghost use Rattle.std.specs.Prelude.{◌≡◌, ◌<◌, [], ◌∷◌, ◌++◌, length, vec_len};
ghost use Rattle.std.specs.Vec.{vec_capacity};
ghost use Rattle.cp_fact.specs.Contents.{state_in, facts_after, parked_after, changed, IsWithin};

use cp_call::{FactRow, ObjectKind, ParkedRow};
use cp_list::ReservedList;

/// The state of a shared object.
#[derive(Drop)]
pub struct Contents {
    pub kind: ObjectKind,
    pub facts: Vec<FactRow>,
    pub lowest: i64,
    pub highest: i64,
    pub is_open: bool,
    pub parked: ReservedList<ParkedRow>,
}

/// What a call changes of the facts.
#[derive(Drop)]
pub enum FactsChange {
    Keep,
    /// The fact at this index goes.
    Remove(usize),
    AddFront(FactRow),
    AddBack(FactRow),
    Set(Vec<FactRow>),
}

/// What a call changes of the parked callers.
#[derive(Drop)]
pub enum ParkedChange {
    Keep,
    Add(ParkedRow),
    Set(ReservedList<ParkedRow>),
}

/// What a call changes: the facts, the parked callers, and the values that the other parts of the state get.
#[derive(Drop)]
pub struct Change {
    pub facts: FactsChange,
    pub parked: ParkedChange,
    pub lowest: i64,
    pub highest: i64,
    pub is_open: bool,
}

/// Changes facts that have room for one more.
pub fn change_facts(facts: &mut Vec<FactRow>, change: FactsChange)
    requires within { IsWithin change (length facts.old.items) }
    requires room { vec_len facts.old < vec_capacity facts.old }
    ensures { facts.new.items ≡ facts_after change facts.old.items }
{
    match change {
        FactsChange::Keep => {}
        FactsChange::Remove(at) => {
            facts.remove(at);
        }
        FactsChange::AddFront(row) => put_front(facts, row),
        FactsChange::AddBack(row) => put_back(facts, row),
        FactsChange::Set(rows) => *facts = rows,
    }
}

fn put_front(facts: &mut Vec<FactRow>, row: FactRow)
    requires { vec_len facts.old < vec_capacity facts.old }
    ensures { facts.new.items ≡ row ∷ facts.old.items }
{
    match facts.insert(0, row) {
        Ok(()) => {}
        Err(_) => unreachable!(),
    }
}

fn put_back(facts: &mut Vec<FactRow>, row: FactRow)
    requires { vec_len facts.old < vec_capacity facts.old }
    ensures { facts.new.items ≡ facts.old.items ++ row ∷ [] }
{
    match facts.push(row) {
        Ok(()) => {}
        Err(_) => unreachable!(),
    }
}

/// Changes the list of parked callers, which has room for one more.
pub fn change_parked(parked: &mut ReservedList<ParkedRow>, change: ParkedChange)
    requires { 0 < parked.old.spare }
    ensures { parked.new.items ≡ parked_after change parked.old.items }
{
    match change {
        ParkedChange::Keep => {}
        ParkedChange::Add(row) => parked.put(row),
        ParkedChange::Set(rows) => *parked = rows,
    }
}

/// Makes a change of an object that has room for one fact and one parked caller.
pub fn make(contents: &mut Contents, change: Change)
    requires within { IsWithin change.facts (length contents.old.facts.items) }
    requires facts_room { vec_len contents.old.facts < vec_capacity contents.old.facts }
    requires parked_room { 0 < contents.old.parked.spare }
    ensures { state_in contents.new ≡ changed change (state_in contents.old) }
{
    let Change {
        facts,
        parked,
        lowest,
        highest,
        is_open,
    } = change;
    change_facts(&mut contents.facts, facts);
    change_parked(&mut contents.parked, parked);
    contents.lowest = lowest;
    contents.highest = highest;
    contents.is_open = is_open;
}
