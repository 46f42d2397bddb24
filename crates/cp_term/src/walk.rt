ghost use Rattle.std.specs.Prelude.{◌≡◌, ℕ, ◌+◌, ◌*◌, ◌<◌, ◌≤◌, ◌^◌, true, false, length, ◌++◌, ◌∷◌, [], IfOk, OnOk, vec_len};
ghost use Rattle.std.specs.List.{count_by};
ghost use Rattle.cp_term.specs.TermGraph.{graph_cells, IsStoredGraph, StoredModel};
ghost use Rattle.cp_term.specs.Classes.{StoredJoining};
ghost use Rattle.cp_term.specs.Walk.{entries, all_entries, is_new, StoredWalking};
ghost use Rattle.cp_term.specs.declared.walk.Visit.TheVariants.{Enter};

use crate::classes::find;
use crate::places::{Graph, next_place};
use std::alloc::{AllocError, Global};

/// What is still to be done on a walk through all classes along their arguments: to look at a place, or to leave the
/// class with this root.
#[derive(Clone, Copy, Drop)]
pub enum Visit {
    Enter(usize),
    Leave(usize),
}

/// How far a class has come on the walk.
#[derive(Clone, Copy, Drop)]
pub enum Progress {
    New,
    Open,
    Done,
}

fn push_entries(
    visits: &mut Vec<Visit>,
    ends: &[usize],
    place: usize,
    count: u16,
) -> Result<(), AllocError>
    ensures { OnOk result (visits.new.items ≡ visits.old.items ++ entries ends.now count place) }
{
    let mut place = place;
    for _argument in 0..count {
        visits.push(Visit::Enter(place))?;
        place = next_place(ends, place);
    }
    Ok(())
}

/// Looks at a place. A class that is met below itself ends the walk.
fn entered(
    graph: Graph<'_>,
    parents: &mut [usize],
    schemas: &[usize],
    progress: &mut [Progress],
    visits: &mut Vec<Visit>,
    place: usize,
) -> Result<bool, AllocError>
    requires graph { IsStoredGraph graph }
    requires fits { length (graph_cells graph) < 2 ^ 32 }
    requires walking { StoredWalking graph parents.old schemas.now progress.old (visits.old.items ++ Enter place ∷ []) }
    ensures walking { IfOk result (λ go. go ≡ true → StoredWalking graph.entry parents.new schemas.now progress.new visits.new.items) }
    ensures less { IfOk result (λ go. go ≡ true → 257 * count_by is_new progress.new + vec_len visits.new ≤ 257 * count_by is_new progress.old + vec_len visits.old) }
    ensures cycle { IfOk result (λ go. go ≡ false → StoredModel graph.entry → ⊥) }
{
    let root = find(parents, place);
    match progress[root] {
        Progress::Done => Ok(true),
        Progress::Open => Ok(false),
        Progress::New => {
            progress[root] = Progress::Open;
            visits.push(Visit::Leave(root))?;
            let schema = schemas[root];
            let arity = graph.cells[schema].arity();
            push_entries(visits, graph.ends, schema + 1, arity)?;
            Ok(true)
        }
    }
}

/// Makes a visit.
fn visited(
    graph: Graph<'_>,
    parents: &mut [usize],
    schemas: &[usize],
    progress: &mut [Progress],
    visits: &mut Vec<Visit>,
    visit: Visit,
) -> Result<bool, AllocError>
    requires graph { IsStoredGraph graph }
    requires fits { length (graph_cells graph) < 2 ^ 32 }
    requires walking { StoredWalking graph parents.old schemas.now progress.old (visits.old.items ++ visit ∷ []) }
    ensures walking { IfOk result (λ go. go ≡ true → StoredWalking graph.entry parents.new schemas.now progress.new visits.new.items) }
    ensures less { IfOk result (λ go. go ≡ true → 257 * count_by is_new progress.new + vec_len visits.new ≤ 257 * count_by is_new progress.old + vec_len visits.old) }
    ensures cycle { IfOk result (λ go. go ≡ false → StoredModel graph.entry → ⊥) }
{
    match visit {
        Visit::Leave(root) => {
            progress[root] = Progress::Done;
            Ok(true)
        }
        Visit::Enter(place) => entered(graph, parents, schemas, progress, visits, place),
    }
}

fn all_places(alloc: Global, count: usize) -> Result<Vec<Visit>, AllocError>
    ensures { IfOk result (λ visits. visits.items ≡ all_entries 0 count) }
{
    let mut visits = Vec::new(alloc);
    for place in 0..count {
        visits.push(Visit::Enter(place))?;
    }
    Ok(visits)
}

/// Whether no class is below itself.
pub fn is_acyclic(
    alloc: Global,
    graph: Graph<'_>,
    parents: &mut [usize],
    schemas: &[usize],
) -> Result<bool, AllocError>
    requires graph { IsStoredGraph graph }
    requires fits { length (graph_cells graph) < 2 ^ 32 }
    requires joined { StoredJoining graph parents.old schemas.now [] }
    ensures model { IfOk result (λ acyclic. acyclic ≡ true → StoredModel graph.entry) }
    ensures cycle { IfOk result (λ acyclic. acyclic ≡ false → StoredModel graph.entry → ⊥) }
{
    let mut progress = vec![in alloc; Progress::New; graph.cells.len()]?;
    let mut visits = all_places(alloc, graph.cells.len())?;
    while let Some(visit) = visits.pop() {
        if !visited(
            graph,
            parents,
            schemas,
            progress.as_mut_slice(),
            &mut visits,
            visit,
        )? {
            return Ok(false);
        }
    }
    Ok(true)
}
