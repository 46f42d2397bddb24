ghost use Rattle.std.specs.Prelude.{◌≡◌, ◌≢◌, ℕ, List, ◌+◌, ◌*◌, ◌<◌, ◌≤◌, true, false, length, get_or, set, min, max, ◌++◌, ◌∷◌, [], Some, None, IfOk, OnOk, IfSome, MatchOption, unwrap_or, sum, vec_len, ◌^◌};
ghost use Rattle.cp_term.specs.CellRefs.{variable_of, cells_at};
ghost use Rattle.cp_term.specs.Preorder.{arity_of, is_terms};
ghost use Rattle.cp_term.specs.Numbering.{next_variable};
ghost use Rattle.cp_term.specs.TermGraph.{cell_of, graph_cells, IsStoredGraph, StoredModel};
ghost use Rattle.cp_term.specs.Classes.{Falls, IsForest, pairs_of, Clashes, Combines, Begins, StoredJoining};

use crate::cell_ref::{CellRef, next_number};
use crate::places::{Graph, next_place};
use std::alloc::{AllocError, Global};

/// Two places whose terms have to become the same.
#[derive(Clone, Copy, Drop)]
pub struct Pair {
    pub left: usize,
    pub right: usize,
}

/// The root of the class of a place. On the way each second place is brought nearer to it.
pub fn find(parents: &mut [usize], place: usize) -> usize
    requires within { place < length parents.old }
    requires falls { Falls parents.old }
    ensures falls { Falls parents.new }
    ensures forest { (root : ℕ → ℕ) → IsForest parents.old root → IsForest parents.new root × (result ≡ root place) }
    ensures top { get_or parents.new result 0 ≡ result }
    ensures below { result ≤ place }
    ensures sum { sum parents.new ≤ sum parents.old }
{
    let mut at = place;
    while parents[at] != at {
        let above = parents[parents[at]];
        parents[at] = above;
        at = above;
    }
    at
}

/// Makes the two classes one, whose schema is at `schema`.
fn join(parents: &mut [usize], schemas: &mut [usize], left: usize, right: usize, schema: usize)
    requires left { (left < length parents.old) × (left < length schemas.old) }
    requires right { (right < length parents.old) × (right < length schemas.old) }
    ensures parents { parents.new ≡ set parents.old (max left right) (min left right) }
    ensures schemas { schemas.new ≡ set schemas.old (min left right) schema }
{
    let least = left.min(right);
    parents[left.max(right)] = least;
    schemas[least] = schema;
}

fn push_pairs(
    pairs: &mut Vec<Pair>,
    ends: &[usize],
    left: usize,
    right: usize,
    count: u16,
) -> Result<(), AllocError>
    ensures { OnOk result (pairs.new.items ≡ pairs.old.items ++ pairs_of ends.now count left right) }
{
    let mut left = left;
    let mut right = right;
    for _argument in 0..count {
        pairs.push(Pair { left, right })?;
        left = next_place(ends, left);
        right = next_place(ends, right);
    }
    Ok(())
}

/// The schema of a class that is made of those with the schemas `left` and `right`.
fn combined(
    graph: Graph<'_>,
    pairs: &mut Vec<Pair>,
    left: usize,
    right: usize,
) -> Result<Option<usize>, AllocError>
    requires left { left < length (graph_cells graph) }
    requires right { right < length (graph_cells graph) }
    requires fits { length (graph_cells graph) < 2 ^ 32 }
    ensures schema { IfOk result (λ schema. MatchOption schema (Clashes (cell_of (graph_cells graph.entry) left) (cell_of (graph_cells graph.entry) right)) (λ s. Combines (cell_of (graph_cells graph.entry) left) (cell_of (graph_cells graph.entry) right) left right s)) }
    ensures pairs { IfOk result (λ schema. IfSome schema (λ s. pairs.new.items ≡ pairs.old.items ++ pairs_of graph.entry.ends.now (min (arity_of (cell_of (graph_cells graph.entry) left)) (arity_of (cell_of (graph_cells graph.entry) right))) (left + 1) (right + 1))) }
{
    let (first, other) = (graph.cells[left], graph.cells[right]);
    if first.variable().is_some() {
        return Ok(Some(right));
    }
    if other.variable().is_some() {
        return Ok(Some(left));
    }
    if !first.is_same(other) {
        return Ok(None);
    }
    let arity = first.arity();
    push_pairs(pairs, graph.ends, left + 1, right + 1, arity)?;
    Ok(Some(left))
}

/// Makes the classes of the two places one, if their schemas allow it.
fn joined(
    graph: Graph<'_>,
    parents: &mut [usize],
    schemas: &mut [usize],
    pairs: &mut Vec<Pair>,
    pair: Pair,
) -> Result<bool, AllocError>
    requires graph { IsStoredGraph graph }
    requires fits { length (graph_cells graph) < 2 ^ 32 }
    requires joining { StoredJoining graph parents.old schemas.old (pairs.old.items ++ pair ∷ []) }
    ensures joining { IfOk result (λ go. go ≡ true → StoredJoining graph.entry parents.new schemas.new pairs.new.items) }
    ensures less { IfOk result (λ go. go ≡ true → 256 * sum parents.new + vec_len pairs.new ≤ 256 * sum parents.old + vec_len pairs.old) }
    ensures clash { IfOk result (λ go. go ≡ false → StoredModel graph.entry → ⊥) }
{
    let left = find(parents, pair.left);
    let right = find(parents, pair.right);
    if left == right {
        return Ok(true);
    }
    match combined(graph, pairs, schemas[left], schemas[right])? {
        None => Ok(false),
        Some(schema) => {
            join(parents, schemas, left, right, schema);
            Ok(true)
        }
    }
}

/// Joins the classes of all pairs, if their schemas allow it.
pub fn all_joined(
    graph: Graph<'_>,
    parents: &mut [usize],
    schemas: &mut [usize],
    pairs: Vec<Pair>,
) -> Result<bool, AllocError>
    requires graph { IsStoredGraph graph }
    requires fits { length (graph_cells graph) < 2 ^ 32 }
    requires joining { StoredJoining graph parents.old schemas.old pairs.items }
    ensures joining { IfOk result (λ go. go ≡ true → StoredJoining graph.entry parents.new schemas.new []) }
    ensures clash { IfOk result (λ go. go ≡ false → StoredModel graph.entry → ⊥) }
{
    let mut pairs = pairs;
    while let Some(pair) = pairs.pop() {
        if !joined(graph, parents, schemas, &mut pairs, pair)? {
            return Ok(false);
        }
    }
    Ok(true)
}

/// The place where a variable occurs first, which is this one if it was not seen before.
fn first_place(firsts: &mut [Option<usize>], variable: usize, at: usize) -> usize
    requires { variable < length firsts.old }
    ensures first { result ≡ unwrap_or (get_or firsts.old variable None) at }
    ensures firsts { firsts.new ≡ set firsts.old variable (Some result) }
{
    match firsts[variable] {
        Some(first) => first,
        None => {
            firsts[variable] = Some(at);
            at
        }
    }
}

/// The two terms, and each place of a variable with the first one.
pub fn first_pairs(
    alloc: Global,
    cells: &[CellRef<'_>],
    second: usize,
) -> Result<Vec<Pair>, AllocError>
    requires { second < length (cells_at cells.now) }
    ensures { IfOk result (λ pairs. (ends : List ℕ) → Begins (cells_at cells.now) ends second pairs.items) }
{
    let mut firsts = vec![in alloc; None; next_number(cells) as usize]?;
    let mut pairs = Vec::new(alloc);
    pairs.push(Pair {
        left: 0,
        right: second,
    })?;
    for at in 0..cells.len() {
        match cells[at].variable() {
            Some(variable) => {
                let left = first_place(firsts.as_mut_slice(), variable as usize, at);
                pairs.push(Pair { left, right: at })?;
            }
            None => {}
        }
    }
    Ok(pairs)
}
