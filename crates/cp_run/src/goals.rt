ghost use Rattle.std.specs.Prelude.{◌≡◌, ◌<◌, ◌≤◌, [], ◌∷◌, ◌++◌, length, take, get_or, IfOk, OnOk, OnErr, MatchOption};

use crate::item::Item;
use std::alloc::{AllocError, Global};
use std::marker::Model;

/// Lists of goals that share their tails. Contracts see the lists by number; list 0 is empty.
#[derive(Drop)]
pub struct Goals {
    nodes: Vec<Node>,
}

/// The first item of a list, and the number of the list behind it. Node n begins list n + 1.
#[derive(Drop)]
pub struct Node {
    item: Item,
    rest: u32,
}

impl Model for Goals {
    ghost use Rattle.std.specs.Prelude.{List};
    ghost use Rattle.cp_run.specs.declared.item.Item.{Item};
    ghost use Rattle.cp_code.specs.contracts.prop.Prop as prop;
    ghost use Rattle.std.specs.Coded.{codes};

    ghost Value = { List (List Item) };

    ghost coded = { Prim.hlevel (codes, prop.the_row.coded) };

    ghost use Rattle.cp_run.specs.Lists.{lists_of, AreLinked};

    ghost view = { λ g. lists_of g.nodes.items };

    ghost invariant = { λ g. AreLinked g.nodes.items };
}

impl Goals {
    /// The empty list alone. It takes no memory.
    pub fn new(alloc: Global) -> Goals
        ensures { result ≡ [] ∷ [] }
    {
        Goals {
            nodes: Vec::new(alloc),
        }
    }

    /// How many lists there are.
    pub fn len(&self) -> u32
        ensures len { result ≡ length self.now }
        ensures some { 0 < result }
        ensures empty { get_or self.now 0 [] ≡ [] }
    {
        self.nodes.len() as u32 + 1
    }

    /// The list of an item in front of another list.
    pub fn push(&mut self, item: Item, rest: u32) -> Result<u32, AllocError>
        requires { rest < length self.old }
        ensures at { IfOk result (λ at. at ≡ length self.old) }
        ensures ok { OnOk result (self.new ≡ self.old ++ (item ∷ get_or self.old rest []) ∷ []) }
        ensures err { OnErr result (self.new ≡ self.old) }
    {
        let at = self.nodes.len();
        if at >= u32::MAX as usize - 1 {
            return Err(AllocError);
        }
        self.nodes.push(Node { item, rest })?;
        Ok(at as u32 + 1)
    }

    /// The first item of a list, and the number of the list behind it.
    pub fn first(&self, at: u32) -> Option<(&Item, u32)>
        requires { at < length self.now }
        ensures { MatchOption result (get_or self.now at [] ≡ []) (λ p. (p.1 < length self.now) × (get_or self.now at [] ≡ p.0.now ∷ get_or self.now p.1 [])) }
    {
        let _len = self.len();
        if at == 0 {
            return None;
        }
        let node = &self.nodes[at as usize - 1];
        Some((&node.item, node.rest))
    }

    /// Keeps the first lists alone.
    pub fn cut_to(&mut self, len: u32)
        requires some { 0 < len }
        requires within { len ≤ length self.old }
        ensures { self.new ≡ take len self.old }
    {
        self.nodes.truncate(len as usize - 1);
    }
}
