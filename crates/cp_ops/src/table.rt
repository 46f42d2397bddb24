ghost use Rattle.std.specs.Prelude.{◌≡◌, ◌≤◌, IfOk, IfSome};
ghost use Rattle.cp_ops.specs.Operators.{look_up, priority_of, declare, Declares, is_fixed};
ghost use Rattle.cp_ops.specs.Standard.{standard};

use crate::fix::Fix;
use crate::operators::Operators;
use crate::standard::{STANDARD_INFIXES, STANDARD_PREFIXES};
use cp_term::Name;
use std::alloc::{AllocError, Global};
use std::marker::Model;

/// Why a declaration is refused.
#[derive(Debug, Clone, Copy, PartialEq, Eq, Drop)]
pub enum OpError {
    BadPriority,
    BadKind,
    Clash,
    NoMemory,
}

/// The prefix and the infix operators of a module. Contracts see the two as lists of rows.
#[derive(Drop)]
pub struct OpTable {
    prefixes: Operators,
    infixes: Operators,
}

impl Model for OpTable {
    ghost use Rattle.cp_ops.specs.Table.{Ops};
    ghost use Rattle.cp_ops.specs.Operators.{IsTable};

    ghost Value = { Ops };

    ghost view = { λ t. record { prefixes = t.prefixes; infixes = t.infixes } };

    ghost invariant = { λ t. IsTable (record { prefixes = t.prefixes; infixes = t.infixes }) };
}

impl OpTable {
    /// The operators that a module has before its first declaration.
    pub fn standard(alloc: Global) -> Result<OpTable, AllocError>
        ensures { IfOk result (λ table. table ≡ standard) }
    {
        let prefixes = Operators::listed(alloc, &STANDARD_PREFIXES)?;
        let infixes = Operators::listed(alloc, &STANDARD_INFIXES)?;
        Ok(OpTable { prefixes, infixes })
    }

    /// The priority and kind of a prefix operator.
    pub fn prefix(&self, name: &Name) -> Option<(u16, Fix)>
        ensures { result ≡ look_up self.now.prefixes name.now }
    {
        self.prefixes.find(name.bytes())
    }

    /// The priority and kind of an infix operator.
    pub fn infix(&self, name: &Name) -> Option<(u16, Fix)>
        ensures { result ≡ look_up self.now.infixes name.now }
    {
        self.infixes.find(name.bytes())
    }

    /// The priority and kind of the prefix operator whose name has these bytes, which may be no name.
    pub fn prefix_of(&self, name: &[u8]) -> Option<(u16, Fix)>
        ensures { result ≡ look_up self.now.prefixes name.now }
    {
        self.prefixes.find(name)
    }

    /// The priority and kind of the infix operator whose name has these bytes, which may be no name.
    pub fn infix_of(&self, name: &[u8]) -> Option<(u16, Fix)>
        ensures { result ≡ look_up self.now.infixes name.now }
    {
        self.infixes.find(name)
    }

    /// Makes a name an operator of a kind, or takes its operator away where the priority is 0.
    ///
    /// Refused is first a priority outside 0 to 1200, then a kind that is none of `xfx`, `xfy`, `yfx`, `fy` and `fx`,
    /// then one of the names `,`, `|`, `[]` and `{}`. A refusal changes nothing.
    pub fn declare(&mut self, priority: i64, kind: &Name, name: &Name) -> Result<(), OpError>
        ensures { Declares result (declare self.old priority kind.now name.now) self.old self.new }
    {
        let Some(priority) = priority_of(priority) else {
            return Err(OpError::BadPriority);
        };
        let Some(fix) = Fix::named(kind.bytes()) else {
            return Err(OpError::BadKind);
        };
        if is_fixed(name.bytes()) {
            return Err(OpError::Clash);
        }
        let done = if fix.is_prefix() {
            self.prefixes.change(name, priority, fix)
        } else {
            self.infixes.change(name, priority, fix)
        };
        match done {
            Ok(()) => Ok(()),
            Err(_) => Err(OpError::NoMemory),
        }
    }
}

/// The priority, if it is one.
fn priority_of(priority: i64) -> Option<u16>
    ensures value { result ≡ priority_of priority }
    ensures within { IfSome result (λ p. p ≤ 1200) }
{
    if 0 <= priority && priority <= 1200 {
        Some(priority as u16)
    } else {
        None
    }
}

/// Whether no declaration changes the name.
fn is_fixed(name: &[u8]) -> bool
    ensures { result ≡ is_fixed name.now }
{
    name == b",".as_slice()
        || name == b"|".as_slice()
        || name == b"[]".as_slice()
        || name == b"{}".as_slice()
}
