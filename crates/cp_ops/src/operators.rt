ghost use Rattle.std.specs.Prelude.{◌≡◌, ◌≤◌, length, OnOk, OnErr, IfOk, IsTrue, nat_le, map, []};
ghost use Rattle.std.specs.List.{list_all};
ghost use Rattle.cp_ops.specs.Operators.{look_up, changed, with_row, without_row};
ghost use Rattle.cp_ops.specs.Rows.{gathered, listed_row};

use crate::fix::Fix;
use crate::spelled::Spelled;
use cp_term::Name;
use indexmap::IndexMap;
use std::alloc::{AllocError, Global};
use std::marker::Model;

/// The operators on one side, prefix or infix, in the order in which their names were first declared. Contracts see
/// the list of their rows.
#[derive(Drop)]
pub struct Operators {
    rows: IndexMap<Name, (u16, Fix)>,
}

impl Model for Operators {
    ghost use Rattle.std.specs.Prelude.{List};
    ghost use Rattle.cp_ops.specs.Table.{OpRow};
    ghost use Rattle.cp_ops.specs.Rows.{rows_in};

    ghost Value = { List OpRow };

    ghost view = { rows_in };
}

impl Operators {
    pub(crate) fn new(alloc: Global) -> Self
        ensures { result ≡ [] }
    {
        Operators {
            rows: IndexMap::new(alloc),
        }
    }

    /// The operators of a list, each as its priority, kind and name.
    pub(crate) fn listed(alloc: Global, list: &[(u16, Fix, &str)]) -> Result<Self, AllocError>
        requires { IsTrue (list_all (λ e. nat_le (length e.2.now) 1024) list.now) }
        ensures { IfOk result (λ rows. rows ≡ gathered (map listed_row list.now)) }
    {
        let mut rows = Operators::new(alloc);
        for (priority, fix, text) in list {
            rows.put(Name::known(alloc, text.as_bytes())?, *priority, *fix)?;
        }
        Ok(rows)
    }

    /// The priority and kind of the operator with this name.
    pub(crate) fn find(&self, name: &[u8]) -> Option<(u16, Fix)>
        ensures { result ≡ look_up self.now name.now }
    {
        self.rows.get(Spelled { bytes: name }).copied()
    }

    /// Makes a name an operator of this priority and kind, or takes its operator away where the priority is 0.
    pub(crate) fn change(&mut self, name: &Name, priority: u16, fix: Fix) -> Result<(), AllocError>
        ensures ok { OnOk result (self.new ≡ changed (record { name = name.now; priority = priority; fix = fix }) self.old) }
        ensures err { OnErr result (self.new ≡ self.old) }
    {
        if priority > 0 {
            self.put(name.clone()?, priority, fix)
        } else {
            self.remove(name.bytes());
            Ok(())
        }
    }

    /// Makes a name an operator of this priority and kind, in the place of what it was.
    pub(crate) fn put(&mut self, name: Name, priority: u16, fix: Fix) -> Result<(), AllocError>
        ensures ok { OnOk result (self.new ≡ with_row (record { name = name; priority = priority; fix = fix }) self.old) }
        ensures err { OnErr result (self.new ≡ self.old) }
    {
        self.rows.insert(name, (priority, fix))?;
        Ok(())
    }

    /// Takes the operator with this name away.
    pub(crate) fn remove(&mut self, name: &[u8])
        ensures { self.new ≡ without_row name.now self.old }
    {
        let _row = self.rows.shift_remove(Spelled { bytes: name });
    }
}
