ghost use Rattle.std.specs.Prelude.{◌≡◌, None};
ghost use Rattle.cp_module.specs.Paths.{base_of};
ghost use Rattle.cp_module.specs.Causes.{refused};
ghost use Rattle.cp_module.specs.Parts.{IsPart};

use cp_io::Bytes;
use cp_list::ListOf;
use cp_ops::OpTable;
use cp_read::ReadClause;
use std::marker::Model;

/// The clauses of a file, declarations included, in textual order.
pub type ReadClauses = ListOf<ReadClause>;

/// A file that is accepted by itself.
#[derive(Drop)]
pub struct ModulePart {
    file: Bytes,
    clauses: ReadClauses,
    ops: OpTable,
}

impl Model for ModulePart {
    ghost use Rattle.cp_module.specs.Parts.{Part, IsPart};

    ghost Value = { Part };

    ghost view = { λ p. record { file = p.file; clauses = p.clauses; ops = p.ops } };

    ghost invariant = { λ p. IsPart (record { file = p.file; clauses = p.clauses; ops = p.ops }) };
}

impl ModulePart {
    /// The part with these parts, in which nothing is refused.
    pub(crate) fn new(file: Bytes, clauses: ReadClauses, ops: OpTable) -> ModulePart
        requires { refused (base_of file) (record { clauses = clauses; ops = ops; fault = None }) ≡ None }
        ensures { result ≡ record { file = file; clauses = clauses; ops = ops } }
    {
        ModulePart { file, clauses, ops }
    }

    /// The name of the file.
    pub fn file(&self) -> &[u8]
        ensures { result.now ≡ self.now.file }
    {
        self.file.as_slice()
    }

    /// The clauses of the file, declarations included.
    pub fn clauses(&self) -> &ReadClauses
        ensures clauses { result.now ≡ self.now.clauses }
        ensures accepted { IsPart self.now }
    {
        &self.clauses
    }

    /// The operators at the end of the file.
    pub fn ops(&self) -> &OpTable
        ensures { result.now ≡ self.now.ops }
    {
        &self.ops
    }

    /// The operators at the end of the file, without the rest.
    pub fn into_ops(self) -> OpTable
        ensures { result ≡ self.ops }
    {
        let ModulePart {
            file: _,
            clauses: _,
            ops,
        } = self;
        ops
    }
}
