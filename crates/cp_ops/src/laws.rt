// Laws on what declarations make of a table, for the crates above.
ghost use Rattle.std.specs.Prelude.{◌≡◌, ◌≢◌, ℕ, List, unwrap_or};
ghost use Rattle.cp_ops.specs.Operators.{Ops, IsTable, is_prefix, look_up};
ghost use Rattle.cp_ops.specs.Standard.{standard};
ghost use Rattle.cp_ops.specs.Declarations.{Declaration, after_one, after_all, is_infix, last_said};

/// The table before the first declaration is lawful: no name twice on a side, priorities from 1 to 1200, each kind on
/// its side, and of the names that no declaration changes only the comma, infix at 1000.
pub fn standard_table_is_lawful()
    ensures { IsTable standard }
{}

/// Declarations keep a table lawful.
pub fn declarations_keep_the_table()
    ensures { (ops : Ops) (ds : List Declaration) → IsTable ops → IsTable (after_all ops ds) }
{}

/// A declaration changes the operators of no other name.
pub fn declarations_change_no_other_name()
    ensures prefix { (ops : Ops) (d : Declaration) (name : List ℕ) → IsTable ops → d.name ≢ name → look_up (after_one ops d).prefixes name ≡ look_up ops.prefixes name }
    ensures infix { (ops : Ops) (d : Declaration) (name : List ℕ) → IsTable ops → d.name ≢ name → look_up (after_one ops d).infixes name ≡ look_up ops.infixes name }
{}

/// After a list of declarations a name is the operator that the last of them says it is, or none where that one took it
/// away. Where none of them says anything of the name on that side, it is what it was.
pub fn last_declaration_counts()
    ensures prefix { (ops : Ops) (ds : List Declaration) (name : List ℕ) → IsTable ops → look_up (after_all ops ds).prefixes name ≡ unwrap_or (last_said is_prefix name ds) (look_up ops.prefixes name) }
    ensures infix { (ops : Ops) (ds : List Declaration) (name : List ℕ) → IsTable ops → look_up (after_all ops ds).infixes name ≡ unwrap_or (last_said is_infix name ds) (look_up ops.infixes name) }
{}
