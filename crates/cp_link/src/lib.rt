//! The files of a program together: what is refused in them, and what each of them says of its module.
#![tactic(auto)]

mod clauses;
mod exported;
mod exports;
mod import_list;
mod imports;
mod kept;
mod names;
mod origin;
mod pred_list;
mod refusals;
mod spot;
mod whole;
mod written;

pub use clauses::{is_clause_of, is_in, is_shared, said, shared_in};
pub use exported::{AllExports, ModuleExports, all_exports};
pub use exports::{exports_of, own_preds};
pub use imports::{active_in, imports_in, push_named};
pub use names::{in_module, name_of};
pub use whole::{refusal_in, rules_of};
