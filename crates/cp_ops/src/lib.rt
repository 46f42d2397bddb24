//! The operators of a module, as a table that declarations change, and the text of a term under such a table.
#![tactic(auto)]

mod fix;
mod laws;
mod operators;
mod spelled;
mod standard;
mod table;

pub use fix::Fix;
pub use laws::{
    declarations_change_no_other_name, declarations_keep_the_table, last_declaration_counts,
    standard_table_is_lawful,
};
pub use table::{OpError, OpTable};
