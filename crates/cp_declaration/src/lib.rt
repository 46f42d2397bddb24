//! What a declaration of a file says, as data.
#![tactic(auto)]

mod cells;
mod declaration;
mod header;
mod imports;
mod indicator;
mod laws;
mod marks;
mod names;
mod operators;
mod preds;
mod said;
mod words;

pub use declaration::Declaration;
pub use indicator::{Indicator, Indicators};
pub use laws::lists_and_joined_predicates_are_read_exactly;
pub use marks::Marks;
pub use names::Names;
pub use said::{declaration_of, is_declaration};
