//! Terms at run time: a heap of terms that grows, with a substitution that can be taken back.
#![tactic(auto)]

mod bound;
mod export_error;
mod heap;
mod laws;
mod look;
mod mark;
mod reference;
mod word;

pub use bound::Bound;
pub use export_error::ExportError;
pub use heap::Heap;
pub use laws::{extension_is_an_order, instances_have_the_variables_of_the_heap, terms_stay};
pub use look::Look;
pub use mark::Mark;
pub use reference::{Ref, Refs};
pub use word::Word;
