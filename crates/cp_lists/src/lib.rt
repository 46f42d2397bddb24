//! Lists and texts on the heap.
#![tactic(auto)]

mod building;
mod digits;
mod laws;
mod spine;
mod step;
mod text;
mod text_error;

pub use building::{codes_list, digits_list, list_of};
pub use digits::number_of;
pub use laws::texts_are_read_back;
pub use spine::Spine;
pub use text::{Codes, text_of, utf8_of};
pub use text_error::TextError;
