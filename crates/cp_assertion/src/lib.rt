//! Assertion forms and regular types, as loading reads them.
#![tactic(auto)]

mod assertion;
mod assertion_error;
mod body;
mod body_part;
mod cells;
mod declared;
mod demand;
mod draft;
mod form;
mod formula;
mod head;
mod names;
mod part;
mod regtype;
mod standing;
mod type_error;
mod type_uses;

pub use assertion::assertion_of;
pub use assertion_error::AssertionError;
pub use draft::{Draft, is_assertion};
pub use names::{is_of_language, is_property};
pub use regtype::{add_regtype, is_regular};
pub use standing::Standing;
pub use type_error::TypeError;
pub use type_uses::TypeUses;
