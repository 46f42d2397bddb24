//! Keys of terms, by which terms that cannot unify are told apart, and attempts at unification that are counted.
#![tactic(auto)]

mod key;
mod steps;
mod unify;

pub use key::{Key, agrees, key_of};
pub use steps::Steps;
pub use unify::unifiable_counted;
