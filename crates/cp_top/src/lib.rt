//! The top calls: from the words of the command line and the devices of the outside to a status.
#![tactic(auto)]

mod check;
mod ending;
mod file_line;
mod generated;
mod local;
mod object_name;
mod reason;
mod refuse;
mod run_end;
mod say;
mod sim;
mod tell;
mod term_text;
mod told;
mod uncaught;
mod unloaded;
mod waiting;

pub use local::{LocalEnd, local_top};
