//! The program `ciao`: it gives the words of its command line, the files and the output of the system to the top call.
#![tactic(auto)]

mod given;

use cp_io::{StdFiles, StdOut};
use cp_top::local_top;
use std::process::ExitCode;

/// The status for want of memory.
const SHORT: u8 = 70;

fn main(rt: HostRuntime) -> ExitCode {
    match given::words(rt.alloc(), &rt) {
        None => ExitCode::from(SHORT),
        Some(words) => {
            let files = StdFiles::new(rt.alloc(), &rt);
            let out = StdOut::new(&rt);
            let end = local_top(rt.alloc(), &words, files, out);
            ExitCode::from(end.status)
        }
    }
}
