//! The program `ciao_bench`: it does a piece of work a number of times and prints a fixed line. Times are taken from
//! outside, by `bench/run`.
#![tactic(auto)]

mod append;
mod export;
mod facts;
mod lists;
mod nested;
mod object;
mod operators;
mod pieces;
mod read;
mod tokens;
mod undo;
mod unify;
mod words;
mod work;
mod write;

use std::process::ExitCode;
use words::Words;

/// The status of words that are no piece of work and a count.
const USAGE: u8 = 64;
/// The status for want of memory.
const SHORT: u8 = 70;
/// The status of a failed write.
const FAULT: u8 = 74;

fn main(rt: HostRuntime) -> ExitCode {
    let (work, count) = match words::words_of(&rt) {
        Words::Work(work, count) => (work, count),
        Words::Usage => {
            return match println!(rt;
                "usage: ciao_bench WORK COUNT, where WORK is {}",
                work::NAMES
            ) {
                Ok(()) => ExitCode::from(USAGE),
                Err(_) => ExitCode::from(FAULT),
            };
        }
        Words::NoMemory => return ExitCode::from(SHORT),
    };
    match work.done(rt.alloc(), count) {
        Ok(number) => match println!(rt; "{} {count}: {number}", work.name()) {
            Ok(()) => ExitCode::SUCCESS,
            Err(_) => ExitCode::from(FAULT),
        },
        Err(_) => ExitCode::from(SHORT),
    }
}
