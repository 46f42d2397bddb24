use cp_io::bytes_of;
use cp_words::Words;
use std::alloc::Global;
use std::{env, rt};

/// The words after the program's name. None where there was no memory for them.
pub(crate) fn words(alloc: Global, system: &impl rt::Runtime) -> Option<Words> {
    let mut words = Words::new(alloc);
    let mut given = env::args(system).ok()?;
    let _program = given.next();
    for word in given {
        words.push(bytes_of(alloc, word.as_bytes()).ok()?).ok()?;
    }
    Some(words)
}
