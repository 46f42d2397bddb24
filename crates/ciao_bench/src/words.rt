use crate::work::Work;
use std::{env, rt};

/// What the words of the command line say.
pub(crate) enum Words {
    Work(Work, u32),
    Usage,
    NoMemory,
}

/// The words after the program's name.
pub(crate) fn words_of(system: &impl rt::Runtime) -> Words {
    let Ok(mut words) = env::args(system) else {
        return Words::NoMemory;
    };
    let _program = words.next();
    let (Some(name), Some(digits), None) = (words.next(), words.next(), words.next()) else {
        return Words::Usage;
    };
    match (Work::named(name.as_str()), digits.as_str().parse::<u32>()) {
        (Some(work), Ok(count)) => Words::Work(work, count),
        _ => Words::Usage,
    }
}
