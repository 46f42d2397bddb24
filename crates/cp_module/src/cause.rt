ghost use Rattle.std.specs.Prelude.{◌≡◌};
ghost use Rattle.cp_module.specs.Causes.{comes_before, cause_on, least};
ghost use Rattle.cp_module.specs.Least.{soonest};
ghost use Rattle.cp_module.specs.Words.{rank};

use crate::why::Why;

/// What is refused on a line, counted from 1.
#[derive(Debug, Clone, Copy, Drop)]
pub struct Cause {
    pub line: u32,
    pub why: Why,
}

impl Cause {
    /// The cause on a line, if there is one.
    pub fn on(line: u32, why: Option<Why>) -> Option<Cause>
        ensures { result ≡ least (cause_on line why) }
    {
        match why {
            Some(why) => Some(Cause { line, why }),
            None => None,
        }
    }

    fn comes_before(self, other: Cause) -> bool
        ensures { result ≡ comes_before self other }
    {
        self.line < other.line || (self.line == other.line && self.why.rank() < other.why.rank())
    }
}

/// What counts of what counts in a part of a file and in the part behind it.
pub fn soonest(cause: Option<Cause>, behind: Option<Cause>) -> Option<Cause>
    ensures { result ≡ soonest cause behind }
{
    match (cause, behind) {
        (None, behind) => behind,
        (Some(cause), None) => Some(cause),
        (Some(cause), Some(behind)) => {
            if behind.comes_before(cause) {
                Some(behind)
            } else {
                Some(cause)
            }
        }
    }
}
