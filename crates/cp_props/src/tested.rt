ghost use Rattle.std.specs.Prelude.{◌≡◌};
ghost use Rattle.std.specs.Option.{option_map};
ghost use Rattle.cp_code.specs.Checks as checks;
ghost use Rattle.cp_code.specs.Programs.{tested_kind};
ghost use Rattle.cp_props.specs.Checks.{tested_shown};

use cp_code::Kind;

/// What an assertion tests: calls, success or both (Ciao manual, assertions).
#[derive(Debug, Clone, Copy, PartialEq, Eq, Drop)]
pub enum Tested {
    /// Calls, where some `pred` assertion has to hold, and success where its precondition held at the call.
    Pred,
    /// Calls alone.
    Calls,
    /// Success where its precondition held at the call.
    Success,
}

impl Tested {
    /// What an assertion of this kind tests, if anything.
    pub(crate) fn of(kind: Kind) -> Option<Tested>
        ensures { option_map tested_shown result ≡ tested_kind kind }
    {
        match kind {
            Kind::Pred => Some(Tested::Pred),
            Kind::Calls => Some(Tested::Calls),
            Kind::Success => Some(Tested::Success),
            Kind::Comp => None,
        }
    }
}
