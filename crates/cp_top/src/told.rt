ghost use Rattle.std.specs.Prelude.{◌≡◌, None};

use cp_call::Outcome;
use cp_io::Sink;

/// The status, the outcome if there is one, and the sink.
#[derive(Drop)]
pub struct Told<S: Sink> {
    pub status: u8,
    pub outcome: Option<Outcome>,
    pub out: S,
}

/// Memory was short.
pub(crate) fn short<S: Sink>(out: S) -> Told<S>
    ensures status { result.status ≡ 70 }
    ensures none { result.outcome ≡ None }
    ensures out { result.out ≡ out }
{
    Told {
        status: 70,
        outcome: None,
        out,
    }
}
