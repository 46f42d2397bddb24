ghost use Rattle.std.specs.Prelude.{◌≡◌, ◌++◌, ◌∷◌, [], MatchResult};
ghost use Rattle.cp_heap.specs.State.{State};
ghost use Rattle.cp_arith.specs.declared.now.Now.TheVariants.{Behind};
ghost use Rattle.cp_arith.specs.Frames.{meaning, AreLive, Advances, StopsAt, or_stop};

use crate::frame::{Frame, Frames};
use crate::now::Now;
use crate::stop::Stop;
use cp_goal::{Fault, Why};

fn behind(value: Result<i64, Fault>) -> Result<Now, Stop>
    ensures { result ≡ or_stop value }
{
    match value {
        Ok(value) => Ok(Now::Behind(value)),
        Err(fault) => Err(Stop::NoValue(Why::Faulty(fault))),
    }
}

/// Does with a value what the frame says that was on top.
pub fn leave(frame: Frame, value: i64, frames: &mut Frames) -> Result<Now, Stop>
    ensures { (h : State) → AreLive h (frames.old ++ frame ∷ []) → MatchResult result (λ next. Advances h (frames.old ++ frame ∷ []) (Behind value) frames.new next) (λ stop. StopsAt stop (meaning h (frames.old ++ frame ∷ []) (Behind value))) }
{
    match frame {
        Frame::Only(op) => behind(op.value(value)),
        Frame::First(op, second) => {
            frames.push(Frame::Second(op, value))?;
            Ok(Now::At(second))
        }
        Frame::Second(op, first) => behind(op.value(first, value)),
    }
}
