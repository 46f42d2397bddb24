ghost use Rattle.std.specs.Prelude.{◌≡◌, ◌⊎◌, ℕ, List, IfOk};
ghost use Rattle.cp_top.specs.Written.{end_on, IsShort, IsRefusal, IsAnswer};

use crate::say::say;
use crate::told::{Told, short};
use cp_io::Sink;
use std::alloc::AllocError;

/// Writes a line, if there was memory for it, and ends with the status.
pub(crate) fn refuse<S: Sink>(status: u8, line: Result<Vec<u8>, AllocError>, out: S) -> Told<S>
    requires { S.faults out ≡ 0 }
    ensures { (wanted : List ℕ) → IfOk line (λ l. l.items ≡ wanted) → IsShort (end_on S.held S.faults out result.out result.status result.outcome) ⊎ IsRefusal status wanted (end_on S.held S.faults out result.out result.status result.outcome) }
{
    match line {
        Err(_) => short(out),
        Ok(line) => {
            let mut out = out;
            let _whole = say(&mut out, line.as_slice());
            Told {
                status,
                outcome: None,
                out,
            }
        }
    }
}

/// Writes a text and ends with 0, or with 74 where the sink failed.
pub(crate) fn answer<S: Sink>(text: &[u8], out: S) -> Told<S>
    requires { S.faults out ≡ 0 }
    ensures { IsAnswer text.now (end_on S.held S.faults out result.out result.status result.outcome) }
{
    let mut out = out;
    let whole = say(&mut out, text);
    let status = if whole { 0 } else { 74 };
    Told {
        status,
        outcome: None,
        out,
    }
}
