ghost use Rattle.std.specs.Prelude.{◌≡◌, ◌⊎◌, true, ◌++◌, Some, IsTrue, IfOk, OnOk};
ghost use Rattle.std.specs.List.{list_all};
ghost use Rattle.cp_out.specs.Port.{Records, any_failed};
ghost use Rattle.cp_log_text.specs.Log.{is_worker};
ghost use Rattle.cp_top.specs.Ending.{Ending, ending_of, shown};
ghost use Rattle.cp_top.specs.Written.{end_on, status_on, HasPut, log_bytes, last_bytes, IsTold, IsCutAt};

use crate::ending::end_of;
use crate::run_end::RunEnd;
use crate::say::say;
use crate::told::{Told, short};
use cp_call::{OutEntries, Outcome, PutReply};
use cp_io::Sink;
use cp_log_text::log_text;
use std::alloc::{AllocError, Global};

/// Whether a write has failed.
fn has_failed(port: &OutEntries) -> bool
    ensures { result ≡ any_failed port.now }
{
    port.as_slice()
        .iter()
        .any(|w| matches!(w.reply, PutReply::Failed))
}

/// Adds the log of a run behind its last line.
fn add_log(alloc: Global, outcome: &Outcome, text: &mut Vec<u8>) -> Result<(), AllocError>
    requires { IsTrue (list_all is_worker outcome.now.engines) }
    ensures { OnOk result (text.new.items ≡ text.old.items ++ log_bytes true outcome.now) }
{
    let log = log_text(alloc, outcome)?;
    text.extend_from_slice(b"\n%LOG\n")?;
    text.extend_from_slice(log.as_slice())?;
    Ok(())
}

/// The status, and the last line with what is wanted behind it.
fn last_of(alloc: Global, outcome: &Outcome, log: bool) -> Result<RunEnd, AllocError>
    requires { IsTrue (list_all is_worker outcome.now.engines) }
    ensures { IfOk result (λ e. ◌≡◌ {A = Ending} (shown e) (record { status = (ending_of outcome.now).status; line = last_bytes log outcome.now })) }
{
    let RunEnd { status, mut line } = end_of(alloc, outcome)?;
    if log {
        add_log(alloc, outcome, &mut line)?;
    }
    Ok(RunEnd { status, line })
}

/// Writes the last line of a run whose writes have not failed, and what is behind it.
fn tell_line<S: Sink>(outcome: Outcome, end: RunEnd, out: S) -> Told<S>
    requires { S.faults out ≡ 0 }
    ensures status { result.status ≡ status_on (S.faults result.out) end.status }
    ensures outcome { result.outcome ≡ Some outcome }
    ensures written { HasPut (S.held out) end.line.items (S.faults result.out) (S.held result.out) }
{
    let mut out = out;
    let whole = say(&mut out, end.line.as_slice());
    let status = if whole { end.status } else { 74 };
    Told {
        status,
        outcome: Some(outcome),
        out,
    }
}

/// Tells a run, whose writes stand in the outcome's port, on its sink, with its log where it is wanted.
pub(crate) fn tell<S: Sink>(alloc: Global, outcome: Outcome, log: bool, out: S) -> Told<S>
    requires workers { IsTrue (list_all is_worker outcome.engines) }
    requires records { (first : S) × (S.faults first ≡ 0) × Records S.held S.faults first outcome.port out }
    ensures { (first : S) → S.faults first ≡ 0 → Records S.held S.faults first outcome.port out → IsCutAt outcome (end_on S.held S.faults first result.out result.status result.outcome) ⊎ IsTold log outcome (end_on S.held S.faults first result.out result.status result.outcome) }
{
    if has_failed(&outcome.port) {
        return Told {
            status: 74,
            outcome: Some(outcome),
            out,
        };
    }
    match last_of(alloc, &outcome, log) {
        Ok(end) => tell_line(outcome, end, out),
        Err(_) => short(out),
    }
}
