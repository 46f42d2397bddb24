ghost use Rattle.std.specs.Prelude.{◌≡◌, ◌++◌, length, IsTrue, IfOk, OnOk};
ghost use Rattle.std.specs.List.{list_all};
ghost use Rattle.cp_log_text.specs.Line.{line_text, term_with};
ghost use Rattle.cp_log_text.specs.Log.{log_text, head_parts, is_worker};

use crate::engine::put_engines;
use crate::history::put_objects;
use crate::line::Line;
use crate::log::Log;
use crate::port::put_port;
use cp_call::Outcome;
use cp_io::Bytes;
use std::alloc::{AllocError, Global};

/// The log of a run, which tells all that it did: the first line `log(1,Steps,Engines)`, the histories of the shared
/// objects, the writes on the output port, the items of each engine, and the line `end`. Each line is a term, written
/// with quotes under the standard operators, and a full stop.
///
/// The engines are workers. Bytes on the port that are no UTF-8 are the list of their numbers, which is no log that can be read.
pub fn log_text(alloc: Global, outcome: &Outcome) -> Result<Bytes, AllocError>
    requires { IsTrue (list_all is_worker outcome.now.engines) }
    ensures { IfOk result (λ text. text ≡ log_text outcome.now) }
{
    let mut log = Log::new(alloc)?;
    put_outcome(&mut log, outcome)?;
    log.into_bytes()
}

fn put_outcome(log: &mut Log, outcome: &Outcome) -> Result<(), AllocError>
    requires { IsTrue (list_all is_worker outcome.now.engines) }
    ensures { OnOk result (log.new ≡ log.old ++ log_text outcome.now) }
{
    let line = head_line(log.alloc(), outcome)?;
    log.put(line)?;
    put_objects(log, outcome.preds.as_slice())?;
    put_port(log, outcome.port.as_slice())?;
    put_engines(log, outcome.engines.as_slice())?;
    log.put_word(b"end")?;
    Ok(())
}

fn head_line(alloc: Global, outcome: &Outcome) -> Result<Line, AllocError>
    ensures { IfOk result (λ line. line.cells ≡ term_with (head_parts outcome.now.steps (length outcome.now.engines))) }
{
    let mut line = Line::new(alloc);
    line.functor(b"log", 3)?;
    line.number(1)?;
    line.number(outcome.steps)?;
    line.number(outcome.engines.len())?;
    Ok(line)
}
