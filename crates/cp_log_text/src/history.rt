ghost use Rattle.std.specs.Prelude.{◌≡◌, ◌++◌, IfOk, OnOk, map};
ghost use Rattle.std.specs.List.{flat_map};
ghost use Rattle.cp_log_text.specs.Line.{line_text, lines_text};
ghost use Rattle.cp_log_text.specs.History.{entry_line, object_lines};

use crate::call::add_call;
use crate::line::Line;
use crate::log::Log;
use crate::object::object_line;
use crate::reply::add_reply;
use cp_call::{Entry, PredEnd};
use std::alloc::{AllocError, Global};

/// Puts the lines of the shared objects.
pub(crate) fn put_objects(log: &mut Log, objects: &[PredEnd]) -> Result<(), AllocError>
    ensures { OnOk result (log.new ≡ log.old ++ lines_text (flat_map object_lines objects.now)) }
{
    'objects: for object in objects {
        put_object(log, object)?;
    }
    Ok(())
}

fn put_object(log: &mut Log, object: &PredEnd) -> Result<(), AllocError>
    ensures { OnOk result (log.new ≡ log.old ++ lines_text (object_lines object.now)) }
{
    let line = object_line(log.alloc(), &object.name)?;
    log.put(line)?;
    put_entries(log, object.history.as_slice())?;
    Ok(())
}

fn put_entries(log: &mut Log, entries: &[Entry]) -> Result<(), AllocError>
    ensures { OnOk result (log.new ≡ log.old ++ lines_text (map entry_line entries.now)) }
{
    'entries: for entry in entries {
        put_entry(log, entry)?;
    }
    Ok(())
}

fn put_entry(log: &mut Log, entry: &Entry) -> Result<(), AllocError>
    ensures { OnOk result (log.new ≡ log.old ++ line_text (entry_line entry.now)) }
{
    let line = line_of(log.alloc(), entry)?;
    log.put(line)?;
    Ok(())
}

fn line_of(alloc: Global, entry: &Entry) -> Result<Line, AllocError>
    ensures { IfOk result (λ line. line.cells ≡ entry_line entry.now) }
{
    let mut line = Line::new(alloc);
    line.functor(b"h", 3)?;
    line.number(entry.caller)?;
    add_call(&mut line, &entry.call)?;
    add_reply(&mut line, &entry.reply)?;
    Ok(line)
}
