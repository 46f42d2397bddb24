ghost use Rattle.std.specs.Prelude.{◌≡◌, [], ◌∷◌, ◌++◌, IfOk, OnOk, map};
ghost use Rattle.cp_log_text.specs.Line.{line_text, lines_text};
ghost use Rattle.cp_log_text.specs.Port.{port_lines, write_line, put_reply};
ghost use Rattle.cp_log_text.specs.Building.{Gains};

use crate::line::Line;
use crate::log::Log;
use crate::piece::add_bytes;
use cp_call::{OutEntry, PutReply};
use std::alloc::{AllocError, Global};

/// Puts the lines of the output port.
pub(crate) fn put_port(log: &mut Log, port: &[OutEntry]) -> Result<(), AllocError>
    ensures { OnOk result (log.new ≡ log.old ++ lines_text (port_lines port.now)) }
{
    log.put_word(b"port")?;
    put_writes(log, port)?;
    Ok(())
}

fn put_writes(log: &mut Log, writes: &[OutEntry]) -> Result<(), AllocError>
    ensures { OnOk result (log.new ≡ log.old ++ lines_text (map write_line writes.now)) }
{
    'writes: for write in writes {
        put_write(log, write)?;
    }
    Ok(())
}

fn put_write(log: &mut Log, write: &OutEntry) -> Result<(), AllocError>
    ensures { OnOk result (log.new ≡ log.old ++ line_text (write_line write.now)) }
{
    let line = line_of(log.alloc(), write)?;
    log.put(line)?;
    Ok(())
}

fn line_of(alloc: Global, write: &OutEntry) -> Result<Line, AllocError>
    ensures { IfOk result (λ line. line.cells ≡ write_line write.now) }
{
    let mut line = Line::new(alloc);
    line.functor(b"w", 3)?;
    line.number(write.engine)?;
    add_bytes(&mut line, write.bytes.as_slice())?;
    add_put_reply(&mut line, write.reply)?;
    Ok(line)
}

fn add_put_reply(line: &mut Line, reply: PutReply) -> Result<(), AllocError>
    ensures { OnOk result (Gains line.old line.new (put_reply reply ∷ [])) }
{
    match reply {
        PutReply::Wrote => line.word(b"wrote"),
        PutReply::Failed => line.word(b"failed"),
    }
}
