ghost use Rattle.std.specs.Prelude.{◌≡◌, true, false, [], ◌∷◌, ◌++◌, IsTrue, IfOk, OnOk, map};
ghost use Rattle.std.specs.List.{flat_map, list_all};
ghost use Rattle.cp_call.specs.Sound.{is_lane};
ghost use Rattle.cp_log_text.specs.Line.{functor, number, line_text, lines_text, term_with};
ghost use Rattle.cp_log_text.specs.Engine.{engine_lines, engine_parts, item_line, stand_parts, is_logged};
ghost use Rattle.cp_log_text.specs.Log.{is_worker};

use crate::item::item_line;
use crate::line::Line;
use crate::log::Log;
use cp_call::{EngineEnd, Item, Stand};
use std::alloc::{AllocError, Global};

/// Puts the lines of the engines.
pub(crate) fn put_engines(log: &mut Log, engines: &[EngineEnd]) -> Result<(), AllocError>
    requires { IsTrue (list_all is_worker engines.now) }
    ensures { OnOk result (log.new ≡ log.old ++ lines_text (flat_map engine_lines engines.now)) }
{
    'engines: for engine in engines {
        put_engine(log, engine)?;
    }
    Ok(())
}

fn put_engine(log: &mut Log, engine: &EngineEnd) -> Result<(), AllocError>
    requires { is_worker engine.now ≡ true }
    ensures { OnOk result (log.new ≡ log.old ++ lines_text (engine_lines engine.now)) }
{
    let line = engine_line(log.alloc(), engine.number)?;
    log.put(line)?;
    put_items(log, engine.items.as_slice())?;
    let line = stand_line(log.alloc(), engine.stand)?;
    log.put(line)?;
    Ok(())
}

fn engine_line(alloc: Global, number: u32) -> Result<Line, AllocError>
    ensures { IfOk result (λ line. line.cells ≡ term_with (engine_parts number)) }
{
    let mut line = Line::new(alloc);
    line.functor(b"engine", 1)?;
    line.number(number)?;
    Ok(line)
}

fn put_items(log: &mut Log, items: &[Item]) -> Result<(), AllocError>
    requires { IsTrue (list_all is_logged items.now) }
    ensures { OnOk result (log.new ≡ log.old ++ lines_text (map item_line items.now)) }
{
    'items: for item in items {
        put_item(log, item)?;
    }
    Ok(())
}

fn put_item(log: &mut Log, item: &Item) -> Result<(), AllocError>
    requires { is_logged item.now ≡ true }
    ensures { OnOk result (log.new ≡ log.old ++ line_text (item_line item.now)) }
{
    let line = item_line(log.alloc(), item)?;
    log.put(line)?;
    Ok(())
}

fn stand_line(alloc: Global, stand: Stand) -> Result<Line, AllocError>
    requires { is_lane stand ≡ false }
    ensures { IfOk result (λ line. line.cells ≡ term_with (stand_parts stand)) }
{
    match stand {
        Stand::Parked(object) => parked_line(alloc, object),
        Stand::Left => unreachable!(),
    }
}

fn parked_line(alloc: Global, object: u32) -> Result<Line, AllocError>
    ensures { IfOk result (λ line. line.cells ≡ term_with (functor "stand" 1 ∷ functor "parked" 1 ∷ number object ∷ [])) }
{
    let mut line = Line::new(alloc);
    line.functor(b"stand", 1)?;
    line.functor(b"parked", 1)?;
    line.number(object)?;
    Ok(line)
}
