ghost use Rattle.std.specs.Prelude.{◌≡◌, [], ◌∷◌, ◌++◌, OnOk, map, string_bytes, encode_utf8};
ghost use Rattle.cp_log_text.specs.Line.{functor, atom, number, element_parts, list_parts};
ghost use Rattle.cp_log_text.specs.Port.{bytes_parts, piece_parts, cut};
ghost use Rattle.cp_log_text.specs.Building.{Gains, ended_by, kept_before};

use crate::line::Line;
use crate::reply::add_number;
use cp_term::Name;
use std::alloc::AllocError;

/// Adds what was written on the port.
pub(crate) fn add_bytes(line: &mut Line, bytes: &[u8]) -> Result<(), AllocError>
    ensures { OnOk result (Gains line.old line.new (bytes_parts bytes.now)) }
{
    let Ok(text) = str::from_utf8(bytes) else {
        add_numbers(line, bytes)?;
        return Ok(());
    };
    add_text(line, text)?;
    Ok(())
}

/// Adds a text that was written.
fn add_text(line: &mut Line, text: &str) -> Result<(), AllocError>
    ensures { OnOk result (Gains line.old line.new (piece_parts text.now)) }
{
    if text.len() <= Name::MAX_LEN {
        line.word(text.as_bytes())?;
        return Ok(());
    }
    add_cut(line, text)?;
    Ok(())
}

/// Adds a text as the list of the atoms that it is cut into.
fn add_cut(line: &mut Line, text: &str) -> Result<(), AllocError>
    ensures { OnOk result (Gains line.old line.new (list_parts (map atom (cut text.now)))) }
{
    let mut piece = String::new(line.cells.alloc());
    'characters: for character in text.chars() {
        add_character(line, &mut piece, character)?;
    }
    add_element(line, piece.as_str())?;
    line.word(b"[]")?;
    Ok(())
}

/// Adds a character to the begun piece, or begins the next one with it.
fn add_character(line: &mut Line, piece: &mut String, character: char) -> Result<(), AllocError>
    ensures line { OnOk result (Gains line.old line.new (element_parts (map atom (ended_by (string_bytes piece.old) character)))) }
    ensures piece { OnOk result (string_bytes piece.new ≡ kept_before (string_bytes piece.old) character ++ encode_utf8 character) }
{
    make_room(line, piece, character)?;
    piece.push(character)?;
    Ok(())
}

/// Ends the begun piece where it has no room for the character.
fn make_room(line: &mut Line, piece: &mut String, character: char) -> Result<(), AllocError>
    ensures line { OnOk result (Gains line.old line.new (element_parts (map atom (ended_by (string_bytes piece.old) character)))) }
    ensures piece { OnOk result (string_bytes piece.new ≡ kept_before (string_bytes piece.old) character) }
{
    if piece.len() + character.len_utf8() <= Name::MAX_LEN {
        return Ok(());
    }
    add_element(line, piece.as_str())?;
    piece.clear();
    Ok(())
}

/// Adds a piece as an element of a list, without the rest of the list.
fn add_element(line: &mut Line, piece: &str) -> Result<(), AllocError>
    ensures { OnOk result (Gains line.old line.new (functor "." 2 ∷ atom piece.now ∷ [])) }
{
    line.functor(b".", 2)?;
    line.word(piece.as_bytes())?;
    Ok(())
}

/// Adds bytes as the list of their numbers.
fn add_numbers(line: &mut Line, bytes: &[u8]) -> Result<(), AllocError>
    ensures { OnOk result (Gains line.old line.new (list_parts (map number bytes.now))) }
{
    add_numbers_of(line, bytes)?;
    line.word(b"[]")?;
    Ok(())
}

/// Adds the numbers of bytes as elements of a list, without its end.
fn add_numbers_of(line: &mut Line, bytes: &[u8]) -> Result<(), AllocError>
    ensures { OnOk result (Gains line.old line.new (element_parts (map number bytes.now))) }
{
    'bytes: for byte in bytes {
        add_number(line, u32::from(*byte))?;
    }
    Ok(())
}
