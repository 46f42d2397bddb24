ghost use Rattle.std.specs.Prelude.{◌≡◌, [], ◌++◌, IfOk, OnOk};
ghost use Rattle.cp_log_text.specs.Line.{line_text, atom};

use crate::line::Line;
use cp_io::Bytes;
use cp_ops::OpTable;
use cp_term::Term;
use cp_write::writeq_text;
use std::alloc::{AllocError, Global};
use std::marker::Model;

/// A log that is being written. Contracts see its text so far.
#[derive(Drop)]
pub(crate) struct Log {
    alloc: Global,
    ops: OpTable,
    text: Vec<u8>,
}

impl Model for Log {
    ghost use Rattle.std.specs.Prelude.{◌≡◌, ℕ, List};
    ghost use Rattle.cp_ops.specs.Standard.{standard};

    ghost Value = { List ℕ };

    ghost view = { λ l. l.text.items };

    ghost invariant = { λ l. l.ops ≡ standard };
}

impl Log {
    pub(crate) fn new(alloc: Global) -> Result<Log, AllocError>
        ensures { IfOk result (λ log. log ≡ []) }
    {
        Ok(Log {
            alloc,
            ops: OpTable::standard(alloc)?,
            text: Vec::new(alloc),
        })
    }

    /// Where the log takes its memory from.
    pub(crate) fn alloc(&self) -> Global {
        self.alloc
    }

    /// Adds a line.
    #[tactic(auto, unfolding(crate::specs::Line::line_text))]
    pub(crate) fn put(&mut self, line: Line) -> Result<(), AllocError>
        ensures { OnOk result (self.new ≡ self.old ++ line_text line.cells) }
    {
        let Ok(term) = Term::from_cells(line.cells) else {
            return Err(AllocError);
        };
        let text = writeq_text(self.alloc, &term, &self.ops)?;
        self.text.extend_from_slice(text.as_slice())?;
        self.text.extend_from_slice(b".\n")?;
        Ok(())
    }

    /// Adds a line that is an atom.
    pub(crate) fn put_word(&mut self, name: &[u8]) -> Result<(), AllocError>
        ensures { OnOk result (self.new ≡ self.old ++ line_text (atom name.now)) }
    {
        let mut line = Line::new(self.alloc);
        line.word(name)?;
        self.put(line)?;
        Ok(())
    }

    /// The text, unless it is too long for a list.
    pub(crate) fn into_bytes(self) -> Result<Bytes, AllocError>
        ensures { IfOk result (λ bytes. bytes ≡ self) }
    {
        let Log {
            alloc: _,
            ops: _,
            text,
        } = self;
        if text.len() > u32::MAX as usize {
            return Err(AllocError);
        }
        Ok(Bytes::from_vec(text))
    }
}
