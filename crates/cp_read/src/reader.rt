ghost use Rattle.std.specs.Prelude.{◌≡◌, ◌≤◌, ◌-◌, true, None, IfOk, drop, length};
ghost use Rattle.cp_term.specs.Preorder.{is_terms};
ghost use Rattle.cp_term.specs.Numbering.{is_numbered_from};
ghost use Rattle.cp_read.specs.Drafts.{cells_of};
ghost use Rattle.cp_read.specs.Filling.{IsWithin, IsTermWithin};
ghost use Rattle.cp_read.specs.Clauses.{line_of, last_line, fault_line};
ghost use Rattle.cp_read.specs.Reading.{Answers, ReadsNext, Finds, Finishes, refusal_of};

use crate::bounds::Bounds;
use crate::clause::ReadClause;
use crate::draft::Draft;
use crate::error::{ReadError, SyntaxWhy};
use crate::frame::Stop;
use crate::machine::Machine;
use cp_lex::{Token, Tokens};
use cp_ops::OpTable;
use cp_term::{Cells, Term};
use std::alloc::{AllocError, Global};
use std::marker::Model;

/// Reads one clause after another. Contracts see the tokens that are left, the bounds, and the refusal that it has
/// answered, if any.
#[derive(Debug, Drop)]
pub struct Reader {
    alloc: Global,
    tokens: Tokens,
    at: u32,
    bounds: Bounds,
    failed: Option<ReadError>,
}

impl Model for Reader {
    ghost use Rattle.std.specs.Prelude.{◌≤◌, length, drop};
    ghost use Rattle.cp_read.specs.Reader.{Reading};

    ghost Value = { Reading };

    ghost view = { λ r. record { rest = drop r.at r.tokens; bounds = r.bounds; failed = r.failed } };

    ghost invariant = { λ r. (r.at ≤ length r.tokens) × (r.bounds.name ≤ 1024) };
}

impl Reader {
    /// A reader of the clauses of these tokens. It takes no memory.
    pub fn new(alloc: Global, tokens: Tokens, bounds: Bounds) -> Reader
        requires { bounds.name ≤ 1024 }
        ensures { result ≡ record { rest = tokens; bounds = bounds; failed = None } }
    {
        Reader {
            alloc,
            tokens,
            at: 0,
            bounds,
            failed: None,
        }
    }

    /// The next clause, or `None` where no token is left. After a refusal the reader answers it again.
    pub fn next_clause(&mut self, ops: &OpTable) -> Result<Option<ReadClause>, ReadError>
        ensures { Answers result self.old self.new ops.now }
    {
        let failed = self.failed;
        match failed {
            Some(refusal) => Err(refusal),
            None => match self.read(ops) {
                Ok(clause) => Ok(clause),
                Err(refusal) => {
                    self.failed = Some(refusal);
                    Err(refusal)
                }
            },
        }
    }

    fn read(&mut self, ops: &OpTable) -> Result<Option<ReadClause>, ReadError>
        ensures { ReadsNext result self.old self.new ops.now }
    {
        let (_, tokens) = self.tokens.as_slice().split_at(self.at as usize);
        if tokens.is_empty() {
            return Ok(None);
        }
        let line = first_line(tokens);
        match find(self.alloc, tokens, self.bounds, ops) {
            Ok((term, left)) => {
                self.at = self.tokens.len() - left as u32;
                Ok(Some(ReadClause { term, line }))
            }
            Err(refusal) => Err(refusal),
        }
    }
}

/// The clause at the front of these tokens, and how many tokens are left behind it.
fn find(
    alloc: Global,
    tokens: &[Token],
    bounds: Bounds,
    ops: &OpTable,
) -> Result<(Term, usize), ReadError>
    ensures { Finds result tokens.now bounds ops.now }
{
    let mut machine = Machine::new(alloc, tokens);
    match machine.run(ops) {
        Ok(()) => {
            let left = machine.left();
            finish(machine.into_draft(), left, tokens, bounds)
        }
        Err(stop) => {
            let left = machine.left();
            Err(refusal_at(stop, left, tokens))
        }
    }
}

/// The refusal where reading stops so, with so many of the tokens left.
fn refusal_at(stop: Stop, left: usize, tokens: &[Token]) -> ReadError
    ensures { result ≡ refusal_of stop left tokens.now }
{
    match stop {
        Stop::NoMemory => ReadError::NoMemory,
        Stop::Fault(why) => ReadError::Syntax {
            line: line_at(tokens, left),
            why,
        },
    }
}

/// The term in the draft, unless it is past the bounds.
fn finish(
    draft: Draft,
    left: usize,
    tokens: &[Token],
    bounds: Bounds,
) -> Result<(Term, usize), ReadError>
    requires { IsTermWithin bounds (cells_of draft) }
    ensures { Finishes result (cells_of draft.entry) left tokens.now bounds }
{
    match term_of(draft, bounds) {
        Ok(Some(term)) => Ok((term, left)),
        Ok(None) => Err(ReadError::Syntax {
            line: first_line(tokens),
            why: SyntaxWhy::TooLarge,
        }),
        Err(_) => Err(ReadError::NoMemory),
    }
}

/// The line of the first of the last tokens, which are so many, or of the last token where they are none.
fn line_at(tokens: &[Token], left: usize) -> u32
    ensures { result ≡ fault_line tokens.now (drop (length tokens.now - left) tokens.now) }
{
    let (_, rest) = tokens.split_at(tokens.len().saturating_sub(left));
    match rest.split_first() {
        Some((token, _)) => token.line,
        None => last_line(tokens),
    }
}

fn first_line(tokens: &[Token]) -> u32
    ensures { result ≡ line_of tokens.now }
{
    match tokens.split_first() {
        Some((token, _)) => token.line,
        None => 0,
    }
}

fn last_line(tokens: &[Token]) -> u32
    ensures { result ≡ last_line tokens.now }
{
    match tokens.split_last() {
        Some((token, _)) => token.line,
        None => 0,
    }
}

/// The term, unless it is past the bounds.
fn term_of(draft: Draft, bounds: Bounds) -> Result<Option<Term>, AllocError>
    requires { IsTermWithin bounds (cells_of draft) }
    ensures { IfOk result (λ o. IsWithin bounds o (cells_of draft.entry)) }
{
    match draft.into_cells(bounds)? {
        None => Ok(None),
        Some(cells) => Ok(Some(Term::known(cells))),
    }
}
