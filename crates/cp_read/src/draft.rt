ghost use Rattle.std.specs.Prelude.{◌≡◌, ℕ, ◌<◌, ◌≤◌, None, IfSome, IfOk, List, [], ◌∷◌, ◌++◌, length, slice_set, slice_index_or, OnOk};
ghost use Rattle.cp_term.specs.declared.cell.Cell.TheVariants.{Func};
ghost use Rattle.cp_read.specs.Drafts.{cell_seen, piece_seen, cells_of};
ghost use Rattle.cp_term.specs.declared.cell.Cell.{Cell};
ghost use Rattle.cp_read.specs.Filling.{IsFitting, IsFilled, IsWithin};

use crate::bounds::Bounds;
use cp_term::{Cell, Cells, Name};
use std::alloc::{AllocError, Global};
use std::marker::Model;

/// A cell of a clause that is being read, whose name is still that of the token.
#[derive(Clone, Copy, Drop)]
pub(crate) enum DraftCell<'a> {
    Var(u32),
    Int(i64),
    Atom(&'a [u8]),
    Func(&'a [u8], usize),
}

/// A cell, and the infix operators whose left operand begins with it. The one that was taken last stands in front.
#[derive(Drop)]
struct Piece<'a> {
    operators: Vec<&'a [u8]>,
    cell: DraftCell<'a>,
}

/// The cells of a clause as far as it was read.
#[derive(Drop)]
pub(crate) struct Draft<'a> {
    alloc: Global,
    pieces: Vec<Piece<'a>>,
}

impl<'a> Model for Draft<'a> {
    ghost use Rattle.std.specs.Prelude.{List};
    ghost use Rattle.cp_term.specs.declared.cell.Cell.{Cell};
    ghost use Rattle.cp_read.specs.Drafts.{pieces_in};

    ghost Value = { List (List Cell) };

    ghost view = { pieces_in };
}

impl<'a> Draft<'a> {
    pub(crate) fn new(alloc: Global) -> Self
        ensures { result ≡ [] }
    {
        Draft {
            alloc,
            pieces: Vec::new(alloc),
        }
    }

    /// The place of the next cell.
    pub(crate) fn len(&self) -> usize
        ensures { result ≡ length self.now }
    {
        self.pieces.len()
    }

    /// Adds a cell at the end.
    pub(crate) fn push(&mut self, cell: DraftCell<'a>) -> Result<(), AllocError>
        ensures { OnOk result (self.new ≡ self.old ++ (cell_seen cell.entry ∷ []) ∷ []) }
    {
        self.pieces.push(Piece {
            operators: Vec::new(self.alloc),
            cell,
        })?;
        Ok(())
    }

    /// Makes the term from a place on the left operand of an infix operator, if there is a piece.
    pub(crate) fn take_left(&mut self, start: usize, name: &'a [u8]) -> Result<(), AllocError>
        ensures { OnOk result (self.new ≡ slice_set self.old start (Func name.entry.now 2 ∷ slice_index_or self.old start [])) }
    {
        if start < self.len() {
            self.take_within(start, name)
        } else {
            Ok(())
        }
    }

    fn take_within(&mut self, start: usize, name: &'a [u8]) -> Result<(), AllocError>
        requires { start < length self.old }
        ensures { OnOk result (self.new ≡ slice_set self.old start (Func name.entry.now 2 ∷ slice_index_or self.old start [])) }
    {
        self.pieces[start].operators.push(name)?;
        Ok(())
    }

    /// Puts a cell in the place of a piece, if there is one.
    pub(crate) fn set(&mut self, start: usize, cell: DraftCell<'a>)
        ensures { self.new ≡ slice_set self.old start (cell_seen cell.entry ∷ []) }
    {
        if start < self.len() {
            self.set_within(start, cell);
        }
    }

    fn set_within(&mut self, start: usize, cell: DraftCell<'a>)
        requires { start < length self.old }
        ensures { self.new ≡ slice_set self.old start (cell_seen cell.entry ∷ []) }
    {
        self.pieces[start] = Piece {
            operators: Vec::new(self.alloc),
            cell,
        };
    }

    /// The cells, unless they are past the bounds.
    pub(crate) fn into_cells(self, bounds: Bounds) -> Result<Option<Cells>, AllocError>
        ensures { IfOk result (λ o. IsWithin bounds o (cells_of self.entry)) }
    {
        let mut list = Cells::new(self.alloc);
        let mut within = true;
        for piece in self.pieces.iter() {
            within = add_piece(self.alloc, &mut list, piece, within, bounds)?;
        }
        if within { Ok(Some(list)) } else { Ok(None) }
    }
}

/// Adds the cells of a piece, if it and all before it are within the bounds.
fn add_piece(
    alloc: Global,
    list: &mut Cells,
    piece: &Piece,
    before: bool,
    bounds: Bounds,
) -> Result<bool, AllocError>
    ensures { (cells : List Cell) → IsFilled bounds before list.old cells → IfOk result (λ b. IsFilled bounds b list.new (cells ++ piece_seen piece.now)) }
{
    let mut within = before;
    let mut left = piece.operators.len();
    while left > 0 {
        left -= 1;
        let operator = piece.operators[left];
        within = add(alloc, list, DraftCell::Func(operator, 2), within, bounds)?;
    }
    add(alloc, list, piece.cell, within, bounds)
}

/// Adds a cell, if it and all before it are within the bounds.
fn add(
    alloc: Global,
    list: &mut Cells,
    cell: DraftCell,
    within: bool,
    bounds: Bounds,
) -> Result<bool, AllocError>
    ensures { (cells : List Cell) → IsFilled bounds within list.old cells → IfOk result (λ b. IsFilled bounds b list.new (cells ++ cell_seen cell.entry ∷ [])) }
{
    if !within {
        return Ok(false);
    }
    if list.len() >= bounds.cells {
        return Ok(false);
    }
    match cell_of(alloc, cell, bounds.name)? {
        Some(cell) => {
            list.push(cell)?;
            Ok(true)
        }
        None => Ok(false),
    }
}

/// The cell, unless its name or number of arguments is past the bounds.
fn cell_of(alloc: Global, cell: DraftCell, name: u32) -> Result<Option<Cell>, AllocError>
    ensures { IfOk result (λ o. IsFitting o (cell_seen cell.entry) name) }
{
    match cell {
        DraftCell::Var(number) => Ok(Some(Cell::Var(number))),
        DraftCell::Int(value) => Ok(Some(Cell::Int(value))),
        DraftCell::Atom(text) => match name_of(alloc, text, name)? {
            Some(text) => Ok(Some(Cell::Atom(text))),
            None => Ok(None),
        },
        DraftCell::Func(text, arity) => {
            if arity > 255 {
                return Ok(None);
            }
            match name_of(alloc, text, name)? {
                Some(text) => Ok(Some(Cell::Func(text, arity as u16))),
                None => Ok(None),
            }
        }
    }
}

/// The name, unless it has more bytes than these.
fn name_of(alloc: Global, text: &[u8], most: u32) -> Result<Option<Name>, AllocError>
    ensures some { IfOk result (λ o. IfSome o (λ n. (n ≡ text.now) × (length text.now ≤ most))) }
    ensures none { IfOk result (λ o. o ≡ None → most < length text.now) }
{
    if text.len() > most as usize {
        return Ok(None);
    }
    match Name::of(alloc, text) {
        Ok(name) => Ok(Some(name)),
        Err(_) => Err(AllocError),
    }
}
