ghost use Rattle.std.specs.Prelude.{◌≡◌, ◌≢◌, ◌+◌, ◌≤◌, ◌<◌, ◌++◌, [], ◌∷◌, true, false, List, IfOk, OnOk};
ghost use Rattle.cp_term.specs.Preorder.{arity_of, has_arity};
ghost use Rattle.cp_term.specs.declared.cell.Cell.TheVariants.{Func};
ghost use Rattle.cp_write.specs.declared.place.Place.TheVariants.{Nothing, Whole};
ghost use Rattle.cp_write.specs.declared.shape.Shape.TheVariants.{Prefix, Canonical};
ghost use Rattle.cp_write.specs.Writing.{style_of, shape_of, text_by, text_at, tail_text_by, enclosed, is_parenthesized, arity_in, Fits, Continues, Reaches, Passes};

use crate::frame::Frame;
use crate::names::{put_functor, put_name, put_operator};
use crate::output::{put, put_integer, put_variable};
use crate::place::Place;
use crate::shape::Shape;
use crate::style::Style;
use cp_ops::{Fix, OpTable};
use cp_term::{Cell, Name};
use std::alloc::{AllocError, Global};

/// The text of a term so far, with the place of the next cell's term and what is to be written behind it.
#[derive(Drop)]
pub(crate) struct Writer<'a> {
    pub(crate) out: Vec<u8>,
    pub(crate) frames: Vec<Frame<'a>>,
    pub(crate) place: Place,
}

impl<'a> Writer<'a> {
    pub(crate) fn new(alloc: Global) -> Self
        ensures out { result.out.items ≡ [] }
        ensures frames { result.frames.items ≡ [] }
        ensures place { result.place ≡ Whole }
    {
        Writer {
            out: Vec::new(alloc),
            frames: Vec::new(alloc),
            place: Place::Whole,
        }
    }

    /// Writes what a cell begins, up to the place of the next cell's term.
    pub(crate) fn write(
        &mut self,
        style: Style,
        ops: &OpTable,
        cell: &'a Cell,
    ) -> Result<(), AllocError>
        requires place { self.old.place ≢ Nothing }
        requires arity { has_arity cell.now ≡ true }
        ensures { OnOk result (Continues (style_of style) (arity_of cell.now) (text_at (style_of style) cell.now (shape_of ops.now cell.now) self.old.place) self.old.out.items self.old.frames.items self.new.out.items self.new.frames.items self.new.place) }
    {
        let shape = Shape::of(ops, cell);
        match self.place {
            Place::Tail => self.write_tail(style, cell, shape),
            Place::Nothing
            | Place::Whole
            | Place::Within(_)
            | Place::Operand(_)
            | Place::Left(_, _) => {
                let in_parentheses = self.place.is_parenthesized(shape);
                self.write_term(style, cell, shape, in_parentheses)
            }
        }
    }

    /// Writes what a cell of this shape begins behind an element of a list.
    fn write_tail(&mut self, style: Style, cell: &'a Cell, shape: Shape) -> Result<(), AllocError>
        requires { Fits shape cell.now }
        ensures { OnOk result (Continues (style_of style) (arity_of cell.now) (tail_text_by (style_of style) cell.now shape) self.old.out.items self.old.frames.items self.new.out.items self.new.frames.items self.new.place) }
    {
        if shape.is_element() {
            put(&mut self.out, b",".as_slice())?;
            self.expect(Frame::Tail, Place::Within(999))?;
            return Ok(());
        }
        if shape.is_no_elements() {
            put(&mut self.out, b"]".as_slice())?;
            self.settle(style)?;
            return Ok(());
        }
        put(&mut self.out, b"|".as_slice())?;
        self.frames.push(Frame::Close(b']'))?;
        self.write_term(style, cell, shape, 999 < shape.priority())?;
        Ok(())
    }

    /// Writes what a cell of this shape begins, in parentheses or without.
    fn write_term(
        &mut self,
        style: Style,
        cell: &'a Cell,
        shape: Shape,
        in_parentheses: bool,
    ) -> Result<(), AllocError>
        requires { Fits shape cell.now }
        ensures { OnOk result (Continues (style_of style) (arity_of cell.now) (λ ts. enclosed in_parentheses (text_by (style_of style) cell.now shape ts)) self.old.out.items self.old.frames.items self.new.out.items self.new.frames.items self.new.place) }
    {
        if in_parentheses {
            put(&mut self.out, b"(".as_slice())?;
            self.frames.push(Frame::Close(b')'))?;
            self.write_bare(style, cell, shape)?;
            return Ok(());
        }
        self.write_bare(style, cell, shape)?;
        Ok(())
    }

    /// Writes what a cell of this shape begins, without parentheses.
    fn write_bare(&mut self, style: Style, cell: &'a Cell, shape: Shape) -> Result<(), AllocError>
        requires { Fits shape cell.now }
        ensures { OnOk result (Continues (style_of style) (arity_of cell.now) (text_by (style_of style) cell.now shape) self.old.out.items self.old.frames.items self.new.out.items self.new.frames.items self.new.place) }
    {
        match cell {
            Cell::Var(number) => {
                put_variable(&mut self.out, *number)?;
                self.settle(style)?;
                Ok(())
            }
            Cell::Int(value) => {
                put_integer(&mut self.out, *value)?;
                self.settle(style)?;
                Ok(())
            }
            Cell::Atom(name) => {
                put_name(&mut self.out, style, name.bytes())?;
                self.settle(style)?;
                Ok(())
            }
            Cell::Func(name, _) => self.write_compound(style, name, shape),
        }
    }

    /// Writes what a functor of this shape begins.
    fn write_compound(
        &mut self,
        style: Style,
        name: &'a Name,
        shape: Shape,
    ) -> Result<(), AllocError>
        requires { 0 < arity_in shape }
        ensures { OnOk result (Continues (style_of style) (arity_in shape) (text_by (style_of style) (Func name.now (arity_in shape)) shape) self.old.out.items self.old.frames.items self.new.out.items self.new.frames.items self.new.place) }
    {
        match shape {
            Shape::Leaf | Shape::OperatorAtom | Shape::NoElements => unreachable!(),
            Shape::Element => {
                put(&mut self.out, b"[".as_slice())?;
                self.expect(Frame::Tail, Place::Within(999))?;
                Ok(())
            }
            Shape::Braces => {
                put(&mut self.out, b"{".as_slice())?;
                self.expect(Frame::Close(b'}'), Place::Within(1200))?;
                Ok(())
            }
            Shape::Prefix(priority, fix) => self.write_prefix(style, name, priority, fix),
            Shape::Infix(priority, fix) => {
                let operator = Frame::Operator(name, priority, fix);
                self.expect(operator, Place::Left(priority, fix))?;
                Ok(())
            }
            Shape::Canonical(arity) => self.write_canonical(style, name, arity),
        }
    }

    /// Writes a prefix operator.
    fn write_prefix(
        &mut self,
        style: Style,
        name: &Name,
        priority: u16,
        fix: Fix,
    ) -> Result<(), AllocError>
        ensures { OnOk result (Continues (style_of style) 1 (text_by (style_of style) (Func name.now 1) (Prefix priority fix)) self.old.out.items self.old.frames.items self.new.out.items self.new.frames.items self.new.place) }
    {
        put_name(&mut self.out, style, name.bytes())?;
        put(&mut self.out, b" ".as_slice())?;
        self.place = Place::Operand(fix.right_of(priority));
        Ok(())
    }

    /// Writes a name before arguments in parentheses.
    fn write_canonical(&mut self, style: Style, name: &Name, arity: u16) -> Result<(), AllocError>
        requires { 0 < arity }
        ensures { OnOk result (Continues (style_of style) arity (text_by (style_of style) (Func name.now arity) (Canonical arity)) self.old.out.items self.old.frames.items self.new.out.items self.new.frames.items self.new.place) }
    {
        put_functor(&mut self.out, style, name.bytes())?;
        put(&mut self.out, b"(".as_slice())?;
        self.expect(Frame::Arguments(arity - 1), Place::Within(999))?;
        Ok(())
    }

    /// Leaves a frame for what stands behind the next term.
    fn expect(&mut self, frame: Frame<'a>, place: Place) -> Result<(), AllocError>
        ensures out { OnOk result (self.new.out.items ≡ self.old.out.items) }
        ensures frames { OnOk result (self.new.frames.items ≡ self.old.frames.items ++ frame.entry ∷ []) }
        ensures place { OnOk result (self.new.place ≡ place) }
    {
        self.frames.push(frame)?;
        self.place = place;
        Ok(())
    }

    /// Goes on behind a finished term: writes what it ends, up to the place of the next term.
    fn settle(&mut self, style: Style) -> Result<(), AllocError>
        ensures { OnOk result (Continues (style_of style) 0 (λ ts. []) self.old.out.items self.old.frames.items self.new.out.items self.new.frames.items self.new.place) }
    {
        while let Some(frame) = self.frames.pop() {
            if self.resume(style, frame)? {
                return Ok(());
            }
        }
        self.place = Place::Nothing;
        Ok(())
    }

    /// Writes what a frame says behind a finished term, and answers whether another term is to come for it.
    fn resume(&mut self, style: Style, frame: Frame<'a>) -> Result<bool, AllocError>
        ensures reached { IfOk result (λ reached. reached ≡ true → Reaches (style_of style) frame.entry self.old.out.items self.old.frames.items self.new.out.items self.new.frames.items self.new.place) }
        ensures passed { IfOk result (λ reached. reached ≡ false → Passes (style_of style) frame.entry self.old.out.items self.old.frames.items self.new.out.items self.new.frames.items) }
    {
        match frame {
            Frame::Close(byte) => {
                put(&mut self.out, &[byte])?;
                Ok(false)
            }
            Frame::Operator(name, priority, fix) => {
                put_operator(&mut self.out, style, name.bytes())?;
                self.place = Place::Operand(fix.right_of(priority));
                Ok(true)
            }
            Frame::Arguments(more) => {
                if more == 0 {
                    put(&mut self.out, b")".as_slice())?;
                    return Ok(false);
                }
                put(&mut self.out, b",".as_slice())?;
                self.expect(Frame::Arguments(more - 1), Place::Within(999))?;
                Ok(true)
            }
            Frame::Tail => {
                self.place = Place::Tail;
                Ok(true)
            }
        }
    }
}
