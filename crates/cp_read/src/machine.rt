ghost use Rattle.std.specs.Prelude.{◌≡◌, true, false, ℕ, pos, List, [], ◌∷◌, ◌++◌, length, slice_set, slice_index_or, drop, Ok, Err, IfOk, OnOk, IfErr, Some, codes};
ghost use Rattle.std.specs.Str.{chars};
ghost use Rattle.cp_term.specs.declared.cell.Cell.TheVariants.{Var, Int, Func};
ghost use Rattle.cp_ops.specs.Operators.{Ops};
ghost use Rattle.cp_read.specs.declared.look.Look.TheVariants as looks;
ghost use Rattle.cp_read.specs.Look.{IsFront};
ghost use Rattle.cp_read.specs.declared.frame.Turn.TheVariants as turns;
ghost use Rattle.cp_read.specs.declared.frame.Stop.TheVariants as stops;
ghost use Rattle.cp_read.specs.Drafts.{cell_seen, code_pieces};
ghost use Rattle.cp_read.specs.Lexemes.{lexemes};
ghost use Rattle.cp_read.specs.Grammar as grammar;
ghost use Rattle.cp_read.specs.SeenNames.{nothing_seen, number_of, seen_with};
ghost use Rattle.cp_read.specs.declared.frame.Construct.TheVariants as constructs;
ghost use Rattle.cp_read.specs.Machine.{State};
ghost use Rattle.cp_read.specs.Stands.{IsFresh, Gives, IsState, IsPlain, IsEnded, IsEnding, IsClosing, Steps, Refuses};

use crate::behind::{
    Behind, behind_argument, behind_element, closes, closes_braces, closes_list, ends_clause,
};
use crate::draft::{Draft, DraftCell};
use crate::error::SyntaxWhy;
use crate::frame::{Construct, Frame, Stop, Turn};
use crate::look::{Look, behind, look_at, negative_at, positive};
use crate::operators::{
    ARGUMENT, Infix, Prefix, admitted, begins_operand, infix_at, is_call, prefix_within,
};
use crate::variables::Variables;
use cp_lex::Token;
use cp_ops::OpTable;
use std::alloc::Global;
use std::marker::Model;

/// The priority of a clause, and of what stands in parentheses and braces.
const CLAUSE: u16 = 1200;

/// Reads one clause. The constructs that are open are kept in a list, so that no depth of them needs a deep stack.
#[derive(Drop)]
pub(crate) struct Machine<'a> {
    tokens: &'a [Token],
    variables: Variables<'a>,
    draft: Draft<'a>,
    frames: Vec<Frame<'a>>,
}

impl<'a> Model for Machine<'a> {
    ghost use Rattle.cp_read.specs.Progress.{Progress};

    ghost Value = { Progress };

    ghost view = { λ m. record { tokens = m.tokens.now; seen = m.variables; pieces = m.draft; frames = m.frames.items } };
}

impl<'a> Machine<'a> {
    pub(crate) fn new(alloc: Global, tokens: &'a [Token]) -> Self
        ensures { result ≡ record { tokens = tokens.entry.now; seen = nothing_seen; pieces = []; frames = [] } }
    {
        Machine {
            tokens,
            variables: Variables::new(alloc),
            draft: Draft::new(alloc),
            frames: Vec::new(alloc),
        }
    }

    /// How many tokens are left.
    pub(crate) fn left(&self) -> usize
        ensures { result ≡ length self.now.tokens }
    {
        self.tokens.len()
    }

    /// The cells that were read.
    pub(crate) fn into_draft(self) -> Draft<'a>
        ensures { result ≡ self.entry.pieces }
    {
        self.draft
    }

    /// Reads the clause.
    pub(crate) fn run(&mut self, ops: &OpTable) -> Result<(), Stop>
        requires { IsFresh self.old }
        ensures { Gives ops.now self.old.tokens result self.new }
    {
        let mut turn = Turn::Expects { max: CLAUSE };
        loop {
            match turn {
                Turn::Ended => return Ok(()),
                Turn::Expects { max } => match self.operand(ops, max) {
                    Ok(next) => turn = next,
                    Err(stop) => return Err(stop),
                },
                Turn::Has {
                    start,
                    priority,
                    max,
                } => match self.go_on(ops, start, priority, max) {
                    Ok(next) => turn = next,
                    Err(stop) => return Err(stop),
                },
            }
        }
    }

    /// The first operand of a term, or the whole term.
    fn operand(&mut self, ops: &OpTable, max: u16) -> Result<Turn, Stop>
        ensures { (s : State) → IsState (turns.Expects max) self.old s → Steps ops.now s result self.new }
    {
        let tokens = self.tokens;
        match look_at(tokens) {
            None => self.unexpected(),
            Some(look) => self.operand_by(ops, look, max),
        }
    }

    /// The operand that begins with a token that was taken for this.
    fn operand_by(&mut self, ops: &OpTable, look: Look<'a>, max: u16) -> Result<Turn, Stop>
        ensures { (s : State) → IsFront (Some look.entry) self.old.tokens → IsState (turns.Expects max) self.old s → Steps ops.now s result self.new }
    {
        match look {
            Look::Variable(name) => self.variable(name, max),
            Look::Text(bytes) => self.text(bytes, max),
            Look::Number(value) => self.number(value, max),
            Look::Word(name) => self.word(ops, name, max),
            Look::CallOpens => self.parentheses(max),
            Look::Opens => self.parentheses(max),
            Look::ListOpens => self.list(max),
            Look::BracesOpen => self.braces(max),
            Look::Closes => self.unexpected(),
            Look::ListCloses => self.unexpected(),
            Look::BracesClose => self.unexpected(),
            Look::Comma => self.unexpected(),
            Look::Bar => self.unexpected(),
            Look::ClauseEnds => self.unexpected(),
            Look::Stray => self.unexpected(),
        }
    }

    fn variable(&mut self, name: &'a [u8], max: u16) -> Result<Turn, Stop>
        ensures turn { IfOk result (λ t. t ≡ turns.Has (length self.old.pieces) 0 max) }
        ensures ok { OnOk result (self.new ≡ record { tokens = drop 1 self.old.tokens; seen = seen_with self.old.seen name.entry.now; pieces = self.old.pieces ++ (Var (number_of self.old.seen name.entry.now) ∷ []) ∷ []; frames = self.old.frames }) }
        ensures err { IfErr result (λ e. e ≡ stops.NoMemory) }
    {
        match self.variables.number(name) {
            Ok(number) => {
                let rest = behind(self.tokens);
                self.primary(DraftCell::Var(number), rest, max)
            }
            Err(_) => Err(Stop::NoMemory),
        }
    }

    /// A number of 2 ^ 63 stands behind a sign alone.
    fn number(&mut self, value: u64, max: u16) -> Result<Turn, Stop>
        ensures { (ops : Ops) (s : State) → IsFront (Some (looks.Number value)) self.old.tokens → IsState (turns.Expects max) self.old s → Steps ops s result self.new }
    {
        if value < 1 << 63 {
            let rest = behind(self.tokens);
            self.integer(positive(value), rest, max)
        } else {
            self.unexpected()
        }
    }

    fn integer(&mut self, value: i64, rest: &'a [Token], max: u16) -> Result<Turn, Stop>
        ensures turn { IfOk result (λ t. t ≡ turns.Has (length self.old.pieces) 0 max) }
        ensures ok { OnOk result (self.new ≡ record self.old { tokens = rest.entry.now; pieces = self.old.pieces ++ (Int value ∷ []) ∷ [] }) }
        ensures err { IfErr result (λ e. e ≡ stops.NoMemory) }
    {
        self.primary(DraftCell::Int(value), rest, max)
    }

    /// A text is the list of its character codes.
    fn text(&mut self, bytes: &'a [u8], max: u16) -> Result<Turn, Stop>
        ensures { (ops : Ops) (s : State) → IsFront (Some (looks.Text bytes.entry)) self.old.tokens → IsState (turns.Expects max) self.old s → Steps ops s result self.new }
    {
        match str::from_utf8(bytes) {
            Ok(text) => self.code_list(text, max),
            Err(_) => self.unexpected(),
        }
    }

    fn code_list(&mut self, text: &str, max: u16) -> Result<Turn, Stop>
        ensures turn { IfOk result (λ t. t ≡ turns.Has (length self.old.pieces) 0 max) }
        ensures ok { OnOk result (self.new ≡ record self.old { tokens = drop 1 self.old.tokens; pieces = (self.old.pieces ++ code_pieces (chars text.now)) ++ (grammar.empty_list ∷ []) ∷ [] }) }
        ensures err { IfErr result (λ e. e ≡ stops.NoMemory) }
    {
        let start = self.draft.len();
        self.codes(text)?;
        self.push(DraftCell::Atom(b"[]".as_slice()))?;
        self.tokens = behind(self.tokens);
        Ok(has(start, max))
    }

    fn codes(&mut self, text: &str) -> Result<(), Stop>
        ensures ok { OnOk result (self.new ≡ record self.old { pieces = self.old.pieces ++ code_pieces (chars text.now) }) }
        ensures err { IfErr result (λ e. e ≡ stops.NoMemory) }
    {
        for character in text.chars() {
            self.code(character)?;
        }
        Ok(())
    }

    fn code(&mut self, character: char) -> Result<(), Stop>
        ensures ok { OnOk result (self.new ≡ record self.old { pieces = self.old.pieces ++ (grammar.list_cell ∷ []) ∷ (Int (pos character) ∷ []) ∷ [] }) }
        ensures err { IfErr result (λ e. e ≡ stops.NoMemory) }
    {
        self.push(DraftCell::Func(b".".as_slice(), 2))?;
        self.push(DraftCell::Int(character as i64))
    }

    fn parentheses(&mut self, max: u16) -> Result<Turn, Stop>
        ensures turn { IfOk result (λ t. t ≡ turns.Expects 1200) }
        ensures ok { OnOk result (self.new ≡ record self.old { tokens = drop 1 self.old.tokens; frames = self.old.frames ++ record { construct = constructs.Parentheses; start = length self.old.pieces; max = max } ∷ [] }) }
        ensures err { IfErr result (λ e. e ≡ stops.NoMemory) }
    {
        self.tokens = behind(self.tokens);
        let start = self.draft.len();
        self.open(Construct::Parentheses, start, max, CLAUSE)
    }

    fn word(&mut self, ops: &OpTable, name: &'a [u8], max: u16) -> Result<Turn, Stop>
        ensures { (s : State) → IsFront (Some (looks.Word name.entry)) self.old.tokens → IsState (turns.Expects max) self.old s → Steps ops.now s result self.new }
    {
        let rest = behind(self.tokens);
        if is_call(rest) {
            self.call(name, max)
        } else {
            match negative_at(self.tokens) {
                Some(value) => {
                    let more = behind(rest);
                    self.integer(value, more, max)
                }
                None => self.plain_word(ops, name, max),
            }
        }
    }

    fn call(&mut self, name: &'a [u8], max: u16) -> Result<Turn, Stop>
        ensures turn { IfOk result (λ t. t ≡ turns.Expects 999) }
        ensures ok { OnOk result (self.new ≡ record self.old { tokens = drop 1 (drop 1 self.old.tokens); pieces = self.old.pieces ++ (Func name.entry.now 0 ∷ []) ∷ []; frames = self.old.frames ++ record { construct = constructs.Arguments name.entry 0; start = length self.old.pieces; max = max } ∷ [] }) }
        ensures err { IfErr result (λ e. e ≡ stops.NoMemory) }
    {
        let start = self.draft.len();
        self.push(DraftCell::Func(name, 0))?;
        let rest = behind(self.tokens);
        self.tokens = behind(rest);
        self.open(
            Construct::Arguments { name, before: 0 },
            start,
            max,
            ARGUMENT,
        )
    }

    /// A prefix operator, where its operand follows, or else an atom.
    fn plain_word(&mut self, ops: &OpTable, name: &'a [u8], max: u16) -> Result<Turn, Stop>
        ensures { (s : State) → IsFront (Some (looks.Word name.entry)) self.old.tokens → IsPlain self.old.tokens → IsState (turns.Expects max) self.old s → Steps ops.now s result self.new }
    {
        let rest = behind(self.tokens);
        match prefix_within(ops, max, name) {
            None => self.primary(DraftCell::Atom(name), rest, max),
            Some(op) => {
                if begins_operand(rest, ops, op.right) {
                    self.prefix(op, name, max)
                } else {
                    self.primary(DraftCell::Atom(name), rest, max)
                }
            }
        }
    }

    fn prefix(&mut self, op: Prefix, name: &'a [u8], max: u16) -> Result<Turn, Stop>
        ensures turn { IfOk result (λ t. t ≡ turns.Expects op.right) }
        ensures ok { OnOk result (self.new ≡ record self.old { tokens = drop 1 self.old.tokens; pieces = self.old.pieces ++ (Func name.entry.now 1 ∷ []) ∷ []; frames = self.old.frames ++ record { construct = constructs.Operand op.priority; start = length self.old.pieces; max = max } ∷ [] }) }
        ensures err { IfErr result (λ e. e ≡ stops.NoMemory) }
    {
        let start = self.draft.len();
        self.push(DraftCell::Func(name, 1))?;
        self.tokens = behind(self.tokens);
        self.open(
            Construct::Operand {
                priority: op.priority,
            },
            start,
            max,
            op.right,
        )
    }

    fn list(&mut self, max: u16) -> Result<Turn, Stop>
        ensures { (ops : Ops) (s : State) → IsFront (Some looks.ListOpens) self.old.tokens → IsState (turns.Expects max) self.old s → Steps ops s result self.new }
    {
        let rest = behind(self.tokens);
        if closes_list(rest) {
            let more = behind(rest);
            self.primary(DraftCell::Atom(b"[]".as_slice()), more, max)
        } else {
            self.begin_list(max)
        }
    }

    fn begin_list(&mut self, max: u16) -> Result<Turn, Stop>
        ensures turn { IfOk result (λ t. t ≡ turns.Expects 999) }
        ensures ok { OnOk result (self.new ≡ record self.old { tokens = drop 1 self.old.tokens; pieces = self.old.pieces ++ (grammar.list_cell ∷ []) ∷ []; frames = self.old.frames ++ record { construct = constructs.Elements; start = length self.old.pieces; max = max } ∷ [] }) }
        ensures err { IfErr result (λ e. e ≡ stops.NoMemory) }
    {
        let start = self.draft.len();
        self.push(DraftCell::Func(b".".as_slice(), 2))?;
        self.tokens = behind(self.tokens);
        self.open(Construct::Elements, start, max, ARGUMENT)
    }

    fn braces(&mut self, max: u16) -> Result<Turn, Stop>
        ensures { (ops : Ops) (s : State) → IsFront (Some looks.BracesOpen) self.old.tokens → IsState (turns.Expects max) self.old s → Steps ops s result self.new }
    {
        let rest = behind(self.tokens);
        if closes_braces(rest) {
            let more = behind(rest);
            self.primary(DraftCell::Atom(b"{}".as_slice()), more, max)
        } else {
            self.begin_braces(max)
        }
    }

    fn begin_braces(&mut self, max: u16) -> Result<Turn, Stop>
        ensures turn { IfOk result (λ t. t ≡ turns.Expects 1200) }
        ensures ok { OnOk result (self.new ≡ record self.old { tokens = drop 1 self.old.tokens; pieces = self.old.pieces ++ (Func (codes "{}") 1 ∷ []) ∷ []; frames = self.old.frames ++ record { construct = constructs.Braces; start = length self.old.pieces; max = max } ∷ [] }) }
        ensures err { IfErr result (λ e. e ≡ stops.NoMemory) }
    {
        let start = self.draft.len();
        self.push(DraftCell::Func(b"{}".as_slice(), 1))?;
        self.tokens = behind(self.tokens);
        self.open(Construct::Braces, start, max, CLAUSE)
    }

    /// Goes on from a term: an infix operator takes it in, or the construct in which it stands does.
    fn go_on(&mut self, ops: &OpTable, start: usize, priority: u16, max: u16) -> Result<Turn, Stop>
        ensures { (s : State) → IsState (turns.Has start priority max) self.old s → Steps ops.now s result self.new }
    {
        match admitted(self.tokens, ops, max, priority) {
            Some(op) => self.infix(op, start, max),
            None => self.term_ends(ops),
        }
    }

    /// The term is the left operand of an infix operator.
    fn infix(&mut self, op: Infix<'a>, start: usize, max: u16) -> Result<Turn, Stop>
        ensures turn { IfOk result (λ t. t ≡ turns.Expects op.entry.right) }
        ensures ok { OnOk result (self.new ≡ record self.old { tokens = drop 1 self.old.tokens; pieces = slice_set self.old.pieces start (Func op.entry.name.now 2 ∷ slice_index_or self.old.pieces start []); frames = self.old.frames ++ record { construct = constructs.Operand op.entry.priority; start = start; max = max } ∷ [] }) }
        ensures err { IfErr result (λ e. e ≡ stops.NoMemory) }
    {
        if self.draft.take_left(start, op.name).is_err() {
            return Err(Stop::NoMemory);
        }
        self.tokens = behind(self.tokens);
        self.open(
            Construct::Operand {
                priority: op.priority,
            },
            start,
            max,
            op.right,
        )
    }

    /// No infix operator takes the term in.
    fn term_ends(&mut self, ops: &OpTable) -> Result<Turn, Stop>
        ensures { (s : State) → IsEnded ops.now self.old s → Steps ops.now s result self.new }
    {
        match self.frames.pop() {
            None => self.end(ops),
            Some(frame) => self.close(ops, frame),
        }
    }

    fn end(&mut self, ops: &OpTable) -> Result<Turn, Stop>
        ensures { (s : State) → IsEnding ops.now self.old s → Steps ops.now s result self.new }
    {
        let ends = ends_clause(self.tokens);
        self.end_by(ops, ends)
    }

    /// The full stop follows, or is missing.
    fn end_by(&mut self, ops: &OpTable, ends: bool) -> Result<Turn, Stop>
        ensures yes { ends ≡ true → (result ≡ Ok turns.Ended) × (self.new ≡ record self.old { tokens = drop 1 self.old.tokens }) }
        ensures no { (list : List (List ℕ)) → ends ≡ false → Refuses result (grammar.refused ops.now (lexemes list self.old.tokens)) (lexemes list self.new.tokens) }
    {
        if ends {
            self.tokens = behind(self.tokens);
            Ok(Turn::Ended)
        } else {
            self.refused(ops)
        }
    }

    /// The term inside a construct has come.
    fn close(&mut self, ops: &OpTable, frame: Frame<'a>) -> Result<Turn, Stop>
        ensures { (s : State) → IsClosing ops.now frame.entry.construct frame.entry.start frame.entry.max self.old s → Steps ops.now s result self.new }
    {
        match frame.construct {
            Construct::Operand { priority } => Ok(Turn::Has {
                start: frame.start,
                priority,
                max: frame.max,
            }),
            Construct::Parentheses => {
                let closes = closes(self.tokens);
                self.close_by(ops, frame, closes)
            }
            Construct::Braces => {
                let closes = closes_braces(self.tokens);
                self.close_by(ops, frame, closes)
            }
            Construct::Tail => {
                let closes = closes_list(self.tokens);
                self.close_by(ops, frame, closes)
            }
            Construct::Arguments { name, before } => self.argument(ops, frame, name, before),
            Construct::Elements => self.element(ops, frame),
        }
    }

    /// The closing sign follows, or is missing.
    fn close_by(&mut self, ops: &OpTable, frame: Frame<'a>, closes: bool) -> Result<Turn, Stop>
        ensures yes { closes ≡ true → (result ≡ Ok (turns.Has frame.entry.start 0 frame.entry.max)) × (self.new ≡ record self.old { tokens = drop 1 self.old.tokens }) }
        ensures no { (list : List (List ℕ)) → closes ≡ false → Refuses result (grammar.refused ops.now (lexemes list self.old.tokens)) (lexemes list self.new.tokens) }
    {
        if closes {
            self.closed(frame)
        } else {
            self.refused(ops)
        }
    }

    fn argument(
        &mut self,
        ops: &OpTable,
        frame: Frame<'a>,
        name: &'a [u8],
        before: usize,
    ) -> Result<Turn, Stop>
        ensures { (s : State) → IsClosing ops.now (constructs.Arguments name.entry before) frame.entry.start frame.entry.max self.old s → Steps ops.now s result self.new }
    {
        let Some(count) = before.checked_add(1) else {
            return Err(Stop::NoMemory);
        };
        match behind_argument(self.tokens) {
            Behind::Closes => self.arguments_end(frame, name, count),
            Behind::Comma => self.next_argument(frame, name, count),
            Behind::Bar => self.refused(ops),
            Behind::Other => self.refused(ops),
        }
    }

    fn arguments_end(
        &mut self,
        frame: Frame<'a>,
        name: &'a [u8],
        count: usize,
    ) -> Result<Turn, Stop>
        ensures turn { IfOk result (λ t. t ≡ turns.Has frame.entry.start 0 frame.entry.max) }
        ensures ok { OnOk result (self.new ≡ record self.old { tokens = drop 1 self.old.tokens; pieces = slice_set self.old.pieces frame.entry.start (Func name.entry.now count ∷ []) }) }
        ensures err { IfErr result (λ e. e ≡ stops.NoMemory) }
    {
        self.draft.set(frame.start, DraftCell::Func(name, count));
        self.closed(frame)
    }

    fn next_argument(
        &mut self,
        frame: Frame<'a>,
        name: &'a [u8],
        count: usize,
    ) -> Result<Turn, Stop>
        ensures turn { IfOk result (λ t. t ≡ turns.Expects 999) }
        ensures ok { OnOk result (self.new ≡ record self.old { tokens = drop 1 self.old.tokens; frames = self.old.frames ++ record { construct = constructs.Arguments name.entry count; start = frame.entry.start; max = frame.entry.max } ∷ [] }) }
        ensures err { IfErr result (λ e. e ≡ stops.NoMemory) }
    {
        self.tokens = behind(self.tokens);
        self.open(
            Construct::Arguments {
                name,
                before: count,
            },
            frame.start,
            frame.max,
            ARGUMENT,
        )
    }

    fn element(&mut self, ops: &OpTable, frame: Frame<'a>) -> Result<Turn, Stop>
        ensures { (s : State) → IsClosing ops.now constructs.Elements frame.entry.start frame.entry.max self.old s → Steps ops.now s result self.new }
    {
        match behind_element(self.tokens) {
            Behind::Closes => self.list_end(frame),
            Behind::Comma => self.next_element(frame),
            Behind::Bar => self.list_tail(frame),
            Behind::Other => self.refused(ops),
        }
    }

    fn list_end(&mut self, frame: Frame<'a>) -> Result<Turn, Stop>
        ensures turn { IfOk result (λ t. t ≡ turns.Has frame.entry.start 0 frame.entry.max) }
        ensures ok { OnOk result (self.new ≡ record self.old { tokens = drop 1 self.old.tokens; pieces = self.old.pieces ++ (grammar.empty_list ∷ []) ∷ [] }) }
        ensures err { IfErr result (λ e. e ≡ stops.NoMemory) }
    {
        self.push(DraftCell::Atom(b"[]".as_slice()))?;
        self.closed(frame)
    }

    fn next_element(&mut self, frame: Frame<'a>) -> Result<Turn, Stop>
        ensures turn { IfOk result (λ t. t ≡ turns.Expects 999) }
        ensures ok { OnOk result (self.new ≡ record self.old { tokens = drop 1 self.old.tokens; pieces = self.old.pieces ++ (grammar.list_cell ∷ []) ∷ []; frames = self.old.frames ++ record { construct = constructs.Elements; start = frame.entry.start; max = frame.entry.max } ∷ [] }) }
        ensures err { IfErr result (λ e. e ≡ stops.NoMemory) }
    {
        self.push(DraftCell::Func(b".".as_slice(), 2))?;
        self.tokens = behind(self.tokens);
        self.open(Construct::Elements, frame.start, frame.max, ARGUMENT)
    }

    fn list_tail(&mut self, frame: Frame<'a>) -> Result<Turn, Stop>
        ensures turn { IfOk result (λ t. t ≡ turns.Expects 999) }
        ensures ok { OnOk result (self.new ≡ record self.old { tokens = drop 1 self.old.tokens; frames = self.old.frames ++ record { construct = constructs.Tail; start = frame.entry.start; max = frame.entry.max } ∷ [] }) }
        ensures err { IfErr result (λ e. e ≡ stops.NoMemory) }
    {
        self.tokens = behind(self.tokens);
        self.open(Construct::Tail, frame.start, frame.max, ARGUMENT)
    }

    /// A term of one cell, with these tokens behind it.
    fn primary(&mut self, cell: DraftCell<'a>, rest: &'a [Token], max: u16) -> Result<Turn, Stop>
        ensures turn { IfOk result (λ t. t ≡ turns.Has (length self.old.pieces) 0 max) }
        ensures ok { OnOk result (self.new ≡ record self.old { tokens = rest.entry.now; pieces = self.old.pieces ++ (cell_seen cell.entry ∷ []) ∷ [] }) }
        ensures err { IfErr result (λ e. e ≡ stops.NoMemory) }
    {
        let start = self.draft.len();
        self.push(cell)?;
        self.tokens = rest;
        Ok(has(start, max))
    }

    fn push(&mut self, cell: DraftCell<'a>) -> Result<(), Stop>
        ensures ok { OnOk result (self.new ≡ record self.old { pieces = self.old.pieces ++ (cell_seen cell.entry ∷ []) ∷ [] }) }
        ensures err { IfErr result (λ e. e ≡ stops.NoMemory) }
    {
        match self.draft.push(cell) {
            Ok(()) => Ok(()),
            Err(_) => Err(Stop::NoMemory),
        }
    }

    /// A construct begins, in which a term of at most the inner priority comes next.
    fn open(
        &mut self,
        construct: Construct<'a>,
        start: usize,
        max: u16,
        inner: u16,
    ) -> Result<Turn, Stop>
        ensures turn { IfOk result (λ t. t ≡ turns.Expects inner) }
        ensures ok { OnOk result (self.new ≡ record self.old { frames = self.old.frames ++ record { construct = construct.entry; start = start; max = max } ∷ [] }) }
        ensures err { IfErr result (λ e. e ≡ stops.NoMemory) }
    {
        match self.frames.push(Frame {
            construct,
            start,
            max,
        }) {
            Ok(()) => Ok(Turn::Expects { max: inner }),
            Err(_) => Err(Stop::NoMemory),
        }
    }

    /// The closing sign of a construct, which is a term of priority 0.
    fn closed(&mut self, frame: Frame<'a>) -> Result<Turn, Stop>
        ensures turn { result ≡ Ok (turns.Has frame.entry.start 0 frame.entry.max) }
        ensures machine { self.new ≡ record self.old { tokens = drop 1 self.old.tokens } }
    {
        self.tokens = behind(self.tokens);
        Ok(has(frame.start, frame.max))
    }

    /// The token cannot come where a term has ended.
    fn refused(&self, ops: &OpTable) -> Result<Turn, Stop>
        ensures { (list : List (List ℕ)) → Refuses result (grammar.refused ops.now (lexemes list self.now.tokens)) (lexemes list self.now.tokens) }
    {
        if infix_at(self.tokens, ops).is_some() {
            return Err(Stop::Fault(SyntaxWhy::Priority));
        }
        self.unexpected()
    }

    /// No term begins with the token.
    fn unexpected(&self) -> Result<Turn, Stop>
        ensures { (list : List (List ℕ)) → Refuses result (grammar.unexpected (lexemes list self.now.tokens)) (lexemes list self.now.tokens) }
    {
        match self.tokens.split_first() {
            None => Err(Stop::Fault(SyntaxWhy::NoFullStop)),
            Some(_) => Err(Stop::Fault(SyntaxWhy::UnexpectedToken)),
        }
    }
}

/// A term of priority 0.
fn has(start: usize, max: u16) -> Turn
    ensures { result ≡ turns.Has start 0 max }
{
    Turn::Has {
        start,
        priority: 0,
        max,
    }
}
