ghost use Rattle.std.specs.Prelude.{◌≡◌, ℕ, true, Some, List, drop, option_map};
ghost use Rattle.cp_read.specs.declared.look.Look.TheVariants as looks;
ghost use Rattle.cp_ops.specs.Operators.{left_of, right_of, look_up};
ghost use Rattle.cp_read.specs.Lexemes.{Lexeme, lexemes};
ghost use Rattle.cp_read.specs.Grammar as grammar;
ghost use Rattle.cp_read.specs.Look.{IsFront, prefix_seen, infix_seen};

use crate::look::{Look, behind, is_sign, look_at};
use cp_lex::Token;
use cp_ops::{Fix, OpTable};

/// An infix operator with the greatest priorities that it admits on its left and on its right.
#[derive(Clone, Copy, Drop)]
pub(crate) struct Infix<'a> {
    pub(crate) name: &'a [u8],
    pub(crate) priority: u16,
    pub(crate) left: u16,
    pub(crate) right: u16,
}

/// A prefix operator for one use: its priority here, and the greatest that its operand may have.
#[derive(Clone, Copy, Drop)]
pub(crate) struct Prefix {
    pub(crate) priority: u16,
    pub(crate) right: u16,
}

/// The priority of an argument, and of a prefix operator whose own is not allowed.
pub(crate) const ARGUMENT: u16 = 999;

fn left_of(priority: u16, fix: Fix) -> u16
    ensures { result ≡ left_of priority fix }
{
    match fix {
        Fix::Yfx => priority,
        Fix::Xfx | Fix::Xfy => priority.saturating_sub(1),
        Fix::Fy | Fix::Fx => 0,
    }
}

fn right_of(priority: u16, fix: Fix) -> u16
    ensures { result ≡ right_of priority fix }
{
    match fix {
        Fix::Xfy | Fix::Fy => priority,
        Fix::Xfx | Fix::Yfx | Fix::Fx => priority.saturating_sub(1),
    }
}

fn infix_named<'a>(ops: &OpTable, name: &'a [u8]) -> Option<Infix<'a>>
    ensures { (rest : List Lexeme) → option_map (infix_seen rest) result ≡ grammar.infix_by name.entry.now rest (look_up ops.entry.now.infixes name.entry.now) }
{
    match ops.infix_of(name) {
        None => None,
        Some((priority, fix)) => Some(Infix {
            name,
            priority,
            left: left_of(priority, fix),
            right: right_of(priority, fix),
        }),
    }
}

/// The infix operator that is the first token, if it is one.
pub(crate) fn infix_at<'a>(tokens: &'a [Token], ops: &OpTable) -> Option<Infix<'a>>
    ensures { (seen : List (List ℕ)) → option_map (infix_seen (lexemes seen (drop 1 tokens.entry.now))) result ≡ grammar.infix_at ops.entry.now (lexemes seen tokens.entry.now) }
{
    match look_at(tokens) {
        Some(Look::Word(name)) => infix_named(ops, name),
        Some(Look::Comma) => infix_named(ops, b",".as_slice()),
        _ => None,
    }
}

/// The infix operator that is the first token, where it and the term before it are admitted.
pub(crate) fn admitted<'a>(
    tokens: &'a [Token],
    ops: &OpTable,
    max: u16,
    priority: u16,
) -> Option<Infix<'a>>
    ensures { (seen : List (List ℕ)) → option_map (infix_seen (lexemes seen (drop 1 tokens.entry.now))) result ≡ grammar.admitted_by ops.entry.now max priority (grammar.infix_at ops.entry.now (lexemes seen tokens.entry.now)) }
{
    match infix_at(tokens, ops) {
        Some(op) => {
            if op.priority <= max && priority <= op.left {
                Some(op)
            } else {
                None
            }
        }
        None => None,
    }
}

/// The prefix operator with this name, as it is used where this priority is allowed.
pub(crate) fn prefix_within(ops: &OpTable, max: u16, name: &[u8]) -> Option<Prefix>
    ensures { option_map prefix_seen result ≡ grammar.prefix_by max (look_up ops.now.prefixes name.now) }
{
    match ops.prefix_of(name) {
        None => None,
        Some((priority, fix)) => {
            if max < priority {
                Some(Prefix {
                    priority: ARGUMENT,
                    right: ARGUMENT,
                })
            } else {
                Some(Prefix {
                    priority,
                    right: right_of(priority, fix),
                })
            }
        }
    }
}

/// Whether the operand of a prefix operator begins with the first token, which may have this priority.
pub(crate) fn begins_operand(tokens: &[Token], ops: &OpTable, max: u16) -> bool
    ensures { (seen : List (List ℕ)) → result ≡ grammar.begins_operand ops.now max (lexemes seen tokens.now) }
{
    match look_at(tokens) {
        Some(Look::Word(name)) => {
            is_sign(tokens)
                || is_call(behind(tokens))
                || ops.infix_of(name).is_none()
                || is_prefix_within(ops, max, name)
        }
        Some(
            Look::Variable(_)
            | Look::Text(_)
            | Look::Number(_)
            | Look::CallOpens
            | Look::Opens
            | Look::ListOpens
            | Look::BracesOpen,
        ) => true,
        _ => false,
    }
}

fn is_prefix_within(ops: &OpTable, max: u16, name: &[u8]) -> bool
    ensures { result ≡ grammar.is_prefix_within ops.now max (look_up ops.now.prefixes name.now) }
{
    match ops.prefix_of(name) {
        None => false,
        Some((priority, _)) => priority <= max,
    }
}

/// Whether the first token opens a call.
pub(crate) fn is_call(tokens: &[Token]) -> bool
    ensures call { (seen : List (List ℕ)) → result ≡ grammar.is_call (lexemes seen tokens.now) }
    ensures front { result ≡ true → IsFront (Some looks.CallOpens) tokens.now }
{
    match look_at(tokens) {
        Some(Look::CallOpens) => true,
        _ => false,
    }
}
