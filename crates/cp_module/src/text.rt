ghost use Rattle.std.specs.Prelude.{◌≡◌, ◌<◌, ◌-◌, ◌^◌, suc, length, IfOk};
ghost use Rattle.cp_module.specs.Texts.{text_of, clauses_from, fault_of, cut_short, nearer, lex_why, syntax_why};

use crate::cause::Cause;
use crate::operators::change_operators;
use crate::part::ReadClauses;
use crate::why::Why;
use cp_lex::{LexWhy, Refusal, Scan, Tokens, scan_text};
use cp_ops::OpTable;
use cp_read::{Bounds, ReadError, Reader, SyntaxWhy};
use std::alloc::{AllocError, Global};

/// The clauses of a text, its operators at its end, and what cannot be read, if something cannot.
#[derive(Drop)]
pub(crate) struct Text {
    pub(crate) clauses: ReadClauses,
    pub(crate) ops: OpTable,
    pub(crate) fault: Option<Cause>,
}

/// The most cells of a clause, and the most bytes of a name in it.
const BOUNDS: Bounds = Bounds {
    cells: 4096,
    name: 1024,
};

/// The text of a file.
#[tactic(auto, unfolding(crate::specs::Texts::text_of))]
pub(crate) fn text_of(alloc: Global, bytes: &[u8]) -> Result<Text, AllocError>
    requires { length bytes.now < 2 ^ 32 - 1 }
    ensures { IfOk result (λ text. text ≡ text_of bytes.now) }
{
    let Scan { tokens, refusal } = scan_text(alloc, bytes)?;
    let ops = OpTable::standard(alloc)?;
    let Text {
        clauses,
        ops,
        fault,
    } = clauses_from(alloc, tokens, ops)?;
    Ok(Text {
        clauses,
        ops,
        fault: fault_of(fault, refusal),
    })
}

/// The clauses of these tokens, each under the operators that stand when it is read.
fn clauses_from(alloc: Global, tokens: Tokens, mut ops: OpTable) -> Result<Text, AllocError>
    ensures { IfOk result (λ text. text ≡ clauses_from (suc (length tokens)) ops tokens) }
{
    let most = u64::from(tokens.len()) + 1;
    let mut reader = Reader::new(alloc, tokens, BOUNDS);
    let mut clauses = ReadClauses::new(alloc);
    'clauses: for turn in 0..most {
        match reader.next_clause(&ops) {
            Ok(Some(clause)) => {
                change_operators(alloc, &mut ops, &clause.term)?;
                clauses.push(clause)?;
            }
            Ok(None) => {
                return Ok(Text {
                    clauses,
                    ops,
                    fault: None,
                });
            }
            Err(ReadError::NoMemory) => return Err(AllocError),
            Err(ReadError::Syntax { line, why }) => {
                return Ok(Text {
                    clauses,
                    ops,
                    fault: Some(Cause {
                        line,
                        why: syntax_why(why),
                    }),
                });
            }
        }
    }
    Ok(Text {
        clauses,
        ops,
        fault: None,
    })
}

/// What cannot be read, where the tokens end at this refusal, if they do.
fn fault_of(fault: Option<Cause>, refusal: Option<Refusal>) -> Option<Cause>
    ensures { result ≡ fault_of fault refusal }
{
    let Some(refusal) = refusal else {
        return fault;
    };
    let lexical = Cause {
        line: refusal.line,
        why: lex_why(refusal.why),
    };
    match fault {
        Some(fault) => Some(cut_short(fault, lexical)),
        None => Some(lexical),
    }
}

/// The cause that counts of a fault of a clause and the refusal that ends the tokens. A clause that is cut short by it
/// is no fault of its own.
fn cut_short(fault: Cause, lexical: Cause) -> Cause
    ensures { result ≡ cut_short fault.why fault lexical }
{
    match fault.why {
        Why::NoFullStop => lexical,
        _ => nearer(fault, lexical),
    }
}

fn nearer(fault: Cause, lexical: Cause) -> Cause
    ensures { result ≡ nearer fault lexical }
{
    if fault.line < lexical.line {
        fault
    } else {
        lexical
    }
}

fn lex_why(why: LexWhy) -> Why
    ensures { result ≡ lex_why why }
{
    match why {
        LexWhy::BadUtf8 => Why::BadUtf8,
        LexWhy::OpenQuote => Why::OpenQuote,
        LexWhy::OpenComment => Why::OpenComment,
        LexWhy::BadEscape => Why::BadEscape,
        LexWhy::WideNumber => Why::WideNumber,
        LexWhy::Float => Why::Float,
        LexWhy::StrayByte => Why::StrayByte,
    }
}

fn syntax_why(why: SyntaxWhy) -> Why
    ensures { result ≡ syntax_why why }
{
    match why {
        SyntaxWhy::NoFullStop => Why::NoFullStop,
        SyntaxWhy::Priority => Why::Priority,
        SyntaxWhy::UnexpectedToken => Why::UnexpectedToken,
        SyntaxWhy::TooLarge => Why::TooLarge,
    }
}
