ghost use Rattle.std.specs.Prelude.{◌≡◌, ◌≤◌, drop};
ghost use Rattle.std.specs.Option.{option_copied};
ghost use Rattle.cp_code.specs.Clauses.{is_rule, head_of, first_argument, can_match, may_unify};

use cp_list::ListOf;
use cp_term::{Cell, Name, Term};

/// A clause `H :- B`, whose goals are written `M:G` as they are resolved, or a fact H.
#[derive(Debug, Drop)]
pub struct Clause {
    pub whole: Term,
    /// The module in whose file it stands.
    pub module: Name,
    /// The line of its first token, counted from 1.
    pub line: u32,
}

/// The clauses of one predicate, in textual order.
pub type Clauses = ListOf<Clause>;

impl Clause {
    /// The first cell of the first argument of its head, if the head has arguments.
    pub fn first_argument(&self) -> Option<&Cell>
        ensures { option_copied result ≡ first_argument (head_of self.now.whole) }
    {
        let _cells = self.whole.cells();
        if self.is_rule() {
            argument_from(&self.whole, 1)
        } else {
            argument_from(&self.whole, 0)
        }
    }

    /// Whether the first argument of its head can match one that begins with this cell.
    pub(crate) fn can_match(&self, first: Option<&Cell>) -> bool
        ensures { result ≡ can_match (option_copied first.entry) (first_argument (head_of self.now.whole)) }
    {
        match (first, self.first_argument()) {
            (Some(first), Some(own)) => same_or_unbound(first, own),
            _ => true,
        }
    }

    /// Whether it is `H :- B`, and not a fact.
    pub fn is_rule(&self) -> bool
        ensures { result ≡ is_rule self.now.whole }
    {
        match self.whole.cell(0) {
            Some(Cell::Func(name, arity)) => name.bytes() == b":-".as_slice() && *arity == 2,
            _ => false,
        }
    }
}

/// The first cell of the first argument of the compound that begins at this place, if it is one.
fn argument_from(term: &Term, at: u32) -> Option<&Cell>
    requires { at ≤ 1 }
    ensures { option_copied result ≡ first_argument (drop at term.now) }
{
    match term.cell(at) {
        Some(Cell::Func(_, _)) => term.cell(at + 1),
        _ => None,
    }
}

/// Whether terms that begin with these cells may unify.
fn same_or_unbound(first: &Cell, own: &Cell) -> bool
    ensures { result ≡ may_unify first.now own.now }
{
    match (first, own) {
        (Cell::Var(_), _) | (_, Cell::Var(_)) => true,
        _ => first == own,
    }
}
