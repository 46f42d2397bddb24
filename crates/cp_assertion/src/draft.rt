ghost use Rattle.std.specs.Prelude.{◌≡◌, ◌<◌, ◌^◌, ℕ, List, length, is_some, IfOk, IfErr, MatchOption};
ghost use Rattle.std.specs.Option.{option_map};
ghost use Rattle.cp_code.specs.Programs.{prop_of};
ghost use Rattle.cp_code.specs.Properties.{Prop as PropOf};
ghost use Rattle.cp_assertion.specs.Names.{is_type_of};
ghost use Rattle.cp_assertion.specs.Formulas.{is_known, SpeaksOf};
ghost use Rattle.cp_assertion.specs.Assertions.{declared, drafted, drafted_form, form_of, formula_or_always, behind_infix, draft_shown, drafted_shown, are_known, is_known_formula, settled_draft, shown, number_after, IsDraft, NoHead, IsDraftRefusal, IsRefusal, Reads, IsPlaced, FormulaSpeaksOf, DraftSpeaksOfArguments, SpeaksOfArguments};

use crate::assertion_error::AssertionError;
use crate::declared::Declared;
use crate::form::{before_infix, behind_infix};
use crate::formula::formula;
use crate::head::Head;
use crate::names::is_property;
use crate::standing::Standing;
use cp_code::{Assertion, Kind, Prop, Status, Types};
use cp_term::{Cell, Name, PredName, Term};
use std::alloc::{AllocError, Global};

/// An assertion whose predicate and properties are not looked up yet.
#[derive(Debug, Drop)]
pub struct Draft {
    pub status: Status,
    pub kind: Kind,
    /// The name and the arity of its predicate.
    pub name: Name,
    pub arity: u16,
    /// What a call has to meet; None where what is written is no formula.
    pub before: Option<Prop>,
    /// What a success has to meet; None where what is written is no formula.
    pub after: Option<Prop>,
}

impl Draft {
    /// The body D of a declaration `:- D` as an assertion (Ciao manual, "The Ciao assertion language"). It is
    /// NotAssertion or BadHead where the form alone is wrong.
    pub fn of(alloc: Global, term: &Term) -> Result<Draft, AssertionError>
        ensures ok { IfOk result (λ d. drafted term.now ≡ IsDraft (draft_shown d)) }
        ensures err { IfErr result (λ e. IsDraftRefusal (drafted term.now) e) }
        ensures arguments { IfOk result (λ d. DraftSpeaksOfArguments (draft_shown d)) }
    {
        match Declared::of(term.cells()) {
            Some(declared) => {
                match Draft::of_body(alloc, declared.status, declared.kind, declared.body)? {
                    Some(draft) => Ok(draft),
                    None => Err(AssertionError::BadHead),
                }
            }
            None => Err(AssertionError::NotAssertion),
        }
    }

    /// The same by the body of the assertion; None where its head is none.
    fn of_body(
        alloc: Global,
        status: Status,
        kind: Kind,
        body: &[Cell],
    ) -> Result<Option<Draft>, AllocError>
        requires { length body.now < 2 ^ 32 }
        ensures { IfOk result (λ d. drafted_form (record { status = status; kind = kind; body = body.now }) (form_of body.now) ≡ drafted_shown d) }
    {
        let exit = before_infix(body, b"#");
        let call = before_infix(exit, b"=>");
        let Some(head) = Head::of(before_infix(before_infix(call, b":"), b"+")) else {
            return Ok(None);
        };
        let name = head.name.clone()?;
        let before = formula_behind(alloc, call, b":", head.arity)?;
        let after = formula_behind(alloc, exit, b"=>", head.arity)?;
        Ok(Some(Draft {
            status,
            kind,
            name,
            arity: head.arity,
            before,
            after,
        }))
    }

    /// Whether all names in its formulas are those of properties. It searches the list of types once for each name.
    pub fn are_known(&self, types: &Types) -> bool
        ensures { result ≡ are_known (is_type_of types.now) (draft_shown self.now) }
    {
        is_known_formula(&self.before, types) && is_known_formula(&self.after, types)
    }

    /// The assertion that it is, by what its predicate is to the module, by whether the names in its formulas are known,
    /// and by how many assertions of its predicate are tested that stand before it. It takes no memory.
    pub fn settled(
        self,
        module: Name,
        line: u32,
        standing: Standing,
        known: bool,
        earlier: u32,
    ) -> Result<Assertion, AssertionError>
        ensures ok { IfOk result (λ a. settled_draft standing known (draft_shown self) ≡ Reads (shown a)) }
        ensures placed { IfOk result (λ a. IsPlaced (record { «module» = «module»; name = self.name; arity = self.arity }) line earlier a) }
        ensures err { IfErr result (λ e. IsRefusal (settled_draft standing known (draft_shown self)) e) }
        ensures arguments { DraftSpeaksOfArguments (draft_shown self) → IfOk result (λ a. SpeaksOfArguments a) }
    {
        if standing == Standing::NotDefined {
            return Err(AssertionError::BadHead);
        }
        if !known {
            return Err(AssertionError::BadProperty);
        }
        let number = number_after(self.status, earlier)?;
        let (Some(before), Some(after)) = (self.before, self.after) else {
            return Err(AssertionError::BadProperty);
        };
        if standing == Standing::Shared {
            return Err(AssertionError::OnShared);
        }
        Ok(Assertion {
            pred: PredName {
                module,
                name: self.name,
                arity: self.arity,
            },
            number,
            kind: self.kind,
            status: self.status,
            before,
            after,
            line,
        })
    }
}

/// Whether the body D of a declaration `:- D` is `Kind Body` or `Status Kind Body`, so that it is an assertion, be it a good
/// one or not. It takes no memory.
pub fn is_assertion(term: &Term) -> bool
    ensures { result ≡ is_some (declared term.now) }
{
    Declared::of(term.cells()).is_some()
}

fn is_known_formula(formula: &Option<Prop>, types: &Types) -> bool
    ensures { result ≡ is_known_formula (is_type_of types.now) (option_map prop_of formula.now) }
{
    match formula {
        Some(prop) => is_known(prop, types),
        None => false,
    }
}

fn is_known(prop: &Prop, types: &Types) -> bool
    ensures { result ≡ is_known (is_type_of types.now) (prop_of prop.now) }
{
    match prop {
        Prop::Of { name, arg: _ } => is_property(types, name),
        Prop::ListOf { element, arg: _ } => is_property(types, element),
        Prop::Both(first, second) => is_known(first, types) && is_known(second, types),
        Prop::Either(first, second) => is_known(first, types) && is_known(second, types),
        Prop::Always => true,
    }
}

/// The formula behind the infix operator `op`; one that is left out holds.
fn formula_behind(
    alloc: Global,
    cells: &[Cell],
    op: &[u8],
    arity: u16,
) -> Result<Option<Prop>, AllocError>
    requires { length cells.now < 2 ^ 32 }
    ensures { IfOk result (λ p. option_map prop_of p ≡ formula_or_always arity (behind_infix op.now cells.now)) }
{
    match behind_infix(cells, op) {
        Some(cells) => formula(alloc, before_infix(cells, b"+"), arity),
        None => Ok(Some(Prop::Always)),
    }
}

/// The number of an assertion of this status after so many of its predicate that are tested.
fn number_after(status: Status, earlier: u32) -> Result<u32, AllocError>
    ensures { IfOk result (λ n. n ≡ number_after status earlier) }
{
    if status == Status::Check {
        earlier.checked_add(1).ok_or(AllocError)
    } else {
        Ok(0)
    }
}
