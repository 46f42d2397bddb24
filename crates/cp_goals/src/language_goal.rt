ghost use Rattle.std.specs.Prelude.{◌≡◌, IfSome};
ghost use Rattle.std.specs.Option.{option_map};
ghost use Rattle.cp_code.specs.Goals as goals;
ghost use Rattle.cp_code.specs.Goals.{builtin_goal, other_named, with_one_argument, fact_goal_named, is_property_goal};
ghost use Rattle.cp_goals.specs.Kinds.{language_shown, HasArity};

use crate::style::Style;
use cp_goal::Builtin;
use cp_request::FactGoal;

/// A goal of the language that is no control.
#[derive(Debug, Clone, Copy, PartialEq, Eq, Drop)]
pub enum LanguageGoal {
    /// Unification, order, parts of terms, texts and arithmetic.
    OnTerms(Builtin),
    /// A property, as a test of its argument.
    Property,
    /// `write/1` or `writeq/1`.
    Write(Style),
    /// `nl/0`.
    NewLine,
    /// A goal on the facts of a shared predicate.
    OnFacts(FactGoal),
    /// `eng_call/4`.
    Post,
    /// `eng_wait/1`.
    Wait,
}

impl LanguageGoal {
    /// The goal with this name and number of arguments.
    pub fn named(name: &[u8], arity: u16) -> Option<LanguageGoal>
        ensures named { option_map (language_shown name.now) result ≡ builtin_goal name.now arity }
        ensures arity { IfSome result (HasArity name.now arity) }
    {
        if let Some(goal) = Builtin::named(name, arity) {
            return Some(LanguageGoal::OnTerms(goal));
        }
        LanguageGoal::other_named(name, arity)
    }

    fn other_named(name: &[u8], arity: u16) -> Option<LanguageGoal>
        ensures named { option_map (language_shown name.now) result ≡ other_named name.now arity }
        ensures arity { IfSome result (HasArity name.now arity) }
    {
        match arity {
            0 => LanguageGoal::with_no_argument(name),
            1 => LanguageGoal::with_one_argument(name),
            4 => LanguageGoal::with_four_arguments(name),
            _ => None,
        }
    }

    fn with_no_argument(name: &[u8]) -> Option<LanguageGoal>
        ensures named { option_map (language_shown name.now) result ≡ other_named name.now 0 }
        ensures arity { IfSome result (HasArity name.now 0) }
    {
        if name == b"nl".as_slice() {
            Some(LanguageGoal::NewLine)
        } else {
            None
        }
    }

    fn with_four_arguments(name: &[u8]) -> Option<LanguageGoal>
        ensures named { option_map (language_shown name.now) result ≡ other_named name.now 4 }
        ensures arity { IfSome result (HasArity name.now 4) }
    {
        if name == b"eng_call".as_slice() {
            Some(LanguageGoal::Post)
        } else {
            None
        }
    }

    fn with_one_argument(name: &[u8]) -> Option<LanguageGoal>
        ensures named { option_map (language_shown name.now) result ≡ with_one_argument name.now }
        ensures arity { IfSome result (HasArity name.now 1) }
    {
        if name == b"write".as_slice() {
            Some(LanguageGoal::Write(Style::Bare))
        } else if name == b"writeq".as_slice() {
            Some(LanguageGoal::Write(Style::Quoting))
        } else if name == b"eng_wait".as_slice() {
            Some(LanguageGoal::Wait)
        } else if is_property(name) {
            Some(LanguageGoal::Property)
        } else {
            on_facts(name)
        }
    }
}

fn on_facts(name: &[u8]) -> Option<LanguageGoal>
    ensures named { option_map (language_shown name.now) result ≡ goals.on_facts (fact_goal_named name.now) }
    ensures arity { IfSome result (HasArity name.now 1) }
{
    match FactGoal::named(name) {
        Some(goal) => Some(LanguageGoal::OnFacts(goal)),
        None => None,
    }
}

/// Whether a goal of one argument with this name is a property.
fn is_property(name: &[u8]) -> bool
    ensures { result ≡ is_property_goal name.now }
{
    name == b"term".as_slice()
        || name == b"int".as_slice()
        || name == b"nnegint".as_slice()
        || name == b"num".as_slice()
        || name == b"atm".as_slice()
        || name == b"struct".as_slice()
        || name == b"gnd".as_slice()
        || name == b"constant".as_slice()
        || name == b"list".as_slice()
}
