ghost use Rattle.std.specs.Prelude.{◌≡◌, ◌||◌, is_some};
ghost use Rattle.cp_goal.specs.Names.{builtin_named};
ghost use Rattle.cp_module.specs.Words.{is_control, is_language};
ghost use Rattle.cp_module.specs.LanguageWords.{is_property_word, is_fact_word, is_unary_word, is_other_word};

use cp_goal::Builtin;

/// Whether it is the name and the number of arguments of a goal of the language, which no file may define.
pub(crate) fn is_language(name: &[u8], arity: u16) -> bool
    ensures { result ≡ is_language name.now arity }
{
    is_one_by_words(name, arity)
}

fn is_one_by_words(name: &[u8], arity: u16) -> bool
    ensures { result ≡ (is_control name.now arity || is_some (builtin_named name.now arity) || is_other_word name.now arity) }
{
    is_control(name, arity) || Builtin::named(name, arity).is_some() || is_other_word(name, arity)
}

fn is_control(name: &[u8], arity: u16) -> bool
    ensures { result ≡ is_control name.now arity }
{
    match arity {
        0 => name == b"true".as_slice() || name == b"fail".as_slice() || name == b"!".as_slice(),
        1 => {
            name == b"\\+".as_slice() || name == b"call".as_slice() || name == b"throw".as_slice()
        }
        2 => {
            name == b",".as_slice()
                || name == b";".as_slice()
                || name == b"->".as_slice()
                || name == b"call".as_slice()
        }
        3 => {
            name == b"catch".as_slice()
                || name == b"findall".as_slice()
                || name == b"call".as_slice()
        }
        _ => name == b"call".as_slice() && arity <= 8,
    }
}

/// Whether it is a goal that is neither control nor one on terms alone.
fn is_other_word(name: &[u8], arity: u16) -> bool
    ensures { result ≡ is_other_word name.now arity }
{
    match arity {
        0 => name == b"nl".as_slice(),
        1 => is_unary_word(name),
        4 => name == b"eng_call".as_slice(),
        _ => false,
    }
}

#[tactic(auto, unfolding(crate::specs::LanguageWords::is_unary_word))]
fn is_unary_word(name: &[u8]) -> bool
    ensures { result ≡ is_unary_word name.now }
{
    name == b"write".as_slice()
        || name == b"writeq".as_slice()
        || name == b"eng_wait".as_slice()
        || is_property_word(name)
        || is_fact_word(name)
}

#[tactic(auto, unfolding(crate::specs::LanguageWords::is_property_word))]
fn is_property_word(name: &[u8]) -> bool
    ensures { result ≡ is_property_word name.now }
{
    name == b"term".as_slice()
        || name == b"int".as_slice()
        || name == b"nnegint".as_slice()
        || name == b"num".as_slice()
        || name == b"atm".as_slice()
        || name == b"struct".as_slice()
        || name == b"gnd".as_slice()
        || name == b"constant".as_slice()
        || name == b"list".as_slice()
}

#[tactic(auto, unfolding(crate::specs::LanguageWords::is_fact_word))]
fn is_fact_word(name: &[u8]) -> bool
    ensures { result ≡ is_fact_word name.now }
{
    name == b"current_fact".as_slice()
        || name == b"retract_fact".as_slice()
        || name == b"current_fact_nb".as_slice()
        || name == b"retract_fact_nb".as_slice()
        || name == b"asserta_fact".as_slice()
        || name == b"assertz_fact".as_slice()
        || name == b"retractall_fact".as_slice()
        || name == b"set_fact".as_slice()
        || name == b"close_predicate".as_slice()
        || name == b"open_predicate".as_slice()
}
