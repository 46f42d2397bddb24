ghost use Rattle.std.specs.Prelude.{◌≡◌, List, IfOk};
ghost use Rattle.std.specs.Option.{option_map};
ghost use Rattle.cp_term.specs.declared.cell.Cell.{Cell};
ghost use Rattle.cp_heap.specs.State.{State, instance_at};
ghost use Rattle.cp_code.specs.Goals.{fact_goal_named};
ghost use Rattle.cp_code.specs.Requests.{call_of, manner_of, needs_concurrent};
ghost use Rattle.cp_request.specs.Asked.{goal_shown, manner_shown, HasManner};
ghost use Rattle.cp_request.specs.Shapes.{IsPlace};

use crate::manner::Manner;
use cp_call::Call;
use cp_heap::Ref;
use cp_term::Term;
use std::alloc::AllocError;

/// A goal on the facts of a shared predicate (Ciao manual, "Concurrent predicates").
#[derive(Debug, Clone, Copy, PartialEq, Eq, Drop)]
pub enum FactGoal {
    Current,
    Retract,
    CurrentNb,
    RetractNb,
    AddFront,
    AddBack,
    RetractAll,
    Set,
    Close,
    Open,
}

impl FactGoal {
    /// The goal of one argument with this name.
    pub fn named(name: &[u8]) -> Option<FactGoal>
        ensures { option_map goal_shown result ≡ fact_goal_named name.now }
    {
        if name == b"current_fact".as_slice() {
            Some(FactGoal::Current)
        } else if name == b"retract_fact".as_slice() {
            Some(FactGoal::Retract)
        } else if name == b"current_fact_nb".as_slice() {
            Some(FactGoal::CurrentNb)
        } else if name == b"retract_fact_nb".as_slice() {
            Some(FactGoal::RetractNb)
        } else if name == b"asserta_fact".as_slice() {
            Some(FactGoal::AddFront)
        } else if name == b"assertz_fact".as_slice() {
            Some(FactGoal::AddBack)
        } else if name == b"retractall_fact".as_slice() {
            Some(FactGoal::RetractAll)
        } else if name == b"set_fact".as_slice() {
            Some(FactGoal::Set)
        } else if name == b"close_predicate".as_slice() {
            Some(FactGoal::Close)
        } else if name == b"open_predicate".as_slice() {
            Some(FactGoal::Open)
        } else {
            None
        }
    }

    /// Its call, with a copy of its fact or pattern, from a place of the history on.
    pub fn call(self, copy: &Term, after: Option<i64>) -> Result<Call, AllocError>
        ensures { IfOk result (λ call. call ≡ call_of (goal_shown self) copy.now after) }
    {
        match self {
            FactGoal::Current => Ok(Call::Next {
                pattern: copy.copy()?,
                after,
            }),
            FactGoal::Retract => Ok(Call::Take {
                pattern: copy.copy()?,
                after,
            }),
            FactGoal::CurrentNb => Ok(Call::NextNb {
                pattern: copy.copy()?,
                after,
            }),
            FactGoal::RetractNb => Ok(Call::TakeNb {
                pattern: copy.copy()?,
                after,
            }),
            FactGoal::AddFront => Ok(Call::AddFront { fact: copy.copy()? }),
            FactGoal::AddBack => Ok(Call::AddBack { fact: copy.copy()? }),
            FactGoal::RetractAll => Ok(Call::Purge {
                pattern: copy.copy()?,
            }),
            FactGoal::Set => Ok(Call::Replace { fact: copy.copy()? }),
            FactGoal::Close => Ok(Call::Close),
            FactGoal::Open => Ok(Call::Reopen),
        }
    }

    /// What is done with a reply to it, where its fact or pattern stands at a place of the heap.
    pub(crate) fn manner(self, fact: Ref) -> Manner
        ensures shown { (h : State) (copy : List Cell) → manner_shown h copy result ≡ manner_of (goal_shown self) (instance_at h fact.at) }
        ensures place { (h : State) → IsPlace h fact → HasManner h result }
    {
        match self {
            FactGoal::Current => Manner::Finds(fact),
            FactGoal::Retract => Manner::Finds(fact),
            FactGoal::CurrentNb => Manner::Finds(fact),
            FactGoal::RetractNb => Manner::Finds(fact),
            FactGoal::AddFront => Manner::Changes,
            FactGoal::AddBack => Manner::Changes,
            FactGoal::RetractAll => Manner::Changes,
            FactGoal::Set => Manner::Changes,
            FactGoal::Close => Manner::Changes,
            FactGoal::Open => Manner::Changes,
        }
    }

    /// Whether it is refused by a predicate declared `data`.
    pub(crate) fn needs_concurrent(self) -> bool
        ensures { result ≡ needs_concurrent (goal_shown self) }
    {
        match self {
            FactGoal::Close => true,
            FactGoal::Open => true,
            FactGoal::Current => false,
            FactGoal::Retract => false,
            FactGoal::CurrentNb => false,
            FactGoal::RetractNb => false,
            FactGoal::AddFront => false,
            FactGoal::AddBack => false,
            FactGoal::RetractAll => false,
            FactGoal::Set => false,
        }
    }
}
