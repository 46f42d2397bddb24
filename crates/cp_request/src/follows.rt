ghost use Rattle.std.specs.Prelude.{◌≡◌, List};
ghost use Rattle.cp_term.specs.declared.cell.Cell.{Cell};
ghost use Rattle.cp_heap.specs.State.{State};
ghost use Rattle.cp_code.specs.Requests as requests;
ghost use Rattle.cp_request.specs.Asked.{manner_shown};
ghost use Rattle.cp_request.specs.Told.{follows_shown};

use crate::manner::Manner;
use cp_call::{FullBy, Reply};
use cp_heap::Ref;
use cp_term::Term;

/// What follows a reply.
#[derive(Drop)]
pub enum Follows {
    /// The same question.
    Again,
    /// The goals behind it where the pattern unifies with the fact, whose variables are new; and later the question from
    /// this place of the history on.
    Facts {
        place: i64,
        pattern: Ref,
        fact: Term,
    },
    /// The goals behind it where the copy that was handed out unifies with the fact, which binds nothing.
    Fact {
        fact: Term,
    },
    /// The goals behind it where the term unifies with the place of what was posted.
    Number {
        number: Ref,
        place: i64,
    },
    /// The goals behind it.
    Rest,
    /// No more.
    Nothing,
    /// An error, for the limit that the call would pass.
    Raises(FullBy),
}

impl Follows {
    /// What follows a reply to a call, by what is done with it.
    pub fn of(manner: Manner, reply: Reply) -> Follows
        ensures { (h : State) (copy : List Cell) → follows_shown h copy result ≡ requests.follows (manner_shown h copy manner) reply }
    {
        match reply {
            Reply::Found { place, fact } => Follows::found(manner, place, fact),
            Reply::NoMore => Follows::Nothing,
            Reply::Parked => Follows::Again,
            Reply::Full { by, count: _ } => Follows::Raises(met_limit(manner, by)),
            Reply::Added { place, woken: _ } => Follows::added(manner, place),
            Reply::Purged { count: _ } => Follows::other(manner),
            Reply::Replaced { place: _, woken: _ } => Follows::other(manner),
            Reply::Closed { woken: _ } => Follows::other(manner),
            Reply::Reopened => Follows::other(manner),
            Reply::Left => Follows::other(manner),
            Reply::NotParked => Follows::other(manner),
        }
    }

    fn found(manner: Manner, place: i64, fact: Term) -> Follows
        ensures { (h : State) (copy : List Cell) → follows_shown h copy result ≡ requests.found_follows (manner_shown h copy manner) place fact }
    {
        match manner {
            Manner::Finds(pattern) => Follows::Facts {
                place,
                pattern,
                fact,
            },
            Manner::FindsOnce => Follows::Fact { fact },
            Manner::Changes => Follows::Nothing,
            Manner::Posts(_) => Follows::Nothing,
        }
    }

    fn added(manner: Manner, place: i64) -> Follows
        ensures { (h : State) (copy : List Cell) → follows_shown h copy result ≡ requests.added_follows (manner_shown h copy manner) place }
    {
        match manner {
            Manner::Posts(number) => Follows::Number { number, place },
            Manner::Finds(_) => Follows::Rest,
            Manner::FindsOnce => Follows::Rest,
            Manner::Changes => Follows::Rest,
        }
    }

    fn other(manner: Manner) -> Follows
        ensures { (h : State) (copy : List Cell) → follows_shown h copy result ≡ requests.other_follows (manner_shown h copy manner) }
    {
        match manner {
            Manner::Posts(_) => Follows::Nothing,
            Manner::Finds(_) => Follows::Rest,
            Manner::FindsOnce => Follows::Rest,
            Manner::Changes => Follows::Rest,
        }
    }
}

/// The limit that a call has met. The list of goals takes no more goals, whichever it was.
fn met_limit(manner: Manner, by: FullBy) -> FullBy
    ensures { (h : State) (copy : List Cell) → result ≡ requests.met_limit (manner_shown h copy manner) by }
{
    match manner {
        Manner::Posts(_) => FullBy::Posts,
        Manner::Finds(_) => by,
        Manner::FindsOnce => by,
        Manner::Changes => by,
    }
}
