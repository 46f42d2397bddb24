// Laws on what passes have seen, for the crates above.
ghost use Rattle.std.specs.Prelude.{◌≡◌, ◌≢◌, ◌⊎◌, ℕ, List, ◌++◌};
ghost use Rattle.cp_list.specs.Lists.{IsPrefix, own};
ghost use Rattle.cp_turn.specs.Lists.{AreBy};
ghost use Rattle.cp_turn.specs.Passes.{PassView, ExtendsSeen};

/// Two beginnings of one list are comparable: one of them begins the other.
pub fn beginnings_are_comparable<E>()
    ensures { (xs ys list : List E) → IsPrefix xs list → IsPrefix ys list → IsPrefix xs ys ⊎ IsPrefix ys xs }
{}

/// A list that was lengthened by entries of one caller has them behind this caller's own, and no more of any other's.
pub fn own_part_grows<E>()
    ensures longer { (by : E → ℕ) (n : ℕ) (list more : List E) → own by n (list ++ more) ≡ own by n list ++ own by n more }
    ensures callers { (by : E → ℕ) (n : ℕ) (list more : List E) → AreBy by n more → own by n (list ++ more) ≡ own by n list ++ more }
    ensures others { (by : E → ℕ) (n k : ℕ) (list more : List E) → n ≢ k → AreBy by n more → own by k (list ++ more) ≡ own by k list }
{}

/// A value behind a turnstile may have entries from before it was put there, as a part of its base. Its whole list is
/// those and then its list behind the turnstile: it begins with those and what a pass has seen, and has of the pass's
/// caller what those have of it and then the pass's own.
pub fn whole_list_extends<E, B>()
    ensures seen { (by : E → ℕ) (earlier list : List E) (p : PassView E B) → ExtendsSeen by list p → IsPrefix (earlier ++ p.seen) (earlier ++ list) }
    ensures mine { (by : E → ℕ) (earlier list : List E) (p : PassView E B) → ExtendsSeen by list p → own by p.number (earlier ++ list) ≡ own by p.number earlier ++ p.mine }
{}
