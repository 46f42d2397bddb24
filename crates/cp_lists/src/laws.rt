ghost use Rattle.std.specs.Prelude.{◌≡◌, ℕ, ℤ, true, List, Ok, Some};
ghost use Rattle.std.specs.Str.{all_scalars};
ghost use Rattle.std.specs.Fmt.{signed_decimal};
ghost use Rattle.cp_goal.specs.Operations.{fits};
ghost use Rattle.cp_goal.specs.Lists.{text_in, number_of};
ghost use Rattle.cp_goal.specs.Builtins.{codes_term};

/// What goals write as a text they read again: the list of the numbers of characters is their text, and the text of an
/// integer of 64 bits spells that integer.
pub fn texts_are_read_back()
    ensures texts { (cs : List ℕ) → all_scalars cs ≡ true → text_in (codes_term cs) ≡ Ok cs }
    ensures numbers { (z : ℤ) → fits z ≡ true → number_of (signed_decimal z) ≡ Some z }
{}
