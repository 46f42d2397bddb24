ghost use Rattle.std.specs.Prelude.{◌≡◌, ◌↔◌, ℕ, IsTrue, Some, is_some, List, []};
ghost use Rattle.cp_term.specs.declared.cell.Cell.{Cell};
ghost use Rattle.cp_term.specs.Preorder.{IsTerm};
ghost use Rattle.cp_term.specs.Numbering.{canon, fresh, IsNumbered};
ghost use Rattle.cp_term.specs.Substitution.{Substitution, IsSolved};
ghost use Rattle.cp_term.specs.Unification.{unify};
ghost use Rattle.cp_term.specs.Unifier.{HasUnifier, IsMostGeneral};

/// Numbering by first occurrence is a normal form: numbering again changes nothing, cells are numbered exactly where it
/// changes nothing, and cells that are renamed apart have the same form.
pub fn numbering_is_a_normal_form()
    ensures again { (cells : List Cell) → canon (canon cells) ≡ canon cells }
    ensures tested { (cells : List Cell) → IsNumbered cells ↔ (canon cells ≡ cells) }
    ensures apart { (n : ℕ) (cells : List Cell) → canon (fresh n cells) ≡ canon cells }
{}

/// Unification of two terms gives a substitution exactly where they have a unifier, and then a solved and most general one.
pub fn unification_is_most_general()
    ensures exact { (a b : List Cell) → IsTerm a → IsTerm b → (IsTrue (is_some (unify [] a b)) ↔ HasUnifier a b) }
    ensures general { (a b : List Cell) (s : Substitution) → IsTerm a → IsTerm b → unify [] a b ≡ Some s → IsMostGeneral a b s }
    ensures solved { (a b : List Cell) (s : Substitution) → unify [] a b ≡ Some s → IsSolved s }
{}
