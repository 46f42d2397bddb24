ghost use Rattle.std.specs.Prelude.{◌≡◌, ◌↔◌, ℕ, Some, List, map};
ghost use Rattle.cp_term.specs.declared.cell.Cell.{Cell};
ghost use Rattle.cp_term.specs.Preorder.{IsTerm};
ghost use Rattle.cp_declaration.specs.declared.indicator.Indicator.{Indicator};
ghost use Rattle.cp_declaration.specs.Lists.{indicators, joined, names};
ghost use Rattle.cp_declaration.specs.Grammar.{indicator_cells, name_cells, list_cells, HaveArities, IsJoined};

/// Cells are read as a list of predicates or of names exactly where they are the list of these, and a term is read as
/// predicates that are joined by commas exactly where it is of that form, with its predicates from left to right.
pub fn lists_and_joined_predicates_are_read_exactly()
    ensures lists { (cells : List Cell) (ps : List Indicator) → (indicators cells ≡ Some ps) ↔ (HaveArities ps × (cells ≡ list_cells (map indicator_cells ps))) }
    ensures names { (cells : List Cell) (ns : List (List ℕ)) → (names cells ≡ Some ns) ↔ (cells ≡ list_cells (map name_cells ns)) }
    ensures joined { (cells : List Cell) (ps : List Indicator) → IsTerm cells → ((joined cells ≡ Some ps) ↔ IsJoined ps cells) }
{}
