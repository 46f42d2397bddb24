// Laws on the grammar, for the crates above.
ghost use Rattle.cp_read.specs.Laws.{IsByTheRules, DeriveOne, IsDecided, ClausesAreTerms};
ghost use Rattle.cp_read.specs.Pieces.{PiecesAreRead};
ghost use Rattle.cp_read.specs.ReadBack.{ReadsBack};

use cp_lex::texts_are_scanned_by_pieces;

/// A clause is read exactly where the rules of the grammar derive one.
pub fn reading_is_by_the_rules()
    ensures { IsByTheRules }
{}

/// The rules derive no second clause from the same tokens.
pub fn rules_derive_no_second()
    ensures { DeriveOne }
{}

/// Whatever stands in front, a clause is read or a fault is found: no bound of the recursion is met.
pub fn reading_is_decided()
    ensures { IsDecided }
{}

/// The cells of a clause within the bounds are one term with its variables numbered by first occurrence.
pub fn clauses_are_terms()
    ensures { ClausesAreTerms }
{}

/// What lawful pieces are written as, with a space and a full stop behind it, is read as their lexemes.
pub fn pieces_are_read()
    ensures { PiecesAreRead }
{
    texts_are_scanned_by_pieces();
}

/// The quoted text of a term within the bounds, a space and a full stop are read as the term and nothing more.
pub fn what_is_written_reads_back()
    ensures { ReadsBack }
{
    pieces_are_read();
}
