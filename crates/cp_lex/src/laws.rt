ghost use Rattle.cp_lex.specs.Laws.{IsReadClauseByClause, IsReadAnew, IsScannedByPieces, HasPiecesInside};

/// Reading clause by clause is reading the whole.
pub fn texts_are_read_clause_by_clause()
    ensures { IsReadClauseByClause }
{}

/// What follows a full stop is read anew.
pub fn what_follows_a_full_stop_is_read_anew()
    ensures { IsReadAnew }
{}

/// A scan is the piece at its front and the scan behind it.
pub fn texts_are_scanned_by_pieces()
    ensures { IsScannedByPieces }
{}

/// A piece takes at least one byte and no more than there are.
pub fn pieces_are_inside()
    ensures { HasPiecesInside }
{}
