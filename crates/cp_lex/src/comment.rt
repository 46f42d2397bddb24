ghost use Rattle.std.specs.Prelude.{◌≡◌, ◌≤◌, length, IfSome};
ghost use Rattle.cp_lex.specs.Lexical.{past_comment, piece_from};
ghost use Rattle.cp_lex.specs.declared.before.Before.{Before};
ghost use Rattle.cp_lex.specs.declared.start.Start.TheVariants.{BlockComment};

use crate::error::LexWhy;
use crate::piece::Piece;

/// How many bytes there are up to and with the next `*/`.
fn past_comment(text: &[u8]) -> Option<usize>
    ensures value { result ≡ past_comment text.now }
    ensures within { IfSome result (λ n. n ≤ length text.now) }
{
    for at in 0..text.len() {
        if text[at..].starts_with(b"*/") {
            return Some(at + 2);
        }
    }
    None
}

/// The comment that begins with the first two bytes.
pub(crate) fn block_comment(text: &[u8]) -> Piece
    requires { 2 ≤ length text.now }
    ensures { (before : Before) → result ≡ piece_from BlockComment before text.now }
{
    match past_comment(text.split_at(2).1) {
        Some(len) => Piece::Blank(2 + len),
        None => Piece::Refused(LexWhy::OpenComment, 0),
    }
}
