//! Lines without a token, which are recognized with no memory.
ghost use Rattle.std.specs.Prelude.{◌≡◌, ◌↔◌, IsTrue, [], Some};
ghost use Rattle.std.specs.Str.{chars};
ghost use Rattle.lq_grammar.specs.Tokens.{tokens_of};
ghost use Rattle.lq_lex.specs.Blank as spec;

use crate::letters;
use crate::lexer::LINE_LIMIT;

/// The state of a scan that has met no token.
#[derive(Clone, Copy)]
enum Scan {
    /// Between blanks and comments.
    Between,
    /// After a slash, which has to open a comment.
    Slash,
    /// In a comment.
    Comment,
}

/// The state of the scan after `c`, `None` where `c` is of a token or of nothing.
fn step(scan: Scan, c: char) -> Option<Scan>
    ensures { result ≡ spec.step scan c }
{
    match scan {
        Scan::Between if letters::is_blank_char(c) => Some(Scan::Between),
        Scan::Between if c == '/' => Some(Scan::Slash),
        Scan::Slash if c == '/' => Some(Scan::Comment),
        Scan::Comment if c == '\n' => Some(Scan::Between),
        Scan::Comment => Some(Scan::Comment),
        Scan::Between | Scan::Slash => None,
    }
}

/// Whether a text may end where the scan is.
fn is_closed(scan: Scan) -> bool
    ensures { result ≡ spec.is_closed scan }
{
    match scan {
        Scan::Between | Scan::Comment => true,
        Scan::Slash => false,
    }
}

/// Whether the text is of blanks and comments alone.
fn has_no_token(text: &str) -> bool
    ensures { result ≡ spec.has_no_token Scan.Between (chars text.now) }
{
    let mut scan = Scan::Between;
    for c in text.chars() {
        let Some(next) = step(scan, c) else {
            return false;
        };
        scan = next;
    }
    is_closed(scan)
}

/// Whether a line has no token: it is of white space and comments, and within its limit of 65,536
/// bytes. Takes no memory, so that such a line is distinguished from the others even where none is left.
#[tactic(auto, using(crate::proofs::Blanks::blank_is, crate::proofs::Blanks::long_is_not_blank))]
pub fn is_blank(line: &str) -> bool
    ensures { IsTrue result ↔ (tokens_of line.now ≡ Some []) }
{
    if line.len() > LINE_LIMIT {
        return false;
    }
    has_no_token(line)
}
