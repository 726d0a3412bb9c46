//! Classes of characters (ECMA-334, lexical structure).
ghost use Rattle.std.specs.Prelude.{◌≡◌, ◌≤◌, length};
ghost use Rattle.std.specs.List.{prefix_len};
ghost use Rattle.lq_grammar.specs.Tokens as token;
ghost use Rattle.lq_grammar.specs.Words as name;
ghost use Rattle.lq_lex.specs.Letters as spec;

/// A class of characters.
#[derive(Clone, Copy)]
pub enum Class {
    /// What continues a name.
    Name,
    /// Decimal digits.
    Digit,
    /// What a comment goes over: all but LF.
    Comment,
}

/// Whether `c` is white space.
pub fn is_blank_char(c: char) -> bool
    ensures { result ≡ token.is_blank c }
{
    matches!(c, ' ' | '\t' | '\r' | '\n')
}

/// Whether `c` is a decimal digit.
pub fn is_digit(c: char) -> bool
    ensures { result ≡ token.is_digit c }
{
    c.is_ascii_digit()
}

/// Whether a name may start with `c`.
#[tactic(auto, unfolding(lq_grammar::specs::Words::starts_name))]
pub fn is_name_start(c: char) -> bool
    ensures { result ≡ name.starts_name c }
{
    c == '_' || unicode_ident::is_xid_start(c)
}

/// Whether a name may go on with `c`.
#[tactic(auto, unfolding(lq_grammar::specs::Words::continues_name))]
pub fn is_name_part(c: char) -> bool
    ensures { result ≡ name.continues_name c }
{
    unicode_ident::is_xid_continue(c)
}

/// Whether `c` is of the class.
fn is_in(class: Class, c: char) -> bool
    ensures { result ≡ spec.is_in class c }
{
    match class {
        Class::Name => is_name_part(c),
        Class::Digit => is_digit(c),
        Class::Comment => c != '\n',
    }
}

/// How many characters of the class `text` begins with.
pub fn length_of(class: Class, text: &[char]) -> usize
    ensures value { result ≡ prefix_len (spec.is_in class) text.now }
    ensures within { result ≤ length text.now }
{
    text.iter().take_while(|c| is_in(class, **c)).count()
}
