//! Names and the reserved words, which aren't names.
ghost use Rattle.std.specs.Prelude.{◌≡◌, if◌then◌else◌, true};
ghost use Rattle.std.specs.Str.{bytes_eq, chars};
ghost use Rattle.lq_grammar.specs.Tokens as token;
ghost use Rattle.lq_grammar.specs.Words.{continues_name, kind_among, kind_of_word, starts_name};
ghost use Rattle.lq_lex.specs.Letters as spec;

use crate::letters;
use lq_grammar::Kind;

/// The reserved words, which aren't names.
const RESERVED: [(&[u8], Kind); 26] = [
    (b"from", Kind::From),
    (b"where", Kind::Where),
    (b"select", Kind::Select),
    (b"group", Kind::Group),
    (b"into", Kind::Into),
    (b"orderby", Kind::OrderBy),
    (b"join", Kind::Join),
    (b"let", Kind::Let),
    (b"in", Kind::In),
    (b"on", Kind::On),
    (b"equals", Kind::Equals),
    (b"by", Kind::By),
    (b"ascending", Kind::Ascending),
    (b"descending", Kind::Descending),
    (b"var", Kind::Var),
    (b"run", Kind::Run),
    (b"as", Kind::As),
    (b"insert", Kind::Insert),
    (b"delete", Kind::Delete),
    (b"update", Kind::Update),
    (b"set", Kind::Set),
    (b"new", Kind::New),
    (b"true", Kind::True),
    (b"false", Kind::False),
    (b"null", Kind::Null),
    (b"Host", Kind::Host),
];

/// Whether the characters are those of `word`, which is of ASCII.
fn is_spelled(mut name: &[char], mut word: &[u8]) -> bool
    ensures { result ≡ bytes_eq name.entry.now word.entry.now }
{
    while let [c, characters @ ..] = name {
        let [byte, bytes @ ..] = word else {
            return false;
        };
        if *c != char::from(*byte) {
            return false;
        }
        name = characters;
        word = bytes;
    }
    word.is_empty()
}

/// The kind that `table` has for a word, else that of a name.
fn lookup(mut table: &[(&[u8], Kind)], name: &[char]) -> Kind
    ensures { result ≡ kind_among (spec.words table.entry.now) name.now }
{
    while let [entry, others @ ..] = table {
        if is_spelled(name, entry.0) {
            return entry.1;
        }
        table = others;
    }
    Kind::Name
}

/// What a word of a name's characters is: a reserved word, else a name.
pub fn kind_of_word(name: &[char]) -> Kind
    ensures { result ≡ kind_of_word name.now }
{
    lookup(&RESERVED, name)
}

/// Whether a word of a name's characters is reserved.
fn is_reserved(mut table: &[(&[u8], Kind)], name: &[u8]) -> bool
    ensures { result ≡ spec.is_among (spec.words table.entry.now) name.now }
{
    while let [entry, others @ ..] = table {
        if name == entry.0 {
            return true;
        }
        table = others;
    }
    false
}

/// Whether a name may have `c` at its start, or after it.
fn is_name_letter(is_first: bool, c: char) -> bool
    ensures { result ≡ (if is_first then starts_name c else continues_name c) }
{
    if is_first {
        letters::is_name_start(c)
    } else {
        letters::is_name_part(c)
    }
}

/// Whether the characters are those of a name or a reserved word.
fn is_word(text: &str) -> bool
    ensures { result ≡ spec.is_word_from true (chars text.now) }
{
    let mut is_first = true;
    for c in text.chars() {
        if !is_name_letter(is_first, c) {
            return false;
        }
        is_first = false;
    }
    !is_first
}

/// Whether `text` is a name of the language: it begins with `_` or a character that may start an
/// identifier (Unicode Standard Annex 31), goes on with characters that may continue one, and isn't a
/// reserved word.
#[tactic(auto, using(crate::proofs::Names::name_is))]
pub fn is_name(text: &str) -> bool
    ensures { result ≡ token.is_name text.now }
{
    is_word(text) && !is_reserved(&RESERVED, text.as_bytes())
}
