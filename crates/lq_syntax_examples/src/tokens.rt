//! Tokens of lines: their kinds, their places in bytes, and the values of literals.
use lq_grammar::Kind;
use lq_lex::{LINE_LIMIT, LexError, int_value, is_blank, is_name, text_value, tokens};
use std::alloc::Global;
use std::test::Fail;

/// Signs with nothing after them.
const SIGNS: [(&str, Kind); 26] = [
    ("(", Kind::LeftParenthesis),
    (")", Kind::RightParenthesis),
    ("{", Kind::LeftBrace),
    ("}", Kind::RightBrace),
    (".", Kind::Dot),
    (",", Kind::Comma),
    (";", Kind::Semicolon),
    (":", Kind::Colon),
    ("=", Kind::Assign),
    ("=>", Kind::Arrow),
    ("?", Kind::Question),
    ("??", Kind::Coalesce),
    ("!", Kind::Not),
    ("-", Kind::Minus),
    ("+", Kind::Plus),
    ("*", Kind::Star),
    ("/", Kind::Slash),
    ("%", Kind::Percent),
    ("<", Kind::Less),
    (">", Kind::Greater),
    ("<=", Kind::LessOrEqual),
    (">=", Kind::GreaterOrEqual),
    ("==", Kind::Equal),
    ("!=", Kind::NotEqual),
    ("&&", Kind::And),
    ("||", Kind::Or),
];

/// The reserved words.
const WORDS: [(&str, Kind); 26] = [
    ("from", Kind::From),
    ("where", Kind::Where),
    ("select", Kind::Select),
    ("group", Kind::Group),
    ("into", Kind::Into),
    ("orderby", Kind::OrderBy),
    ("join", Kind::Join),
    ("let", Kind::Let),
    ("in", Kind::In),
    ("on", Kind::On),
    ("equals", Kind::Equals),
    ("by", Kind::By),
    ("ascending", Kind::Ascending),
    ("descending", Kind::Descending),
    ("var", Kind::Var),
    ("run", Kind::Run),
    ("as", Kind::As),
    ("insert", Kind::Insert),
    ("delete", Kind::Delete),
    ("update", Kind::Update),
    ("set", Kind::Set),
    ("new", Kind::New),
    ("true", Kind::True),
    ("false", Kind::False),
    ("null", Kind::Null),
    ("Host", Kind::Host),
];

/// Lines with a lexical fault.
const FAULTS: [&str; 49] = [
    "&&&",
    "|||",
    "&|",
    "&",
    "|",
    "& &",
    "a & b",
    "a | b",
    "#",
    "$x",
    "@",
    "~",
    "^",
    "'a'",
    "`",
    "[",
    "]",
    "\\",
    "a\u{c}b",
    "a\u{b}b",
    "a\u{a0}b",
    "\u{feff}a",
    "a \u{feff}",
    "a\u{2028}b",
    "a\u{0}",
    "2147483649",
    "02147483649",
    "99999999999999999999999",
    "12ab",
    "1_",
    "1\u{e9}",
    "1\u{663}",
    "\u{663}",
    "1\u{301}",
    "\u{301}",
    "\u{b7}",
    "\"a",
    "\"",
    "\"a\\\"",
    "\"a\nb\"",
    "\"a\\q\"",
    "\"\\x41\"",
    "\"\\U00000041\"",
    "\"\\u004\"",
    "\"\\u00g0\"",
    "\"\\ud800\"",
    "\"\\udfff\"",
    "\"\\uDC00\"",
    "a // b\n #",
];

/// Lines with their tokens, in words: each by its kind, its start and its end, in bytes.
const LINES: [(&str, &str); 28] = [
    ("?? ?", "Coalesce 0 2, Question 3 4"),
    ("???", "Coalesce 0 2, Question 2 3"),
    ("? ?", "Question 0 1, Question 2 3"),
    ("=>=", "Arrow 0 2, Assign 2 3"),
    (">==", "GreaterOrEqual 0 2, Assign 2 3"),
    ("===", "Equal 0 2, Assign 2 3"),
    ("==>", "Equal 0 2, Greater 2 3"),
    ("= =", "Assign 0 1, Assign 2 3"),
    ("!!=", "Not 0 1, NotEqual 1 3"),
    ("<=<", "LessOrEqual 0 2, Less 2 3"),
    ("&&||", "And 0 2, Or 2 4"),
    // The two spellings of one letter are two names, of two and of three bytes.
    // The two spellings of one letter are two names, of two and of three bytes.
    ("\u{e9} e\u{301}", "Name 0 2, Name 3 6"),
    ("frox in ins", "Name 0 4, In 5 7, Name 8 11"),
    ("0", "Integer 0 1"),
    ("00002147483648", "Integer 0 14"),
    ("-2147483648", "Minus 0 1, Integer 1 11"),
    ("1.e", "Integer 0 1, Dot 1 2, Name 2 3"),
    ("4//2", "Integer 0 1"),
    ("4/ /2", "Integer 0 1, Slash 1 2, Slash 3 4, Integer 4 5"),
    ("4/2", "Integer 0 1, Slash 1 2, Integer 2 3"),
    ("a // \" \u{e9} # \\\nb", "Name 0 1, Name 14 15"),
    ("\"//\" c", "Text 0 4, Name 5 6"),
    ("//\r a", ""),
    ("\r", ""),
    ("\"\\n\"\"\\t\"", "Text 0 4, Text 4 8"),
    ("\"\"", "Text 0 2"),
    ("\"\\u0041\"", "Text 0 8"),
    (
        "\t\u{e9}\u{4e2d} =\"\u{1d4d0}\"// \u{e9}\n;",
        "Name 1 6, Assign 7 8, Text 8 14, Semicolon 20 21",
    ),
];

/// Texts that are one name each.
const NAMES: [&str; 15] = [
    "_",
    "__",
    "x1",
    "From",
    "hosts",
    "fromx",
    "\u{e9}",
    "caf\u{e9}",
    "cafe\u{301}",
    "\u{3bb}",
    "\u{4e2d}\u{6587}",
    "x\u{663}",
    "_\u{663}",
    "a\u{b7}b",
    "\u{1d4d0}",
];

/// Texts that aren't a name.
const NO_NAMES: [&str; 14] = [
    "", "1x", "from", "Host", "a b", "a ", " a", "a-b", "\u{663}", "\u{301}", "\u{b7}", "a\u{a0}",
    "a#", "\"a\"",
];

/// Text literals with their values.
const TEXTS: [(&str, &[u8]); 24] = [
    ("\"\"", b""),
    ("\"ab // c\"", b"ab // c"),
    ("\"\\'\"", b"'"),
    ("\"\\\"\"", b"\""),
    ("\"\\\\\"", b"\\"),
    ("\"\\0\"", b"\x00"),
    ("\"\\a\"", b"\x07"),
    ("\"\\b\"", b"\x08"),
    ("\"\\f\"", b"\x0c"),
    ("\"\\n\"", b"\x0a"),
    ("\"\\r\"", b"\x0d"),
    ("\"\\t\"", b"\x09"),
    ("\"\\v\"", b"\x0b"),
    ("\"'\"", b"'"),
    ("\"\r\t\u{0}\u{c}\u{7f}\"", b"\r\t\x00\x0c\x7f"),
    ("\"\\u0000\"", b"\x00"),
    ("\"\\u0041\\u0062\"", b"Ab"),
    ("\"\\u00e9\\u00E9\"", b"\xc3\xa9\xc3\xa9"),
    ("\"\\u00410\"", b"A0"),
    ("\"\\ud7ff\"", b"\xed\x9f\xbf"),
    ("\"\\ue000\"", b"\xee\x80\x80"),
    ("\"\\uFFFF\"", b"\xef\xbf\xbf"),
    ("\"\\u000a\\u0022\"", b"\n\""),
    ("\"\u{e9}\u{1d4d0}\"", b"\xc3\xa9\xf0\x9d\x93\x90"),
];

/// Digits, with the number that they are where an `int` has it.
const NUMBERS: [(&[u8], Option<i32>); 5] = [
    (b"0", Some(0)),
    (b"007", Some(7)),
    (b"2147483647", Some(2147483647)),
    (b"2147483648", None),
    (b"99999999999999999999999", None),
];

/// Lines without a token, and lines that have one or a fault.
const BLANK: [&str; 7] = ["", " ", " \t\r\n", "//", "///", "// #\n\t// \"", "\r"];

const NOT_BLANK: [&str; 8] = ["/", "/ /", "a", "//\na", "#", "\u{a0}", "\u{c}", "\u{feff}"];

/// What a line that is one text many times over is.
enum Outcome {
    /// This many tokens.
    Tokens(usize),
    Faulty,
    TooLong,
}

/// Lines at the limit of 65,536 bytes, and over it: bytes count, and not characters.
const LENGTHS: [(&str, usize, Outcome); 8] = [
    ("a ", 32768, Outcome::Tokens(32768)),
    ("a", 65537, Outcome::TooLong),
    ("\u{e9}", 32768, Outcome::Tokens(1)),
    ("\u{e9}", 32769, Outcome::TooLong),
    // A line over the limit is too long, whatever is in it.
    ("#", 65536, Outcome::Faulty),
    ("#", 65537, Outcome::TooLong),
    (" ", 65536, Outcome::Tokens(0)),
    (" ", 65537, Outcome::TooLong),
];

/// The line's tokens in the words of the rows.
fn shown(alloc: Global, line: &str) -> Result<String, Fail> {
    let mut words = String::new(alloc);
    for token in tokens(alloc, line)?.iter() {
        if !words.is_empty() {
            words.push_str(", ")?;
        }
        write!(words, "{:?} {} {}", token.kind, token.start, token.end)?;
    }
    Ok(words)
}

/// Whether the line is one token of this kind.
fn is_one(alloc: Global, line: &str, kind: Kind) -> Result<bool, LexError> {
    match tokens(alloc, line)?.as_slice() {
        [token] => Ok(token.kind == kind && token.start == 0 && token.end == line.len()),
        _ => Ok(false),
    }
}

fn is_fault(alloc: Global, line: &str) -> bool {
    matches!(tokens(alloc, line), Err(LexError::Lexical))
}

fn is_literal_of(alloc: Global, literal: &str, expected: &[u8]) -> Result<bool, Fail> {
    Ok(is_one(alloc, literal, Kind::Text)? && text_value(alloc, literal)?.as_bytes() == expected)
}

/// `text`, so many times one after another.
fn repeated(alloc: Global, text: &str, times: usize) -> Result<String, Fail> {
    let mut all = String::new(alloc);
    for _ in 0..times {
        all.push_str(text)?;
    }
    Ok(all)
}

fn is_found(alloc: Global, line: &str, expected: &Outcome) -> bool {
    match (tokens(alloc, line), expected) {
        (Ok(tokens), Outcome::Tokens(number)) => tokens.len() == *number,
        (Err(LexError::Lexical), Outcome::Faulty) => true,
        (Err(LexError::TooLong), Outcome::TooLong) => true,
        _ => false,
    }
}

#[test]
fn each_sign_is_a_token(rt: HostRuntime) -> Result<(), Fail> {
    for (text, kind) in &SIGNS {
        assert!(rt; is_one(rt.alloc(), text, *kind)? && !is_blank(text));
    }
    Ok(())
}

/// Whether the word is a token of its kind and no name, and a name with one more letter.
fn is_reserved(alloc: Global, word: &str, kind: Kind) -> Result<bool, Fail> {
    let longer = format!(in alloc; "{word}_")?;
    Ok(is_one(alloc, word, kind)? && !is_name(word) && is_one(alloc, &longer, Kind::Name)?)
}

#[test]
fn each_reserved_word_is_a_token(rt: HostRuntime) -> Result<(), Fail> {
    for (word, kind) in &WORDS {
        assert!(rt; is_reserved(rt.alloc(), word, *kind)?);
    }
    Ok(())
}

#[test]
fn lines_have_their_tokens(rt: HostRuntime) -> Result<(), Fail> {
    for (line, expected) in &LINES {
        assert!(rt; shown(rt.alloc(), line)?.as_str() == *expected, "{line}");
    }
    Ok(())
}

#[test]
fn names_are_told_from_words(rt: HostRuntime) -> Result<(), Fail> {
    for name in &NAMES {
        assert!(rt; is_name(name) && is_one(rt.alloc(), name, Kind::Name)?);
    }
    for other in &NO_NAMES {
        assert!(rt; !is_name(other));
    }
    Ok(())
}

#[test]
fn integers_have_a_greatest_value(rt: HostRuntime) {
    for (digits, value) in &NUMBERS {
        assert!(rt; int_value(digits) == *value);
    }
}

#[test]
fn blank_lines_have_no_token(rt: HostRuntime) -> Result<(), Fail> {
    for line in &BLANK {
        assert!(rt; tokens(rt.alloc(), line)?.is_empty() && is_blank(line));
    }
    for line in &NOT_BLANK {
        assert!(rt; !is_blank(line));
    }
    Ok(())
}

#[test]
fn texts_have_their_values(rt: HostRuntime) -> Result<(), Fail> {
    for (literal, value) in &TEXTS {
        assert!(rt; is_literal_of(rt.alloc(), literal, value)?, "{literal}");
    }
    Ok(())
}

#[test]
fn other_characters_are_faults(rt: HostRuntime) {
    for line in &FAULTS {
        assert!(rt; is_fault(rt.alloc(), line) && !is_blank(line));
    }
}

#[test]
fn a_line_has_a_greatest_length(rt: HostRuntime) -> Result<(), Fail> {
    assert!(rt; LINE_LIMIT == 65536);
    for (text, times, found) in &LENGTHS {
        let line = repeated(rt.alloc(), text, *times)?;
        assert!(rt; is_found(rt.alloc(), &line, found), "{times} times {text}");
        assert!(rt; is_blank(&line) == matches!(found, Outcome::Tokens(0)));
    }
    Ok(())
}
