//! Cuts a text into tokens.
ghost use Rattle.std.specs.Prelude.{◌≡◌, ◌≤◌, ◌∷◌, length, sum_by};
ghost use Rattle.std.specs.Char.{len_utf8};
ghost use Rattle.lq_grammar.specs.Script.{line_limit};
ghost use Rattle.lq_grammar.specs.Tokens as token;
ghost use Rattle.lq_grammar.specs.Tokens.{tokens_in, tokens_from};
ghost use Rattle.lq_lex.specs.Outcome.{Cuts, CutsLine};

use crate::error::LexError;
use crate::letters::Class;
use crate::{letters, literals, signs, words};
use lq_grammar::{Kind, Token};
use std::alloc::Global;

/// The most bytes of a line, its line feed not counted, and of a rule.
pub const LINE_LIMIT: usize = 65_536;

/// What is at the head of a text: a token of this kind, or a blank or a comment, which isn't one;
/// and how many characters it has after its first.
pub type Piece = (Option<Kind>, usize);

/// The character at the head of `text`, NUL at its end.
fn head_of(text: &[char]) -> char
    ensures { result ≡ token.head_of text.now }
{
    match text {
        [first, ..] => *first,
        [] => '\0',
    }
}

/// A comment, whose first slash comes before `behind`: it goes to the next LF or the end.
fn comment(behind: &[char]) -> Piece
    ensures { result ≡ token.comment behind.now }
{
    (None, letters::length_of(Class::Comment, behind))
}

/// The longest word at the head of `text`, which is `first` before `behind`.
#[tactic(auto, using(crate::proofs::Cutting::word_is))]
fn word(text: &[char], first: char, behind: &[char]) -> Option<Piece>
    requires { text.now ≡ first ∷ behind.now }
    ensures { result ≡ token.word first behind.now }
{
    let more = letters::length_of(Class::Name, behind);
    Some((Some(words::kind_of_word(&text[..=more])), more))
}

/// The longest row of digits at the head of `text`, which is `first` before `behind`.
#[tactic(auto, using(crate::proofs::Cutting::taken_from))]
fn integer(text: &[char], first: char, behind: &[char]) -> Option<Piece>
    requires { text.now ≡ first ∷ behind.now }
    ensures { result ≡ token.integer first behind.now }
{
    let more = letters::length_of(Class::Digit, behind);
    if literals::is_small(&text[..=more]) && !letters::is_name_part(head_of(&behind[more..])) {
        Some((Some(Kind::Integer), more))
    } else {
        None
    }
}

/// The text literal whose opening quote comes before `behind`.
fn text_literal(behind: &[char]) -> Option<Piece>
    ensures { result ≡ token.text behind.now }
{
    let more = literals::length_of_text(behind)?;
    Some((Some(Kind::Text), more))
}

/// The longest piece at the head of `text`, which is `first` before `behind`; `None` where nothing
/// begins so.
#[tactic(auto, unfolding(lq_grammar::specs::Tokens::piece))]
fn piece(text: &[char], first: char, behind: &[char]) -> Option<Piece>
    requires { text.now ≡ first ∷ behind.now }
    ensures { result ≡ token.piece first behind.now }
{
    if letters::is_blank_char(first) {
        Some((None, 0))
    } else if first == '/' && head_of(behind) == '/' {
        Some(comment(behind))
    } else if letters::is_name_start(first) {
        word(text, first, behind)
    } else if letters::is_digit(first) {
        integer(text, first, behind)
    } else if first == '"' {
        text_literal(behind)
    } else {
        signs::sign(first, head_of(behind))
    }
}

/// How many bytes the characters take.
fn width_of(text: &[char]) -> usize
    requires { length text.now ≤ line_limit }
    ensures { result ≡ sum_by len_utf8 text.now }
{
    text.iter().map(|c| c.len_utf8()).sum()
}

/// The tokens of these characters, with their places in bytes.
fn cut(alloc: Global, characters: &[char]) -> Result<Vec<Token>, LexError>
    requires { length characters.now ≤ line_limit }
    ensures { Cuts (λ v. v.items) (tokens_from 0 0 characters.now) result }
{
    let mut tokens = Vec::new(alloc);
    let mut start = 0;
    let mut text = characters;
    while let [first, behind @ ..] = text {
        let Some((kind, more)) = piece(text, *first, behind) else {
            return Err(LexError::Lexical);
        };
        let (taken, rest) = text.split_at(more + 1);
        let end = start + width_of(taken);
        if let Some(kind) = kind {
            tokens.push(Token { kind, start, end })?;
        }
        start = end;
        text = rest;
    }
    Ok(tokens)
}

/// The tokens of a text that is within its limit.
#[tactic(auto, using(std::proofs::lemmas::Str::chars_from_encodes), unfolding(lq_grammar::specs::Tokens::tokens_in))]
fn tokens_within(alloc: Global, line: &str) -> Result<Vec<Token>, LexError>
    requires { length line.now ≤ line_limit }
    ensures { Cuts (λ v. v.items) (tokens_in line.now) result }
{
    let characters: Vec<char> = line.chars().collect(alloc)?;
    cut(alloc, &characters)
}

/// The tokens of a line, or of a rule, each with its kind and its place in bytes.
///
/// A text over 65,536 bytes is refused as `TooLong`, whatever is in it, and one within that limit
/// as `Lexical` where something in it begins no token. `Memory` says nothing of the text but that it
/// is within the limit.
#[tactic(auto, unfolding(lq_grammar::specs::Tokens::is_too_long))]
pub fn tokens(alloc: Global, line: &str) -> Result<Vec<Token>, LexError>
    ensures { CutsLine (λ v. v.items) line.now result }
{
    if line.len() > LINE_LIMIT {
        return Err(LexError::TooLong);
    }
    tokens_within(alloc, line)
}
