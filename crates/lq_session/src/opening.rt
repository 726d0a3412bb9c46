//! What a statement opens: the named queries whose names are among its tokens.
ghost use Rattle.std.specs.Prelude.{◌≡◌, ◌∷◌, [], false, length, option_to_list};
ghost use Rattle.std.specs.Option.{option_copied};
ghost use Rattle.lq_machine.specs.Definitions.{definition_of};
ghost use Rattle.lq_machine.specs.Opening.{is_past_opening, opened_as, opened_behind, opened_named, opening};
ghost use Rattle.lq_grammar.specs.Tokens.{text_of};
ghost use Rattle.lq_session.specs.Openings.{opened_with, within_limits};

use lq_bind::{MOST_RANK, MOST_TOKENS};
use lq_grammar::{Kind, Token};
use lq_machine::{Defined, Definition, Opened};
use lq_syntax::bytes_of;

/// The definition of this name.
pub(crate) fn definition_of<'a>(
    definitions: &'a [Definition],
    name: &[u8],
) -> Option<&'a Definition>
    ensures { option_copied result ≡ definition_of name.now definitions.now }
{
    for definition in definitions {
        if definition.name.as_bytes() == name {
            return Some(definition);
        }
    }
    None
}

/// What a named query opens; a variable opens nothing.
fn opened_as(definition: &Definition) -> Option<Opened>
    ensures { option_to_list result ≡ opened_as definition.now.defined }
{
    match &definition.defined {
        Defined::Variable(_, _) => None,
        Defined::Query(_, opened) => Some(*opened),
    }
}

/// What a token opens that doesn't come after a `.`.
fn opened_named(definitions: &[Definition], line: &[u8], token: Token) -> Option<Opened>
    ensures { option_to_list result ≡ opened_named definitions.now token.kind
        (text_of line.now token) }
{
    match token.kind {
        Kind::Name => opened_as(definition_of(definitions, bytes_of(line, token))?),
        _ => None,
    }
}

/// What a token opens after one of the first kind.
fn opened_behind(
    definitions: &[Definition],
    before: Kind,
    line: &[u8],
    token: Token,
) -> Option<Opened>
    ensures { option_to_list result ≡ opened_behind definitions.now before token.kind
        (text_of line.now token) }
{
    match before {
        Kind::Dot => None,
        _ => opened_named(definitions, line, token),
    }
}

/// What is opened with one query more; none where that is past a limit.
#[tactic(auto, using(crate::proofs::OpeningLemmas::fair_from, crate::proofs::OpeningLemmas::within, crate::proofs::OpeningLemmas::too_large, crate::proofs::OpeningLemmas::too_high))]
fn with_query(opened: Opened, query: Opened) -> Option<Opened>
    requires { is_past_opening opened ≡ false }
    ensures { result ≡ within_limits (opened_with opened (query ∷ [])) }
{
    if query.size > MOST_TOKENS.saturating_sub(opened.size) || query.rank >= MOST_RANK {
        return None;
    }
    Some(Opened {
        size: opened.size + query.size,
        rank: opened.rank.max(query.rank + 1),
    })
}

/// What is opened after one token more; none where that is past a limit.
fn with_token(
    opened: Opened,
    definitions: &[Definition],
    before: Kind,
    line: &[u8],
    token: Token,
) -> Option<Opened>
    requires { is_past_opening opened ≡ false }
    ensures { result
        ≡ within_limits (opened_with opened
        (opened_behind definitions.now before token.kind (text_of line.now token))) }
{
    match opened_behind(definitions, before, line, token) {
        Some(query) => with_query(opened, query),
        None => Some(opened),
    }
}

/// A statement of these tokens that opens nothing; none where they are too many.
#[tactic(auto, using(crate::proofs::OpeningLemmas::within, crate::proofs::OpeningLemmas::too_large))]
fn unopened(tokens: &[Token]) -> Option<Opened>
    ensures { result ≡ within_limits (record { size = length tokens.now; rank = 0 }) }
{
    let size = tokens.len() as u64;
    (size <= MOST_TOKENS).then_some(Opened { size, rank: 0 })
}

/// What a statement of these tokens opens: each named query among these definitions whose name is among them, but not after
/// a `.`. None where the tokens are more than 65,536 together with those of all that it opens, or more than 8 named queries
/// are nested one in the other.
pub(crate) fn opening_of_tokens(
    line: &[u8],
    definitions: &[Definition],
    tokens: &[Token],
) -> Option<Opened>
    ensures { result ≡ within_limits (opening definitions.now line.now tokens.now) }
{
    let mut opened = unopened(tokens)?;
    let mut before = Kind::Semicolon;
    for token in tokens {
        opened = with_token(opened, definitions, before, line, *token)?;
        before = token.kind;
    }
    Some(opened)
}
