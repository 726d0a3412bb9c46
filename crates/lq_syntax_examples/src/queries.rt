//! The calls that queries are translated to, each query spelled as a script has it.
use lq_grammar::{Expr, Query, Statement};
use lq_language::{Call, Operator, Paired, Term};
use lq_syntax::parse_statement;
use lq_translate::translate;
use std::alloc::{AllocError, Global};
use std::test::Fail;

/// Queries, each with its calls, and with those of what follows by the first `into`.
const QUERIES: [(&str, &[&str], &[&str]); 17] = [
    ("run from x in t select x;", &["Select"], &[]),
    ("run from x in t where x.a select x;", &["Where"], &[]),
    (
        "run from x in t where x.a select x.b;",
        &["Where", "Select"],
        &[],
    ),
    ("run from x in t orderby x.a select x;", &["OrderBy"], &[]),
    (
        "run from x in t let y = x.a select x;",
        &["Select pair", "Select"],
        &[],
    ),
    (
        "run from x in t from y in u select x;",
        &["SelectMany value"],
        &[],
    ),
    (
        "run from x in t from y in x.s where y select x;",
        &["SelectMany pair", "Where", "Select"],
        &[],
    ),
    (
        "run from x in t from y in u group x by y;",
        &["SelectMany pair", "GroupBy element"],
        &[],
    ),
    (
        "run from x in t join y in u on x.a equals y.a select y;",
        &["Join value"],
        &[],
    ),
    (
        "run from x in t join y in u on x.a equals y.a let z = 1 select z;",
        &["Join pair", "Select pair", "Select"],
        &[],
    ),
    (
        "run from x in t join y in u on x.a equals y.a into g select g;",
        &["GroupJoin value"],
        &[],
    ),
    (
        "run from x in t join y in u on x equals y into y orderby x select x;",
        &["GroupJoin pair", "OrderBy", "Select"],
        &[],
    ),
    ("run from x in t group x by x.a;", &["GroupBy"], &[]),
    (
        "run from x in t group x.b by x.a;",
        &["GroupBy element"],
        &[],
    ),
    (
        "run from x in t where x.a group x by x.b;",
        &["Where", "GroupBy"],
        &[],
    ),
    (
        "run from x in t select x.a into x where x select x;",
        &["Select"],
        &["Where"],
    ),
    (
        "run from x in t group x by x.a into g select g.Key;",
        &["GroupBy"],
        &["Select"],
    ),
];

// A call by its name, with what it makes of pairs.
fn word_of(operator: &Operator<Term>) -> &'static str {
    match operator {
        Operator::Where(_) => "Where",
        Operator::Select(_) => "Select",
        Operator::Let(_, _) => "Select pair",
        Operator::SelectMany(_, _, Paired::Pair) => "SelectMany pair",
        Operator::SelectMany(_, _, Paired::Value(_)) => "SelectMany value",
        Operator::Join(join, Paired::Pair) if join.into.is_none() => "Join pair",
        Operator::Join(join, Paired::Value(_)) if join.into.is_none() => "Join value",
        Operator::Join(_, Paired::Pair) => "GroupJoin pair",
        Operator::Join(_, Paired::Value(_)) => "GroupJoin value",
        Operator::OrderBy(_) => "OrderBy",
        Operator::GroupBy(_, None) => "GroupBy",
        Operator::GroupBy(_, Some(_)) => "GroupBy element",
    }
}

// Whether calls are these, in order.
fn are_named(operators: &[Operator<Term>], words: &[&str]) -> bool {
    operators.len() == words.len()
        && operators
            .iter()
            .zip(words.iter())
            .all(|(operator, word)| word_of(operator) == *word)
}

// Whether this is the call of these operators, or no call where there are none.
fn is_call_of(source: &Term, words: &[&str]) -> bool {
    match source {
        Term::Call(call) => are_named(call.get().operators.as_slice(), words),
        Term::Node(_) => words.is_empty(),
    }
}

/// The calls that a query is translated to: those that its source is, its own, and those behind the first `into`.
#[derive(Clone, Copy)]
struct Calls<'a> {
    within: &'a [&'a str],
    own: &'a [&'a str],
    behind: &'a [&'a str],
}

fn is_made_of(call: &Call<Term>, calls: Calls<'_>) -> bool {
    is_call_of(&call.source, calls.within)
        && are_named(call.operators.as_slice(), calls.own)
        && match call.rest.as_slice() {
            [] => calls.behind.is_empty(),
            [part, ..] => are_named(part.operators.as_slice(), calls.behind),
        }
}

// Whether a query is translated to these calls. A function of its own, like the next two: what costs most to prove of a test is that
// it frees a tree.
fn has_calls(alloc: Global, query: &Query<Expr>, calls: Calls<'_>) -> Result<bool, AllocError> {
    Ok(is_made_of(&translate(alloc, query)?, calls))
}

// Whether a statement runs such a query.
fn is_run_of_calls(
    alloc: Global,
    statement: &Statement,
    calls: Calls<'_>,
) -> Result<bool, AllocError> {
    match statement {
        Statement::Run(Expr::Query(query)) => has_calls(alloc, query.get(), calls),
        _ => Ok(false),
    }
}

fn is_translated(alloc: Global, line: &str, calls: Calls<'_>) -> Result<bool, Fail> {
    match parse_statement(alloc, line)? {
        Some(statement) => Ok(is_run_of_calls(alloc, &statement, calls)?),
        None => Ok(false),
    }
}

#[test]
fn queries_stand_for_calls(rt: HostRuntime) -> Result<(), Fail> {
    for (line, own, behind) in &QUERIES {
        let calls = Calls {
            within: &[],
            own,
            behind,
        };
        assert!(rt; is_translated(rt.alloc(), line, calls)?, "{line}");
    }
    Ok(())
}

#[test]
fn inner_queries_are_translated_in_place(rt: HostRuntime) -> Result<(), Fail> {
    let line = "run from x in (from y in t where y.a select y) select x;";
    let calls = Calls {
        within: &["Where"],
        own: &["Select"],
        behind: &[],
    };
    assert!(rt; is_translated(rt.alloc(), line, calls)?);
    Ok(())
}
