//! Which rules name only what is there. They are looked through whole, also where they have no type.
ghost use Rattle.std.specs.Prelude.{◌≡◌};
ghost use Rattle.std.specs.List.{list_all};
ghost use Rattle.lq_security.specs.Totality.{is_row};
ghost use Rattle.lq_grammar.specs.declared.syntax.Expr.{out-Expr};
ghost use Rattle.lq_grammar.specs.declared.syntax.Expr.TheVariants as expr;
ghost use Rattle.lq_policyfile.specs.RuleNames.{argument_knows, body_knows, clause_knows, continuation_knows, has_column, has_columns, is_hidden_after, is_hidden_by, is_predicate, join_knows, knows, last_knows, query_knows};

use lq_grammar::{
    Argument, Body, Clause, Continuation, Expr, Field, Join, Last, Node, Picked, Query, SortKey,
};
use lq_language::HostName;
use lq_store::Column;

/// Whether there is a column of this name.
pub(crate) fn has_column(columns: &[Column], name: &str) -> bool
    ensures { result ≡ has_column columns.now name.now }
{
    columns.iter().any(|column| column.name.as_str() == name)
}

/// Whether there are columns of these names.
fn has_columns(columns: &[Column], names: &Picked) -> bool
    ensures { result ≡ has_columns columns.now names.now }
{
    match names {
        Picked::One(name) => has_column(columns, name.as_str()),
        Picked::Two(first, second) => {
            has_column(columns, first.as_str()) && has_column(columns, second.as_str())
        }
    }
}

/// Whether there is a host predicate of this name, whatever it takes.
pub(crate) fn is_predicate(hosts: &[HostName], name: &str) -> bool
    ensures { result ≡ is_predicate hosts.now name.now }
{
    hosts.iter().any(|host| host.name.as_str() == name)
}

/// Whether this is the name `row`.
#[tactic(auto, using(crate::proofs::RuleForms::layers))]
fn is_row(expression: &Expr) -> bool
    ensures { result ≡ is_row (out-Expr expression.now) }
{
    matches!(expression, Expr::Node(Node::Name(name)) if name.as_str() == "row")
}

/// Whether the row is hidden after a local name.
fn is_hidden_by(name: &str, hidden: bool) -> bool
    ensures { result ≡ is_hidden_by name.now hidden }
{
    hidden || name == "row"
}

/// Whether the row is hidden after a clause.
fn is_hidden_after(clause: &Clause<Expr>, hidden: bool) -> bool
    ensures { result ≡ is_hidden_after hidden clause.now }
{
    match clause {
        Clause::From(name, _) | Clause::Let(name, _) => is_hidden_by(name.as_str(), hidden),
        Clause::Join(join) => match &join.into {
            Some(group) => is_hidden_by(group.as_str(), hidden),
            None => is_hidden_by(join.name.as_str(), hidden),
        },
        Clause::Where(_) | Clause::OrderBy(_) => hidden,
    }
}

/// Whether an expression names only columns of these where it names columns of the row, which is
/// hidden or not, and only these host predicates.
#[cycle(rule_names)]
#[tactic(auto, using(crate::proofs::RuleForms::forms))]
pub(crate) fn is_expression_known(
    hosts: &[HostName],
    columns: &[Column],
    expression: &Expr,
    hidden: bool,
) -> bool
    ensures { result ≡ knows hosts.now columns.now expression.now hidden }
{
    match expression {
        Expr::Node(node) => is_node_known(hosts, columns, node, hidden),
        Expr::Query(query) => is_query_known(hosts, columns, query.get(), hidden),
    }
}

/// The same of a node.
#[cycle(rule_names)]
#[tactic(auto, using(crate::proofs::RuleForms::forms))]
fn is_node_known(hosts: &[HostName], columns: &[Column], node: &Node<Expr>, hidden: bool) -> bool
    ensures { result ≡ knows hosts.now columns.now (expr.Node node.now) hidden }
{
    match node {
        Node::Integer(_) | Node::Text(_) | Node::Bool(_) | Node::Null | Node::Name(_) => true,
        Node::Member(operand, member) => {
            is_expression_known(hosts, columns, operand.get(), hidden)
                && (hidden || !is_row(operand.get()) || has_column(columns, member.as_str()))
        }
        Node::Unary(_, operand) => is_expression_known(hosts, columns, operand.get(), hidden),
        Node::Binary(_, left, right)
        | Node::And(left, right)
        | Node::Or(left, right)
        | Node::Coalesce(left, right) => {
            is_expression_known(hosts, columns, left.get(), hidden)
                && is_expression_known(hosts, columns, right.get(), hidden)
        }
        Node::Conditional(condition, left, right) => {
            is_expression_known(hosts, columns, condition.get(), hidden)
                && is_expression_known(hosts, columns, left.get(), hidden)
                && is_expression_known(hosts, columns, right.get(), hidden)
        }
        Node::Host(predicate, row, picked) => {
            is_predicate(hosts, predicate.as_str())
                && is_expression_known(hosts, columns, row.get(), hidden)
                && (hidden || !is_row(row.get()) || has_columns(columns, picked.get()))
        }
        Node::HostOther(predicate, asked) => {
            is_predicate(hosts, predicate.as_str())
                && are_all_known(hosts, columns, asked.as_slice(), hidden)
        }
        Node::New(fields) => are_fields_known(hosts, columns, fields.as_slice(), hidden),
        Node::Method(receiver, _, arguments) => {
            is_expression_known(hosts, columns, receiver.get(), hidden)
                && are_arguments_known(hosts, columns, arguments.as_slice(), hidden)
        }
    }
}

/// The same of what a host predicate is asked of that isn't columns of a row.
#[cycle(rule_names)]
fn are_all_known(hosts: &[HostName], columns: &[Column], expressions: &[Expr], hidden: bool) -> bool
    ensures { result
        ≡ list_all (λ expression. knows hosts.now columns.now expression hidden) expressions.now }
{
    for expression in expressions {
        if !is_expression_known(hosts, columns, expression, hidden) {
            return false;
        }
    }
    true
}

/// The same of the members of a record.
#[cycle(rule_names)]
fn are_fields_known(
    hosts: &[HostName],
    columns: &[Column],
    fields: &[Field<Expr>],
    hidden: bool,
) -> bool
    ensures { result
        ≡ list_all (λ field. knows hosts.now columns.now field.value hidden) fields.now }
{
    for field in fields {
        if !is_expression_known(hosts, columns, &field.value, hidden) {
            return false;
        }
    }
    true
}

/// The same of an argument: a lambda's parameter may hide the row.
#[cycle(rule_names)]
fn is_argument_known(
    hosts: &[HostName],
    columns: &[Column],
    argument: &Argument<Expr>,
    hidden: bool,
) -> bool
    ensures { result ≡ argument_knows (knows hosts.now columns.now) hidden argument.now }
{
    match argument {
        Argument::Value(value) => is_expression_known(hosts, columns, value, hidden),
        Argument::Lambda(parameter, body) => {
            is_expression_known(
                hosts,
                columns,
                body,
                is_hidden_by(parameter.as_str(), hidden),
            )
        }
    }
}

/// The same of the arguments of a method.
#[cycle(rule_names)]
fn are_arguments_known(
    hosts: &[HostName],
    columns: &[Column],
    arguments: &[Argument<Expr>],
    hidden: bool,
) -> bool
    ensures { result
        ≡ list_all (argument_knows (knows hosts.now columns.now) hidden) arguments.now }
{
    for argument in arguments {
        if !is_argument_known(hosts, columns, argument, hidden) {
            return false;
        }
    }
    true
}

/// The same of a query, at whose place the row is hidden or not.
#[cycle(rule_names)]
fn is_query_known(hosts: &[HostName], columns: &[Column], query: &Query<Expr>, outer: bool) -> bool
    ensures { result ≡ query_knows (knows hosts.now columns.now) outer query.now }
{
    let hidden = is_hidden_by(query.name.as_str(), outer);
    is_expression_known(hosts, columns, &query.source, outer)
        && is_body_known(hosts, columns, &query.body, outer, hidden)
        && are_continuations_known(hosts, columns, query.rest.as_slice(), outer)
}

/// The same of what follows a query's first body: each part sees its own range variable alone.
#[cycle(rule_names)]
fn are_continuations_known(
    hosts: &[HostName],
    columns: &[Column],
    continuations: &[Continuation<Expr>],
    outer: bool,
) -> bool
    ensures { result
        ≡ list_all (continuation_knows (knows hosts.now columns.now) outer) continuations.now }
{
    for next in continuations {
        let hidden = is_hidden_by(next.name.as_str(), outer);
        if !is_body_known(hosts, columns, &next.body, outer, hidden) {
            return false;
        }
    }
    true
}

/// The same of a body, at the start of which the row is hidden or not.
#[cycle(rule_names)]
fn is_body_known(
    hosts: &[HostName],
    columns: &[Column],
    body: &Body<Expr>,
    outer: bool,
    mut hidden: bool,
) -> bool
    ensures { result ≡ body_knows (knows hosts.now columns.now) outer hidden body.now }
{
    for clause in body.clauses.as_slice() {
        if !is_clause_known(hosts, columns, clause, outer, hidden) {
            return false;
        }
        hidden = is_hidden_after(clause, hidden);
    }
    is_last_known(hosts, columns, &body.last, hidden)
}

/// The same of a clause.
#[cycle(rule_names)]
fn is_clause_known(
    hosts: &[HostName],
    columns: &[Column],
    clause: &Clause<Expr>,
    outer: bool,
    hidden: bool,
) -> bool
    ensures { result ≡ clause_knows (knows hosts.now columns.now) outer hidden clause.now }
{
    match clause {
        Clause::From(_, value) | Clause::Let(_, value) | Clause::Where(value) => {
            is_expression_known(hosts, columns, value, hidden)
        }
        Clause::Join(join) => is_join_known(hosts, columns, join, outer, hidden),
        Clause::OrderBy(keys) => are_keys_known(hosts, columns, keys.as_slice(), hidden),
    }
}

/// The same of a `join`. Its inner sequence sees no range variable of the query, and the key of that
/// its own alone.
#[cycle(rule_names)]
fn is_join_known(
    hosts: &[HostName],
    columns: &[Column],
    join: &Join<Expr>,
    outer: bool,
    hidden: bool,
) -> bool
    ensures { result ≡ join_knows (knows hosts.now columns.now) outer hidden join.now }
{
    let inner = is_hidden_by(join.name.as_str(), outer);
    is_expression_known(hosts, columns, &join.source, outer)
        && is_expression_known(hosts, columns, &join.outer_key, hidden)
        && is_expression_known(hosts, columns, &join.inner_key, inner)
}

/// The same of the keys of `orderby`.
#[cycle(rule_names)]
fn are_keys_known(
    hosts: &[HostName],
    columns: &[Column],
    keys: &[SortKey<Expr>],
    hidden: bool,
) -> bool
    ensures { result ≡ list_all (λ key. knows hosts.now columns.now key.value hidden) keys.now }
{
    for key in keys {
        if !is_expression_known(hosts, columns, &key.value, hidden) {
            return false;
        }
    }
    true
}

/// The same of the end of a body.
#[cycle(rule_names)]
fn is_last_known(hosts: &[HostName], columns: &[Column], last: &Last<Expr>, hidden: bool) -> bool
    ensures { result ≡ last_knows (knows hosts.now columns.now) hidden last.now }
{
    match last {
        Last::Select(value) => is_expression_known(hosts, columns, value, hidden),
        Last::Group(value, key) => {
            is_expression_known(hosts, columns, value, hidden)
                && is_expression_known(hosts, columns, key, hidden)
        }
    }
}
