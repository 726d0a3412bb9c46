//! Whole expressions translated: a copy of each, in which every query is replaced by the calls that it is translated to.
ghost use Rattle.std.specs.Prelude.{◌≡◌, IfOk, map};
ghost use Rattle.lq_language.specs.declared.calls.Term.TheVariants as term;
ghost use Rattle.lq_grammar.specs.declared.syntax.Expr.TheVariants as expr;
ghost use Rattle.lq_grammar.specs.declared.syntax.Node.TheVariants as node;
ghost use Rattle.lq_translate.specs.Maps.{map_argument, map_body, map_clause, map_field, map_join, map_key, map_last, map_next, map_node, map_query};
ghost use Rattle.lq_translate.specs.Translated.{translated, translated_query};

use crate::calls::{TellsName, call_of_query};
use lq_grammar::{
    Argument, Binary, Body, Clause, Continuation, Expr, Field, Join, Last, Node, Picked, Query,
    SortKey, Unary,
};
use lq_language::{Call, Term};
use lq_value::{Held, List, Txt};
use std::alloc::{AllocError, Global};

impl TellsName for Term {
    ghost use Rattle.lq_translate.specs.Translated.{is_name};

    ghost naming = { is_name };

    fn is_name(&self, name: &Txt) -> bool {
        match self {
            Term::Node(Node::Name(used)) => name.as_str() == used.as_str(),
            _ => false,
        }
    }
}

/// The calls that a query is translated to (ECMA-334, query expression translation), with those of the queries in it.
///
/// Refused where there is no memory for them, and only there.
#[cycle(translating)]
pub fn translate(alloc: Global, query: &Query<Expr>) -> Result<Call<Term>, AllocError>
    ensures { IfOk result (λ call. call ≡ translated_query query.now) }
{
    let query = query_of(alloc, query)?;
    call_of_query(alloc, query)
}

/// An expression in which each query is replaced by the calls that it is translated to.
///
/// Refused where there is no memory for it, and only there.
#[cycle(translating)]
#[tactic(auto, using(crate::proofs::AlikeTermLaws::translated_node))]
pub fn translate_expression(alloc: Global, expression: &Expr) -> Result<Term, AllocError>
    ensures { IfOk result (λ translation. translation ≡ translated expression.now) }
{
    match expression {
        Expr::Node(node) => term_of(alloc, node),
        Expr::Query(query) => call_of(alloc, query.get()),
    }
}

/// The calls of a query, as an expression.
#[cycle(translating)]
#[inline(never)]
#[tactic(auto, using(crate::proofs::AlikeTermLaws::translated_to_call))]
fn call_of(alloc: Global, query: &Query<Expr>) -> Result<Term, AllocError>
    ensures { IfOk result (λ translation. translation ≡ translated (expr.Query query.now)) }
{
    let call = translate(alloc, query)?;
    Ok(Term::Call(Held::new(alloc, call)?))
}

/// The expression in a box of its own.
#[cycle(translating)]
#[inline(never)]
fn held(alloc: Global, expression: &Expr) -> Result<Held<Term>, AllocError>
    ensures { IfOk result (λ translation. translation ≡ translated expression.now) }
{
    Held::new(alloc, translate_expression(alloc, expression)?)
}

/// A copy of a name or of a text.
fn copied(alloc: Global, text: &Txt) -> Result<Txt, AllocError>
    ensures { IfOk result (λ copy. copy ≡ text.now) }
{
    Txt::from_str(alloc, text.as_str())
}

/// An expression other than a query. Each form that holds expressions has a function of its own, which takes less of the
/// stack than all forms together: expressions may be many thousand operators deep.
#[cycle(translating)]
fn term_of(alloc: Global, form: &Node<Expr>) -> Result<Term, AllocError>
    ensures { IfOk result (λ translation. translation ≡ term.Node (map_node translated form.now)) }
{
    match form {
        Node::Integer(number) => Ok(Term::Node(Node::Integer(*number))),
        Node::Text(text) => text_of(alloc, text),
        Node::Bool(truth) => Ok(Term::Node(Node::Bool(*truth))),
        Node::Null => Ok(Term::Node(Node::Null)),
        Node::Name(name) => name_of(alloc, name),
        Node::Member(operand, member) => member_of(alloc, operand.get(), member),
        Node::Unary(sign, operand) => unary_of(alloc, *sign, operand.get()),
        Node::Binary(sign, left, right) => binary_of(alloc, *sign, left.get(), right.get()),
        Node::And(left, right) => and_of(alloc, left.get(), right.get()),
        Node::Or(left, right) => or_of(alloc, left.get(), right.get()),
        Node::Coalesce(left, right) => coalesce_of(alloc, left.get(), right.get()),
        Node::Conditional(condition, left, right) => {
            conditional_of(alloc, condition.get(), left.get(), right.get())
        }
        Node::Host(predicate, row, columns) => host_of(alloc, row.get(), predicate, columns.get()),
        Node::HostOther(predicate, asked) => host_other_of(alloc, asked, predicate),
        Node::New(fields) => record_of(alloc, fields),
        Node::Method(receiver, method, arguments) => {
            let receiver = held(alloc, receiver.get())?;
            method_of(alloc, arguments, receiver, method)
        }
    }
}

#[inline(never)]
fn text_of(alloc: Global, text: &Txt) -> Result<Term, AllocError>
    ensures { IfOk result (λ translation. translation ≡ term.Node (node.Text text.now)) }
{
    Ok(Term::Node(Node::Text(copied(alloc, text)?)))
}

#[inline(never)]
fn name_of(alloc: Global, name: &Txt) -> Result<Term, AllocError>
    ensures { IfOk result (λ translation. translation ≡ term.Node (node.Name name.now)) }
{
    Ok(Term::Node(Node::Name(copied(alloc, name)?)))
}

#[cycle(translating)]
#[inline(never)]
fn member_of(alloc: Global, operand: &Expr, member: &Txt) -> Result<Term, AllocError>
    ensures { IfOk result (λ translation. translation
        ≡ term.Node (node.Member (translated operand.now) member.now)) }
{
    let operand = held(alloc, operand)?;
    Ok(Term::Node(Node::Member(operand, copied(alloc, member)?)))
}

#[cycle(translating)]
#[inline(never)]
fn unary_of(alloc: Global, sign: Unary, operand: &Expr) -> Result<Term, AllocError>
    ensures { IfOk result (λ translation. translation
        ≡ term.Node (node.Unary sign (translated operand.now))) }
{
    Ok(Term::Node(Node::Unary(sign, held(alloc, operand)?)))
}

#[cycle(translating)]
#[inline(never)]
fn binary_of(alloc: Global, sign: Binary, left: &Expr, right: &Expr) -> Result<Term, AllocError>
    ensures { IfOk result (λ translation. translation
        ≡ term.Node (node.Binary sign (translated left.now) (translated right.now))) }
{
    let left = held(alloc, left)?;
    Ok(Term::Node(Node::Binary(sign, left, held(alloc, right)?)))
}

#[cycle(translating)]
#[inline(never)]
fn and_of(alloc: Global, left: &Expr, right: &Expr) -> Result<Term, AllocError>
    ensures { IfOk result (λ translation. translation
        ≡ term.Node (node.And (translated left.now) (translated right.now))) }
{
    let left = held(alloc, left)?;
    Ok(Term::Node(Node::And(left, held(alloc, right)?)))
}

#[cycle(translating)]
#[inline(never)]
fn or_of(alloc: Global, left: &Expr, right: &Expr) -> Result<Term, AllocError>
    ensures { IfOk result (λ translation. translation
        ≡ term.Node (node.Or (translated left.now) (translated right.now))) }
{
    let left = held(alloc, left)?;
    Ok(Term::Node(Node::Or(left, held(alloc, right)?)))
}

#[cycle(translating)]
#[inline(never)]
fn coalesce_of(alloc: Global, left: &Expr, right: &Expr) -> Result<Term, AllocError>
    ensures { IfOk result (λ translation. translation
        ≡ term.Node (node.Coalesce (translated left.now) (translated right.now))) }
{
    let left = held(alloc, left)?;
    Ok(Term::Node(Node::Coalesce(left, held(alloc, right)?)))
}

#[cycle(translating)]
#[inline(never)]
fn conditional_of(
    alloc: Global,
    condition: &Expr,
    left: &Expr,
    right: &Expr,
) -> Result<Term, AllocError>
    ensures { IfOk result (λ translation. translation
        ≡ term.Node (node.Conditional (translated condition.now) (translated left.now)
        (translated right.now))) }
{
    let condition = held(alloc, condition)?;
    let left = held(alloc, left)?;
    Ok(Term::Node(Node::Conditional(condition, left, held(alloc, right)?)))
}

/// A copy of the names of columns.
fn picked_of(alloc: Global, columns: &Picked) -> Result<Picked, AllocError>
    ensures { IfOk result (λ copy. copy ≡ columns.now) }
{
    match columns {
        Picked::One(column) => Ok(Picked::One(copied(alloc, column)?)),
        Picked::Two(first, second) => {
            let first = copied(alloc, first)?;
            Ok(Picked::Two(first, copied(alloc, second)?))
        }
    }
}

#[cycle(translating)]
#[inline(never)]
fn host_of(alloc: Global, row: &Expr, predicate: &Txt, columns: &Picked) -> Result<Term, AllocError>
    ensures { IfOk result (λ translation. translation
        ≡ term.Node (node.Host predicate.now (translated row.now) columns.now)) }
{
    let row = held(alloc, row)?;
    let predicate = copied(alloc, predicate)?;
    let columns = Held::new(alloc, picked_of(alloc, columns)?)?;
    Ok(Term::Node(Node::Host(predicate, row, columns)))
}

#[cycle(translating)]
#[inline(never)]
fn host_other_of(alloc: Global, asked: &List<Expr>, predicate: &Txt) -> Result<Term, AllocError>
    ensures { IfOk result (λ translation. translation
        ≡ term.Node (node.HostOther predicate.now (map translated asked.now))) }
{
    let predicate = copied(alloc, predicate)?;
    Ok(Term::Node(Node::HostOther(predicate, expressions_of(alloc, asked)?)))
}

#[cycle(translating)]
#[inline(never)]
fn record_of(alloc: Global, fields: &List<Field<Expr>>) -> Result<Term, AllocError>
    ensures { IfOk result (λ translation. translation
        ≡ term.Node (node.New (map (map_field translated) fields.now))) }
{
    Ok(Term::Node(Node::New(fields_of(alloc, fields)?)))
}

#[cycle(translating)]
#[inline(never)]
fn method_of(
    alloc: Global,
    arguments: &List<Argument<Expr>>,
    receiver: Held<Term>,
    method: &Txt,
) -> Result<Term, AllocError>
    ensures { IfOk result (λ translation. translation
        ≡ term.Node (node.Method receiver method.now
        (map (map_argument translated) arguments.now))) }
{
    let method = copied(alloc, method)?;
    Ok(Term::Node(Node::Method(receiver, method, arguments_of(alloc, arguments)?)))
}

#[cycle(translating)]
fn expressions_of(alloc: Global, expressions: &List<Expr>) -> Result<List<Term>, AllocError>
    ensures { IfOk result (λ terms. terms ≡ map translated expressions.now) }
{
    let mut terms = List::new(alloc);
    for expression in expressions.as_slice() {
        terms.push(translate_expression(alloc, expression)?)?;
    }
    Ok(terms)
}

#[cycle(translating)]
fn fields_of(alloc: Global, fields: &List<Field<Expr>>) -> Result<List<Field<Term>>, AllocError>
    ensures { IfOk result (λ translations. translations ≡ map (map_field translated) fields.now) }
{
    let mut translations = List::new(alloc);
    for field in fields.as_slice() {
        let name = copied(alloc, &field.name)?;
        let value = translate_expression(alloc, &field.value)?;
        translations.push(Field { name, value })?;
    }
    Ok(translations)
}

#[cycle(translating)]
fn arguments_of(
    alloc: Global,
    arguments: &List<Argument<Expr>>,
) -> Result<List<Argument<Term>>, AllocError>
    ensures { IfOk result (λ translations. translations
        ≡ map (map_argument translated) arguments.now) }
{
    let mut translations = List::new(alloc);
    for argument in arguments.as_slice() {
        translations.push(argument_of(alloc, argument)?)?;
    }
    Ok(translations)
}

#[cycle(translating)]
fn argument_of(alloc: Global, argument: &Argument<Expr>) -> Result<Argument<Term>, AllocError>
    ensures { IfOk result (λ translation. translation ≡ map_argument translated argument.now) }
{
    match argument {
        Argument::Value(value) => Ok(Argument::Value(translate_expression(alloc, value)?)),
        Argument::Lambda(name, body) => {
            let name = copied(alloc, name)?;
            Ok(Argument::Lambda(name, translate_expression(alloc, body)?))
        }
    }
}

/// The source waits in a box while the rest is translated, and the body comes last, so that no path drops a term in place.
#[cycle(translating)]
fn query_of(alloc: Global, query: &Query<Expr>) -> Result<Query<Term>, AllocError>
    ensures { IfOk result (λ translation. translation ≡ map_query translated query.now) }
{
    let name = copied(alloc, &query.name)?;
    let source = held(alloc, &query.source)?;
    let rest = rest_of(alloc, &query.rest)?;
    let body = body_of(alloc, &query.body)?;
    Ok(Query {
        name,
        source: source.into_inner(),
        body,
        rest,
    })
}

#[cycle(translating)]
fn rest_of(
    alloc: Global,
    rest: &List<Continuation<Expr>>,
) -> Result<List<Continuation<Term>>, AllocError>
    ensures { IfOk result (λ translations. translations ≡ map (map_next translated) rest.now) }
{
    let mut translations = List::new(alloc);
    for next in rest.as_slice() {
        let name = copied(alloc, &next.name)?;
        let body = body_of(alloc, &next.body)?;
        translations.push(Continuation { name, body })?;
    }
    Ok(translations)
}

#[cycle(translating)]
fn body_of(alloc: Global, body: &Body<Expr>) -> Result<Body<Term>, AllocError>
    ensures { IfOk result (λ translation. translation ≡ map_body translated body.now) }
{
    let clauses = clauses_of(alloc, &body.clauses)?;
    let last = last_of(alloc, &body.last)?;
    Ok(Body { clauses, last })
}

#[cycle(translating)]
fn clauses_of(alloc: Global, clauses: &List<Clause<Expr>>) -> Result<List<Clause<Term>>, AllocError>
    ensures { IfOk result (λ translations. translations ≡ map (map_clause translated) clauses.now) }
{
    let mut translations = List::new(alloc);
    for clause in clauses.as_slice() {
        translations.push(clause_of(alloc, clause)?)?;
    }
    Ok(translations)
}

#[cycle(translating)]
fn clause_of(alloc: Global, clause: &Clause<Expr>) -> Result<Clause<Term>, AllocError>
    ensures { IfOk result (λ translation. translation ≡ map_clause translated clause.now) }
{
    match clause {
        Clause::From(name, source) => {
            let name = copied(alloc, name)?;
            Ok(Clause::From(name, translate_expression(alloc, source)?))
        }
        Clause::Let(name, value) => {
            let name = copied(alloc, name)?;
            Ok(Clause::Let(name, translate_expression(alloc, value)?))
        }
        Clause::Where(condition) => Ok(Clause::Where(translate_expression(alloc, condition)?)),
        Clause::Join(join) => Ok(Clause::Join(join_of(alloc, join)?)),
        Clause::OrderBy(keys) => Ok(Clause::OrderBy(keys_of(alloc, keys)?)),
    }
}

/// Terms wait in boxes while others are translated, so that no path drops one in place.
#[cycle(translating)]
fn join_of(alloc: Global, join: &Join<Expr>) -> Result<Join<Term>, AllocError>
    ensures { IfOk result (λ translation. translation ≡ map_join translated join.now) }
{
    let name = copied(alloc, &join.name)?;
    let into = matches_name(alloc, &join.into)?;
    let source = held(alloc, &join.source)?;
    let outer_key = held(alloc, &join.outer_key)?;
    let inner_key = translate_expression(alloc, &join.inner_key)?;
    Ok(Join {
        name,
        source: source.into_inner(),
        outer_key: outer_key.into_inner(),
        inner_key,
        into,
    })
}

/// A copy of the name of a `join`'s matches, where it has one.
fn matches_name(alloc: Global, name: &Option<Txt>) -> Result<Option<Txt>, AllocError>
    ensures { IfOk result (λ copy. copy ≡ name.now) }
{
    match name {
        None => Ok(None),
        Some(name) => Ok(Some(copied(alloc, name)?)),
    }
}

#[cycle(translating)]
fn keys_of(alloc: Global, keys: &List<SortKey<Expr>>) -> Result<List<SortKey<Term>>, AllocError>
    ensures { IfOk result (λ translations. translations ≡ map (map_key translated) keys.now) }
{
    let mut translations = List::new(alloc);
    for key in keys.as_slice() {
        let value = translate_expression(alloc, &key.value)?;
        translations.push(SortKey {
            value,
            descending: key.descending,
        })?;
    }
    Ok(translations)
}

#[cycle(translating)]
fn last_of(alloc: Global, last: &Last<Expr>) -> Result<Last<Term>, AllocError>
    ensures { IfOk result (λ translation. translation ≡ map_last translated last.now) }
{
    match last {
        Last::Select(value) => Ok(Last::Select(translate_expression(alloc, value)?)),
        Last::Group(element, key) => {
            let element = held(alloc, element)?;
            let key = translate_expression(alloc, key)?;
            Ok(Last::Group(element.into_inner(), key))
        }
    }
}
