//! The calls of a query, whatever represents the expressions in it.
ghost use Rattle.std.specs.Prelude.{◌≡◌, ◌++◌, ◌∷◌, ◌&&◌, [], map, false, true, not, IfOk, OnOk};
ghost use Rattle.lq_language.specs.declared.calls.Paired.TheVariants as paired;
ghost use Rattle.lq_grammar.specs.declared.syntax.Last.TheVariants as last;
ghost use Rattle.lq_translate.specs.Translation.{body_operators, call_of, clause_operator, has_result, keeps_sole, last_operators, operators_of, paired_operator, part_of, widens};

use lq_grammar::{Body, Clause, Continuation, Last, Query};
use lq_language::{Call, Operator, Paired, Part};
use lq_value::{List, Txt};
use std::alloc::{AllocError, Global};

/// What represents an expression, as far as the translation looks at it.
pub trait TellsName: Drop {
    ghost use Rattle.std.specs.Prelude.{◌≡◌, List, ℕ, Bool};

    /// Whether it is nothing but this name.
    ghost naming: { Self → List ℕ → Bool };

    /// Whether it is nothing but this name.
    fn is_name(&self, name: &Txt) -> bool
        ensures { result ≡ naming self.now name.now };
}

/// The calls that a query is translated to, built from its own parts.
#[tactic(auto, unfolding(crate::specs::Translation::call_of))]
pub fn call_of_query<X: TellsName>(alloc: Global, query: Query<X>) -> Result<Call<X>, AllocError>
    ensures { IfOk result (λ call. call ≡ call_of X.naming query) }
{
    let Query {
        name,
        source,
        body,
        rest,
    } = query;
    let operators = operators_of_body(alloc, &name, body)?;
    let rest = parts_of(alloc, rest)?;
    Ok(Call {
        name,
        source,
        operators,
        rest,
    })
}

/// The calls of what follows by `into`.
fn parts_of<X: TellsName>(
    alloc: Global,
    rest: List<Continuation<X>>,
) -> Result<List<Part<X>>, AllocError>
    ensures { IfOk result (λ parts. parts ≡ map (part_of X.naming) rest) }
{
    let mut parts = List::new(alloc);
    for next in rest.into_vec() {
        parts.push(part(alloc, next)?)?;
    }
    Ok(parts)
}

/// The calls of a body that follows by `into`.
fn part<X: TellsName>(alloc: Global, next: Continuation<X>) -> Result<Part<X>, AllocError>
    ensures { IfOk result (λ part. part ≡ part_of X.naming next) }
{
    let Continuation { name, body } = next;
    let operators = operators_of_body(alloc, &name, body)?;
    Ok(Part { name, operators })
}

/// The calls of a body over this range variable.
#[tactic(auto, using(crate::proofs::CallLemmas::body_up_to_last))]
fn operators_of_body<X: TellsName>(
    alloc: Global,
    name: &Txt,
    body: Body<X>,
) -> Result<List<Operator<X>>, AllocError>
    ensures { IfOk result (λ operators. operators ≡ body_operators X.naming name.now body) }
{
    let Body { clauses, last } = body;
    let mut clauses = clauses.into_vec();
    match clauses.pop() {
        None => {
            let mut operators = List::new(alloc);
            push_last(&mut operators, name, false, true, last)?;
            Ok(operators)
        }
        Some(final_clause) => {
            let sole = is_still_sole(clauses.as_slice());
            let mut operators = pairing_operators(alloc, clauses)?;
            push_final(&mut operators, name, sole, final_clause, last)?;
            Ok(operators)
        }
    }
}

/// Whether none of the clauses brings a range variable in.
fn is_still_sole<X: Drop>(clauses: &[Clause<X>]) -> bool
    ensures { result ≡ keeps_sole clauses.now }
{
    for clause in clauses {
        if has_new_name(clause) {
            return false;
        }
    }
    true
}

/// Whether a clause brings a range variable in.
fn has_new_name<X: Drop>(clause: &Clause<X>) -> bool
    ensures { result ≡ widens clause.now }
{
    !matches!(clause, Clause::Where(_) | Clause::OrderBy(_))
}

/// Whether a clause's call takes a result for each pair.
fn has_result<X: Drop>(clause: &Clause<X>) -> bool
    ensures { result ≡ has_result clause.now }
{
    matches!(clause, Clause::From(_, _) | Clause::Join(_))
}

/// The calls of clauses none of which produces the value of a `select`.
fn pairing_operators<X: Drop>(
    alloc: Global,
    clauses: Vec<Clause<X>>,
) -> Result<List<Operator<X>>, AllocError>
    ensures { IfOk result (λ operators. operators ≡ map paired_operator clauses.items) }
{
    let mut operators = List::new(alloc);
    for clause in clauses {
        operators.push(operator_of(clause, Paired::Pair))?;
    }
    Ok(operators)
}

/// The call of a clause; where it pairs items, with what comes of each pair.
fn operator_of<X: Drop>(clause: Clause<X>, outcome: Paired<X>) -> Operator<X>
    ensures { result ≡ clause_operator clause outcome }
{
    match clause {
        Clause::From(name, source) => Operator::SelectMany(name, source, outcome),
        Clause::Let(name, value) => Operator::Let(name, value),
        Clause::Where(condition) => Operator::Where(condition),
        Clause::Join(join) => Operator::Join(join, outcome),
        Clause::OrderBy(keys) => Operator::OrderBy(keys),
    }
}

/// Puts the calls of the last clause and of what ends the body after the others.
fn push_final<X: TellsName>(
    operators: &mut List<Operator<X>>,
    name: &Txt,
    sole: bool,
    clause: Clause<X>,
    last: Last<X>,
) -> Result<(), AllocError>
    ensures { OnOk result (operators.new ≡ operators.old
        ++ operators_of X.naming name.now true sole (clause ∷ []) last) }
{
    let sole = sole && !has_new_name(&clause);
    let makes = has_result(&clause);
    match last {
        Last::Select(value) => {
            if makes {
                operators.push(operator_of(clause, Paired::Value(value)))?;
            } else {
                operators.push(operator_of(clause, Paired::Pair))?;
                push_select(operators, name, true, sole, value)?;
            }
        }
        Last::Group(element, key) => {
            operators.push(operator_of(clause, Paired::Pair))?;
            push_group(operators, name, sole, element, key)?;
        }
    }
    Ok(())
}

/// Puts the call of what ends a body after the others.
fn push_last<X: TellsName>(
    operators: &mut List<Operator<X>>,
    name: &Txt,
    used: bool,
    sole: bool,
    last: Last<X>,
) -> Result<(), AllocError>
    ensures { OnOk result (operators.new ≡ operators.old
        ++ last_operators X.naming name.now used sole last) }
{
    match last {
        Last::Select(value) => push_select(operators, name, used, sole, value),
        Last::Group(element, key) => push_group(operators, name, sole, element, key),
    }
}

/// Puts the call of a `select` after the others, where there is one.
fn push_select<X: TellsName>(
    operators: &mut List<Operator<X>>,
    name: &Txt,
    used: bool,
    sole: bool,
    value: X,
) -> Result<(), AllocError>
    ensures { OnOk result (operators.new ≡ operators.old
        ++ last_operators X.naming name.now used sole (last.Select value)) }
{
    if used && sole && value.is_name(name) {
        return Ok(());
    }
    operators.push(Operator::Select(value))
}

/// Puts the call of a `group` after the others.
fn push_group<X: TellsName>(
    operators: &mut List<Operator<X>>,
    name: &Txt,
    sole: bool,
    element: X,
    key: X,
) -> Result<(), AllocError>
    ensures { OnOk result (operators.new ≡ operators.old
        ++ last_operators X.naming name.now true sole (last.Group element key)) }
{
    if sole && element.is_name(name) {
        return operators.push(Operator::GroupBy(key, None));
    }
    operators.push(Operator::GroupBy(key, Some(element)))
}
