//! Host predicates with what they are asked of: columns of a row, or anything else.
ghost use Rattle.std.specs.Prelude.{◌≡◌, IfOk};
ghost use Rattle.std.specs.Option.{option_map};
ghost use Rattle.lq_grammar.specs.Grammar as grammar;
ghost use Rattle.lq_syntax.specs.Parts.{one_or_two};
ghost use Rattle.lq_grammar.specs.declared.syntax.Expr.{out-Expr};
ghost use Rattle.lq_grammar.specs.declared.syntax.Expr.TheVariants as expr;
ghost use Rattle.lq_grammar.specs.declared.syntax.Node.TheVariants as node;
ghost use Rattle.lq_grammar.specs.declared.syntax.Picked.TheVariants as picked;

use lq_grammar::{Expr, Node, Picked};
use lq_value::{Held, List, Txt};
use std::alloc::{AllocError, Global};

/// The name that an expression is.
#[tactic(auto, using(crate::proofs::Layers::layers))]
fn name_in(x: &Expr) -> Option<&str>
    ensures { option_map (λ name. name.now) result ≡ grammar.name_in (out-Expr x.now) }
{
    match x {
        Expr::Node(Node::Name(name)) => Some(name.as_str()),
        _ => None,
    }
}

/// The name and the column, of a column of what a name refers to.
#[tactic(auto, using(crate::proofs::Layers::layers))]
fn column_in(x: &Expr) -> Option<(&str, &str)>
    ensures { option_map (λ found. (found.0.now, found.1.now)) result
        ≡ grammar.column_in (out-Expr x.now) }
{
    match x {
        Expr::Node(Node::Member(row, column)) => Some((name_in(row.get())?, column.as_str())),
        _ => None,
    }
}

/// A list of one item or of two.
fn list_of<T: Drop>(alloc: Global, first: T, second: Option<T>) -> Result<List<T>, AllocError>
    ensures { IfOk result (λ items. items ≡ one_or_two first second) }
{
    let mut items = List::new(alloc);
    items.push(first)?;
    if let Some(second) = second {
        items.push(second)?;
    }
    Ok(items)
}

/// A predicate that is asked of these, which are not columns of one row.
#[tactic(auto, using(crate::proofs::HostArguments::arguments_are_one_or_two))]
fn host_other(
    alloc: Global,
    predicate: Txt,
    first: Expr,
    second: Option<Expr>,
) -> Result<Expr, AllocError>
    ensures { IfOk result (λ call. call
        ≡ expr.Node (node.HostOther predicate (grammar.arguments_of first second))) }
{
    let asked = list_of(alloc, first, second)?;
    Ok(Expr::Node(Node::HostOther(predicate, asked)))
}

/// A predicate that is asked of one expression.
#[tactic(auto, using(crate::proofs::Layers::layers))]
fn host_of_one(alloc: Global, predicate: Txt, x: Expr) -> Result<Expr, AllocError>
    ensures { IfOk result (λ call. call ≡ grammar.host_of_one predicate x (out-Expr x)) }
{
    match x {
        Expr::Node(Node::Member(row, column)) => {
            let columns = Held::new(alloc, Picked::One(column))?;
            Ok(Expr::Node(Node::Host(predicate, row, columns)))
        }
        other => host_other(alloc, predicate, other, None),
    }
}

/// A predicate that is asked of two columns of what a name refers to.
fn host_of_columns(
    alloc: Global,
    predicate: Txt,
    name: &str,
    first: &str,
    second: &str,
) -> Result<Expr, AllocError>
    ensures { IfOk result (λ call. call ≡ expr.Node (node.Host predicate
        (grammar.named name.now) (picked.Two first.now second.now))) }
{
    let first = Txt::from_str(alloc, first)?;
    let columns = Held::new(alloc, Picked::Two(first, Txt::from_str(alloc, second)?))?;
    let name = Txt::from_str(alloc, name)?;
    let row = Held::new(alloc, Expr::Node(Node::Name(name)))?;
    Ok(Expr::Node(Node::Host(predicate, row, columns)))
}

/// A predicate that is asked of two expressions.
fn host_of_two(alloc: Global, predicate: Txt, x: Expr, y: Expr) -> Result<Expr, AllocError>
    ensures { IfOk result (λ call. call ≡ grammar.host_of_two predicate x y
        (grammar.column_in (out-Expr x)) (grammar.column_in (out-Expr y))) }
{
    if let (Some((name, first)), Some((other, second))) = (column_in(&x), column_in(&y)) {
        if name == other {
            let call = host_of_columns(alloc, predicate, name, first, second);
            drop(x);
            drop(y);
            return call;
        }
    }
    host_other(alloc, predicate, x, Some(y))
}

/// A predicate that is asked of one expression, or of two.
pub fn host_call(
    alloc: Global,
    predicate: Txt,
    first: Expr,
    second: Option<Expr>,
) -> Result<Expr, AllocError>
    ensures { IfOk result (λ call. call ≡ grammar.host_call predicate first second) }
{
    match second {
        Some(second) => host_of_two(alloc, predicate, first, second),
        None => host_of_one(alloc, predicate, first),
    }
}
