//! Total rules, prepared form by form.
ghost use Rattle.std.specs.Prelude.{◌≡◌, IfOk, IfSome, List, ℕ, Some, true};
ghost use Rattle.lq_value.specs.declared.scalar.Scalar.{Scalar};
ghost use Rattle.lq_language.specs.Members.{is_search, search_named, sole_argument};
ghost use Rattle.lq_security.specs.Totality.{is_row};
ghost use Rattle.lq_language.specs.TableRows.{cell_named};
ghost use Rattle.lq_grammar.specs.declared.syntax.Expr.{out-Expr};
ghost use Rattle.lq_grammar.specs.declared.syntax.Expr.TheVariants as expr;
ghost use Rattle.lq_grammar.specs.declared.syntax.Node.TheVariants as node;
ghost use Rattle.lq_scalar.specs.Shapes.{scalar_or_fault};
ghost use Rattle.lq_rule.specs.RowMeaning.{place_of, read};
ghost use Rattle.lq_rule.specs.Standing.{StandsFor};
ghost use Rattle.lq_rule.specs.declared.prepared.Prepared.TheVariants as prepared;

use crate::literals::{copied, negative};
use crate::prepared::Prepared;
use lq_grammar::{Argument, Binary, Expr, Node, Unary};
use lq_language::Op;
use lq_value::{Fault, Held, List, Scalar, Txt};
use std::alloc::{AllocError, Global};

/// The tree that a rule is prepared as. What isn't total has no form here, and is a fault.
#[cycle(preparing)]
#[tactic(auto, using(crate::proofs::FormLemmas::forms))]
pub(crate) fn prepared(alloc: Global, columns: &[Txt], rule: &Expr) -> Result<Prepared, AllocError>
    ensures { IfOk result (StandsFor columns.now rule.now) }
{
    match rule {
        Expr::Node(node) => prepared_node(alloc, columns, node),
        Expr::Query(_) => Ok(Prepared::Fault(Fault::NullReference)),
    }
}

#[cycle(preparing)]
#[tactic(auto, using(crate::proofs::FormLemmas::forms))]
fn prepared_node(alloc: Global, columns: &[Txt], node: &Node<Expr>) -> Result<Prepared, AllocError>
    ensures { IfOk result (StandsFor columns.now (expr.Node node.now)) }
{
    match node {
        Node::Integer(number) => Ok(Prepared::Literal(Scalar::Int(*number))),
        Node::Text(text) => Ok(Prepared::Literal(copied(alloc, text)?)),
        Node::Bool(truth) => Ok(Prepared::Literal(Scalar::Bool(*truth))),
        Node::Null => Ok(Prepared::Literal(Scalar::Null)),
        Node::Name(_) => Ok(Prepared::User),
        Node::Member(operand, member) => prepared_member(alloc, columns, operand.get(), member),
        Node::Unary(Unary::Not, operand) => Ok(Prepared::Not(held(alloc, columns, operand.get())?)),
        Node::Unary(Unary::Minus, operand) => Ok(negative(operand.get())),
        Node::Binary(sign, left, right) => {
            let left = prepared(alloc, columns, left.get())?;
            let right = prepared(alloc, columns, right.get())?;
            operation(alloc, *sign, left, right)
        }
        Node::And(left, right) => {
            let (left, right) = both(alloc, columns, left.get(), right.get())?;
            Ok(Prepared::And(left, right))
        }
        Node::Or(left, right) => {
            let (left, right) = both(alloc, columns, left.get(), right.get())?;
            Ok(Prepared::Or(left, right))
        }
        Node::Coalesce(left, right) => {
            let (left, right) = both(alloc, columns, left.get(), right.get())?;
            Ok(Prepared::Coalesce(left, right))
        }
        Node::Conditional(condition, left, right) => {
            let condition = held(alloc, columns, condition.get())?;
            let (left, right) = both(alloc, columns, left.get(), right.get())?;
            Ok(Prepared::Conditional(condition, left, right))
        }
        Node::Method(receiver, method, arguments) => {
            prepared_method(alloc, columns, arguments, receiver.get(), method.as_str())
        }
        Node::Host(_, _, _) | Node::HostOther(_, _) | Node::New(_) => {
            Ok(Prepared::Fault(Fault::NullReference))
        }
    }
}

/// A sign between two operands; between the cell at a place and a literal, in one form.
#[tactic(auto, using(crate::proofs::ReadingLemmas::reads))]
fn operation(
    alloc: Global,
    sign: Binary,
    left: Prepared,
    right: Prepared,
) -> Result<Prepared, AllocError>
    ensures { IfOk result (λ tree. (cells : List Scalar) (user : List ℕ)
        → read tree cells user ≡ read (prepared.Binary sign left right) cells user) }
{
    match (left, right) {
        (Prepared::Cell(place), Prepared::Literal(literal)) => {
            Ok(Prepared::WithLiteral(sign, place, literal))
        }
        (left, right) => Ok(Prepared::Binary(
            sign,
            Held::new(alloc, left)?,
            Held::new(alloc, right)?,
        )),
    }
}

/// A member: a column of the row, or else whether an `int?` has a value.
#[cycle(preparing)]
#[tactic(auto, using(crate::proofs::FormLemmas::stands_column, crate::proofs::FormLemmas::stands_has_value))]
fn prepared_member(
    alloc: Global,
    columns: &[Txt],
    operand: &Expr,
    member: &Txt,
) -> Result<Prepared, AllocError>
    ensures { IfOk result (StandsFor columns.now (expr.Node (node.Member operand.now member.now))) }
{
    if is_row(operand) {
        return Ok(cell_named(columns, member.as_str()));
    }
    Ok(Prepared::HasValue(held(alloc, columns, operand)?))
}

/// A method that looks for a text in another.
#[cycle(preparing)]
#[tactic(auto, using(crate::proofs::FormLemmas::stands_search))]
fn prepared_method(
    alloc: Global,
    columns: &[Txt],
    arguments: &List<Argument<Expr>>,
    receiver: &Expr,
    method: &str,
) -> Result<Prepared, AllocError>
    ensures { IfOk result (StandsFor columns.now
        (expr.Node (node.Method receiver.now method.now arguments.now))) }
{
    let text = held(alloc, columns, receiver)?;
    let needle = argument(alloc, columns, arguments)?;
    Ok(Prepared::Search(search_of(method), text, needle))
}

/// The tree of the one argument of a method; no total expression has another number of them.
#[cycle(preparing)]
fn argument(
    alloc: Global,
    columns: &[Txt],
    arguments: &List<Argument<Expr>>,
) -> Result<Held<Prepared>, AllocError>
    ensures { IfOk result (λ tree. IfSome (sole_argument arguments.now)
        (λ e. StandsFor columns.now e tree)) }
{
    match arguments.as_slice() {
        [Argument::Value(argument)] => held(alloc, columns, argument),
        _ => Held::new(alloc, Prepared::Fault(Fault::NullReference)),
    }
}

/// The two trees of two operands.
#[cycle(preparing)]
fn both(
    alloc: Global,
    columns: &[Txt],
    left: &Expr,
    right: &Expr,
) -> Result<(Held<Prepared>, Held<Prepared>), AllocError>
    ensures left { IfOk result (λ two. StandsFor columns.now left.now two.0) }
    ensures right { IfOk result (λ two. StandsFor columns.now right.now two.1) }
{
    let left = held(alloc, columns, left)?;
    let right = held(alloc, columns, right)?;
    Ok((left, right))
}

/// The tree of an operand.
#[cycle(preparing)]
fn held(alloc: Global, columns: &[Txt], operand: &Expr) -> Result<Held<Prepared>, AllocError>
    ensures { IfOk result (StandsFor columns.now operand.now) }
{
    Held::new(alloc, prepared(alloc, columns, operand)?)
}

/// The cell under the first column of this name.
#[tactic(auto, using(crate::proofs::CellLemmas::cell_there, crate::proofs::CellLemmas::no_cell))]
fn cell_named(columns: &[Txt], name: &str) -> Prepared
    ensures { (cells : List Scalar) (user : List ℕ)
        → read result cells user ≡ scalar_or_fault (cell_named columns.now cells name.now) }
{
    match place_of(columns, name) {
        Some(place) => Prepared::Cell(place),
        None => Prepared::Fault(Fault::NullReference),
    }
}

/// The place of the first column of this name.
fn place_of(columns: &[Txt], name: &str) -> Option<usize>
    ensures { result ≡ place_of columns.now name.now }
{
    columns.iter().position(|column| column.as_str() == name)
}

/// The operator that a method that looks for a text is.
fn search_of(method: &str) -> Op
    ensures { is_search method.now ≡ true → search_named method.now ≡ Some result }
{
    if method == "StartsWith" {
        return Op::StartsWith;
    }
    if method == "EndsWith" {
        return Op::EndsWith;
    }
    Op::Contains
}

/// Whether this is the name `row`.
#[tactic(auto, using(crate::proofs::FormLemmas::layers))]
fn is_row(expression: &Expr) -> bool
    ensures { result ≡ is_row (out-Expr expression.now) }
{
    matches!(expression, Expr::Node(Node::Name(name)) if name.as_str() == "row")
}
