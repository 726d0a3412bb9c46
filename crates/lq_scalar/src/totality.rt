//! Which rules of row policies are total: by their form they can't fault where they are typed as truth values.
ghost use Rattle.std.specs.Prelude.{◌≡◌, ◌&&◌, if◌then◌else◌, false};
ghost use Rattle.lq_language.specs.Members.{is_search};
ghost use Rattle.lq_security.specs.Totality.{is_division, is_divisor, is_natural, is_row, is_sure, is_total};
ghost use Rattle.lq_language.specs.OperandTypes.{is_comparison};
ghost use Rattle.lq_grammar.specs.declared.syntax.Expr.{out-Expr};
ghost use Rattle.lq_grammar.specs.declared.syntax.Expr.TheVariants as expr;

use crate::comparison::is_comparison;
use lq_grammar::{Argument, Binary, Expr, Node, Unary};

/// What is known of an expression of a rule by its form. Both are decided at once, so that no expression
/// is looked at twice.
#[derive(Clone, Copy, Drop)]
struct Strength {
    /// It can't fault where it is typed.
    total: bool,
    /// That, and it is a text other than null.
    sure: bool,
}

/// Whether the rule is total by its form: where it is typed as a truth value, it can't fault on any
/// row. Its names are `row`, with its columns, and
/// `user`.
pub fn is_total(rule: &Expr) -> bool
    ensures { result ≡ is_total rule.now }
{
    strength_of(rule).total
}

/// Of an expression that is total where this holds, and never sure.
fn total_where(holds: bool) -> Strength
    ensures total { result.total ≡ holds }
    ensures sure { result.sure ≡ false }
{
    Strength {
        total: holds,
        sure: false,
    }
}

/// Of an expression that is total and sure where this holds.
fn sure_where(holds: bool) -> Strength
    ensures total { result.total ≡ holds }
    ensures sure { result.sure ≡ holds }
{
    Strength {
        total: holds,
        sure: holds,
    }
}

/// Of `left ?? right`.
fn coalesced(left: Strength, right: Strength) -> Strength
    ensures total { result.total ≡ (left.total && right.total) }
    ensures sure { result.sure ≡ (left.total && right.sure) }
{
    Strength {
        total: left.total && right.total,
        sure: left.total && right.sure,
    }
}

/// Of `condition ? left : right`.
fn conditional(condition: Strength, left: Strength, right: Strength) -> Strength
    ensures total { result.total ≡ (condition.total && left.total && right.total) }
    ensures sure { result.sure ≡ (condition.total && left.sure && right.sure) }
{
    Strength {
        total: condition.total && left.total && right.total,
        sure: condition.total && left.sure && right.sure,
    }
}

/// Of an operator that evaluates both of its operands, and whether any int can be divided by the
/// right one.
fn computed(operator: Binary, left: Strength, right: Strength, right_divides: bool) -> Strength
    ensures total { result.total ≡ (if is_comparison operator then left.total && right.total
        else is_division operator && left.total && right_divides) }
    ensures sure { result.sure ≡ false }
{
    if is_comparison(operator) {
        total_where(left.total && right.total)
    } else {
        total_where(is_division(operator) && left.total && right_divides)
    }
}

#[cycle(strengths)]
#[tactic(auto, using(crate::proofs::TotalityLemmas::strengths))]
fn strength_of(expression: &Expr) -> Strength
    ensures total { result.total ≡ is_total expression.now }
    ensures sure { result.sure ≡ is_sure expression.now }
{
    match expression {
        Expr::Node(node) => strength_of_node(node),
        Expr::Query(_) => total_where(false),
    }
}

#[cycle(strengths)]
#[tactic(auto, using(crate::proofs::TotalityLemmas::strengths))]
fn strength_of_node(node: &Node<Expr>) -> Strength
    ensures total { result.total ≡ is_total (expr.Node node.now) }
    ensures sure { result.sure ≡ is_sure (expr.Node node.now) }
{
    match node {
        Node::Integer(_) | Node::Bool(_) | Node::Null => total_where(true),
        Node::Text(_) => sure_where(true),
        Node::Name(name) => sure_where(name.as_str() == "user"),
        Node::Member(operand, member) => {
            let has_value = member.as_str() == "HasValue" && strength_of(operand.get()).total;
            total_where(is_row(operand.get()) || has_value)
        }
        Node::Unary(Unary::Not, operand) => total_where(strength_of(operand.get()).total),
        Node::Unary(Unary::Minus, operand) => total_where(is_natural(operand.get())),
        Node::Binary(operator, left, right) => {
            let right_divides = is_divisor(right.get());
            let left = strength_of(left.get());
            computed(*operator, left, strength_of(right.get()), right_divides)
        }
        Node::And(left, right) | Node::Or(left, right) => {
            total_where(strength_of(left.get()).total && strength_of(right.get()).total)
        }
        Node::Coalesce(left, right) => coalesced(strength_of(left.get()), strength_of(right.get())),
        Node::Conditional(condition, left, right) => {
            let condition = strength_of(condition.get());
            conditional(condition, strength_of(left.get()), strength_of(right.get()))
        }
        Node::Method(receiver, method, arguments) => match arguments.as_slice() {
            [Argument::Value(argument)] if is_search(method.as_str()) => {
                total_where(strength_of(receiver.get()).sure && strength_of(argument).sure)
            }
            _ => total_where(false),
        },
        Node::Host(_, _, _) | Node::HostOther(_, _) | Node::New(_) => total_where(false),
    }
}

fn is_division(operator: Binary) -> bool
    ensures { result ≡ is_division operator }
{
    matches!(operator, Binary::Divide | Binary::Remainder)
}

/// Whether the method looks for a text in another.
pub(crate) fn is_search(method: &str) -> bool
    ensures { result ≡ is_search method.now }
{
    method == "StartsWith" || method == "EndsWith" || method == "Contains"
}

/// Whether this is the name `row`.
#[tactic(auto, using(crate::proofs::TotalityLemmas::layers))]
fn is_row(expression: &Expr) -> bool
    ensures { result ≡ is_row (out-Expr expression.now) }
{
    matches!(expression, Expr::Node(Node::Name(name)) if name.as_str() == "row")
}

/// Whether this is an integer literal that a minus sign may precede: the least int has its own.
#[tactic(auto, using(crate::proofs::TotalityLemmas::layers))]
fn is_natural(expression: &Expr) -> bool
    ensures { result ≡ is_natural (out-Expr expression.now) }
{
    matches!(expression, Expr::Node(Node::Integer(number)) if *number >= 0)
}

/// Whether this is an integer literal by which any int can be divided.
#[tactic(auto, using(crate::proofs::TotalityLemmas::layers))]
fn is_divisor(expression: &Expr) -> bool
    ensures { result ≡ is_divisor (out-Expr expression.now) }
{
    matches!(expression, Expr::Node(Node::Integer(number)) if *number >= 1)
}
