//! The types of expressions over names.
ghost use Rattle.std.specs.Prelude.{◌≡◌, ◌&&◌, is_some, option_map};
ghost use Rattle.lq_language.specs.HostNames.{are_int_columns, has_ints, host_type, is_int_type, predicate_number};
ghost use Rattle.lq_language.specs.Names.{column_type};
ghost use Rattle.lq_language.specs.OperandMeaning.{is_row_type};
ghost use Rattle.lq_language.specs.OperandTypes.{are_comparable, are_joined, choice_type_of_layers, coalesced, if_number, is_bool_type, is_number, is_ordering, is_text_type, joined_type, member_type, number_type, operated_type, truth_type};
ghost use Rattle.lq_language.specs.RuleTyping.{rule_type};
ghost use Rattle.lq_grammar.specs.declared.syntax.Expr.TheVariants as expr;
ghost use Rattle.lq_scalar.specs.Referents.{layer_of, names_among, shown_type};
ghost use Rattle.lq_scalar.specs.declared.names.ExprType.TheVariants as kind;

use crate::names::{ExprType, Names};
use crate::totality::is_search;
use lq_grammar::{Argument, Binary, Expr, Node, Picked, Unary};
use lq_language::{HostName, predicate_number};
use lq_value::TableNumber;

/// Whether values of the type are numbers or, where it is `int?`, null.
fn is_number(known: ExprType) -> bool
    ensures { result ≡ is_number (layer_of known) }
{
    matches!(known, ExprType::Int | ExprType::IntN)
}

/// Whether there is a type, and it is `bool`.
#[tactic(auto, using(crate::proofs::TypeLaws::layer_known))]
fn is_bool(expr_type: Option<ExprType>) -> bool
    ensures { result ≡ is_bool_type (option_map shown_type expr_type) }
{
    matches!(expr_type, Some(ExprType::Bool))
}

/// Whether there is a type, and it is `string`.
#[tactic(auto, using(crate::proofs::TypeLaws::layer_known))]
pub(crate) fn is_text(expr_type: Option<ExprType>) -> bool
    ensures { result ≡ is_text_type (option_map shown_type expr_type) }
{
    matches!(expr_type, Some(ExprType::Str))
}

/// Whether there is a type, and it is that of a row.
#[tactic(auto, using(crate::proofs::TypeLaws::layer_known))]
pub(crate) fn is_row(expr_type: Option<ExprType>) -> bool
    ensures { result ≡ is_row_type (option_map shown_type expr_type) }
{
    matches!(expr_type, Some(ExprType::Row(_)))
}

/// The type of what operands that are truth values or texts give, where all of them are.
fn truth_type(are_fit: bool) -> Option<ExprType>
    ensures { option_map shown_type result ≡ truth_type are_fit }
{
    are_fit.then_some(ExprType::Bool)
}

/// The type of a search for one text in another.
fn search_type(text: Option<ExprType>, part: Option<ExprType>) -> Option<ExprType>
    ensures { option_map shown_type result
        ≡ truth_type (is_text_type (option_map shown_type text)
        && is_text_type (option_map shown_type part)) }
{
    truth_type(is_text(text) && is_text(part))
}

/// The type of a number's negative.
#[tactic(auto, using(crate::proofs::TypeLaws::layer_known))]
fn negated(expr_type: Option<ExprType>) -> Option<ExprType>
    ensures { option_map shown_type result ≡ if_number (option_map shown_type expr_type) }
{
    let known = expr_type?;
    is_number(known).then_some(known)
}

/// The type of arithmetic on two numbers: `int` where both are ints.
fn number_type(left: ExprType, right: ExprType) -> ExprType
    ensures { shown_type result ≡ number_type (layer_of left) (layer_of right) }
{
    match (left, right) {
        (ExprType::Int, ExprType::Int) => ExprType::Int,
        _ => ExprType::IntN,
    }
}

/// Whether `==` compares values of these types: two numbers, truth values or texts; and null with
/// what may be null or a number.
fn are_comparable(left: ExprType, right: ExprType) -> bool
    ensures { result ≡ are_comparable (layer_of left) (layer_of right) }
{
    match left {
        ExprType::Int | ExprType::IntN => is_number(right) || right == ExprType::Null,
        ExprType::Bool => right == ExprType::Bool,
        ExprType::Str => matches!(right, ExprType::Str | ExprType::Null),
        ExprType::Row(_) => right == ExprType::Null,
        ExprType::Null => !matches!(right, ExprType::Bool | ExprType::Rows(_)),
        ExprType::Rows(_) => false,
    }
}

/// Whether `+` joins values of these types: two texts, or a text and null.
fn are_joined(left: ExprType, right: ExprType) -> bool
    ensures { result ≡ are_joined (layer_of left) (layer_of right) }
{
    matches!(
        (left, right),
        (ExprType::Str, ExprType::Str | ExprType::Null) | (ExprType::Null, ExprType::Str)
    )
}

fn is_ordering(operator: Binary) -> bool
    ensures { result ≡ is_ordering operator }
{
    matches!(
        operator,
        Binary::Less | Binary::Greater | Binary::LessOrEqual | Binary::GreaterOrEqual
    )
}

/// The type of two texts that the operator joins.
fn joined_type(operator: Binary, left: ExprType, right: ExprType) -> Option<ExprType>
    ensures { option_map shown_type result ≡ joined_type operator (layer_of left) (layer_of right) }
{
    if operator == Binary::Add && are_joined(left, right) {
        Some(ExprType::Str)
    } else {
        None
    }
}

/// The type of what an operator gives to operands of these types; None where it doesn't take such.
fn result_type(operator: Binary, left: ExprType, right: ExprType) -> Option<ExprType>
    ensures { option_map shown_type result
        ≡ operated_type operator (layer_of left) (layer_of right) }
{
    if matches!(operator, Binary::Equal | Binary::NotEqual) {
        truth_type(are_comparable(left, right))
    } else if !is_number(left) || !is_number(right) {
        joined_type(operator, left, right)
    } else if is_ordering(operator) {
        Some(ExprType::Bool)
    } else {
        Some(number_type(left, right))
    }
}

/// The type of `left ?? right`, whose first operand may be null.
fn coalesced(left: ExprType, right: ExprType) -> Option<ExprType>
    ensures { option_map shown_type result ≡ coalesced (layer_of left) (layer_of right) }
{
    match (left, right) {
        (ExprType::IntN, ExprType::Int) => Some(ExprType::Int),
        (ExprType::IntN, ExprType::IntN | ExprType::Null)
        | (ExprType::Str, ExprType::Str | ExprType::Null) => Some(left),
        _ => None,
    }
}

/// The type of a choice between two rows, of one table.
fn conditional_row(left: TableNumber, right: TableNumber) -> Option<ExprType>
    ensures { option_map shown_type result
        ≡ choice_type_of_layers (layer_of (kind.Row left)) (layer_of (kind.Row right)) }
{
    (left == right).then_some(ExprType::Row(left))
}

/// The type of a choice between values of these types: one type; `int?` where they are numbers; and
/// beside null that of the other, where it may be null.
fn conditional_type(left: ExprType, right: ExprType) -> Option<ExprType>
    ensures { option_map shown_type result
        ≡ choice_type_of_layers (layer_of left) (layer_of right) }
{
    match (left, right) {
        (ExprType::Int | ExprType::IntN, ExprType::Int | ExprType::IntN) => {
            Some(number_type(left, right))
        }
        (ExprType::Bool, ExprType::Bool) => Some(ExprType::Bool),
        (ExprType::Str, ExprType::Str) => Some(ExprType::Str),
        (ExprType::Row(left), ExprType::Row(right)) => conditional_row(left, right),
        (ExprType::IntN | ExprType::Str | ExprType::Row(_), ExprType::Null) => Some(left),
        (ExprType::Null, ExprType::IntN | ExprType::Str | ExprType::Row(_)) => Some(right),
        _ => None,
    }
}

/// The type of a member: a column of a row, or a member of an `int?` or of a text.
fn member_type<N: Names>(
    names: &N,
    known: &[HostName],
    member: &str,
    operand: ExprType,
) -> Option<ExprType>
    ensures { option_map shown_type result
        ≡ member_type (names_among known.now (N.world names.now) (N.scope names.now)) member.now
        (layer_of operand) }
{
    match operand {
        ExprType::Row(table) => names.column_type(table, member),
        ExprType::IntN if member == "HasValue" => Some(ExprType::Bool),
        ExprType::IntN if member == "Value" => Some(ExprType::Int),
        ExprType::Str if member == "Length" => Some(ExprType::Int),
        _ => None,
    }
}

/// Whether there is a type, and it is `int`.
#[tactic(auto, using(crate::proofs::TypeLaws::layer_known))]
fn is_int(expr_type: Option<ExprType>) -> bool
    ensures { result ≡ is_int_type (option_map shown_type expr_type) }
{
    matches!(expr_type, Some(ExprType::Int))
}

/// Whether the table has this column, with an int in each cell.
fn is_int_column<N: Names>(names: &N, table: TableNumber, column: &str) -> bool
    ensures { result ≡ is_int_type (column_type (N.world names.now).schemas table column.now) }
{
    is_int(names.column_type(table, column))
}

/// Whether the table has these columns, with an int in each cell.
fn are_int_columns<N: Names>(names: &N, table: TableNumber, columns: &Picked) -> bool
    ensures { result ≡ are_int_columns (N.world names.now).schemas table columns.now }
{
    match columns {
        Picked::One(column) => is_int_column(names, table, column.as_str()),
        Picked::Two(first, second) => {
            is_int_column(names, table, first.as_str())
                && is_int_column(names, table, second.as_str())
        }
    }
}

/// Whether what has this type is a row with such columns.
#[tactic(auto, using(crate::proofs::TypeLaws::layer_known))]
fn has_ints<N: Names>(names: &N, columns: &Picked, row: Option<ExprType>) -> bool
    ensures { result
        ≡ has_ints (N.world names.now).schemas columns.now (option_map shown_type row) }
{
    match row {
        Some(ExprType::Row(table)) => are_int_columns(names, table, columns),
        _ => false,
    }
}

/// The type of the answer of a host predicate that is asked of columns of what has this type.
fn host_type<N: Names>(
    names: &N,
    known: &[HostName],
    predicate: &str,
    columns: &Picked,
    row: Option<ExprType>,
) -> Option<ExprType>
    ensures { option_map shown_type result
        ≡ host_type (names_among known.now (N.world names.now) (N.scope names.now)) predicate.now
        columns.now (option_map shown_type row) }
{
    let number = predicate_number(known, predicate, columns);
    truth_type(number.is_some() && has_ints(names, columns, row))
}

/// The type of an expression under these names, where these host predicates are known; None where
/// it has none.
#[cycle(types)]
#[tactic(auto, using(crate::proofs::TypeLaws::types))]
pub fn type_of<N: Names>(names: &N, known: &[HostName], expression: &Expr) -> Option<ExprType>
    ensures { option_map shown_type result
        ≡ rule_type expression.now (names_among known.now (N.world names.now) (N.scope names.now)) }
{
    match expression {
        Expr::Node(node) => type_of_node(names, known, node),
        Expr::Query(_) => None,
    }
}

/// The type of the expression of a node.
#[cycle(types)]
#[tactic(auto, using(crate::proofs::TypeLaws::types))]
fn type_of_node<N: Names>(names: &N, known: &[HostName], node: &Node<Expr>) -> Option<ExprType>
    ensures { option_map shown_type result
        ≡ rule_type (expr.Node node.now)
        (names_among known.now (N.world names.now) (N.scope names.now)) }
{
    match node {
        Node::Integer(_) => Some(ExprType::Int),
        Node::Text(_) => Some(ExprType::Str),
        Node::Bool(_) => Some(ExprType::Bool),
        Node::Null => Some(ExprType::Null),
        Node::Name(name) => names.name_type(name.as_str()),
        Node::Member(operand, member) => {
            let operand = type_of(names, known, operand.get())?;
            member_type(names, known, member.as_str(), operand)
        }
        Node::Method(receiver, method, arguments) => match arguments.as_slice() {
            [Argument::Value(argument)] if is_search(method.as_str()) => {
                let receiver = type_of(names, known, receiver.get());
                search_type(receiver, type_of(names, known, argument))
            }
            _ => None,
        },
        Node::Unary(Unary::Minus, operand) => negated(type_of(names, known, operand.get())),
        Node::Unary(Unary::Not, operand) => {
            truth_type(is_bool(type_of(names, known, operand.get())))
        }
        Node::Binary(operator, left, right) => {
            let left = type_of(names, known, left.get())?;
            result_type(*operator, left, type_of(names, known, right.get())?)
        }
        Node::And(left, right) | Node::Or(left, right) => {
            let left = is_bool(type_of(names, known, left.get()));
            truth_type(left && is_bool(type_of(names, known, right.get())))
        }
        Node::Coalesce(left, right) => {
            let left = type_of(names, known, left.get())?;
            coalesced(left, type_of(names, known, right.get())?)
        }
        Node::Conditional(condition, left, right)
            if is_bool(type_of(names, known, condition.get())) => {
            let left = type_of(names, known, left.get())?;
            conditional_type(left, type_of(names, known, right.get())?)
        }
        Node::Host(predicate, row, columns) => {
            let row = type_of(names, known, row.get());
            host_type(names, known, predicate.as_str(), columns.get(), row)
        }
        Node::Conditional(_, _, _) | Node::HostOther(_, _) | Node::New(_) => None,
    }
}
