//! Typed trees. Locals are values in slots, which are counted from 0 at the outermost lambda: the
//! body of a lambda has one slot more than what it is in, or two, where it takes two items.
ghost use Rattle.std.specs.Prelude.{◌≡◌};

use lq_grammar::{Field, SortKey};
use lq_host::{Pick, PredicateNumber};
use lq_language::{Given, Op, Simple};
use lq_value::{ColumnNumber, Held, List, Scalar, TableNumber, Ty};

/// The parts of a join, whose outer sequence is given beside it (.NET, `Enumerable.Join` and
/// `GroupJoin`).
#[derive(Drop)]
pub struct Joined<X> {
    /// The inner sequence, in the slots round the query.
    pub inner: X,
    /// The key of an outer item, in one slot more.
    pub outer_key: X,
    /// The key of an inner item, in one slot more.
    pub inner_key: X,
    /// Whether all matches of an outer item come together, as one sequence.
    pub grouped: bool,
    /// What comes of an outer item and its match, or its matches, in two slots more.
    pub result: X,
}

/// A typed expression (ECMA-334, expressions; .NET, `Enumerable`).
#[derive(Drop)]
pub enum Form {
    /// A literal.
    Literal(Scalar),
    /// What a slot holds.
    Slot(usize),
    /// The first part of a pair.
    First(Held<Form>),
    /// The second part of a pair.
    Second(Held<Form>),
    /// The rows of the table with this number.
    Table(TableNumber),
    /// The cell of a row of the table with this number, by the number of its column.
    Column(Held<Form>, TableNumber, ColumnNumber),
    /// What a host predicate answers, by its number, about a row of the table with this number: it is asked of the cells in these
    /// columns.
    Host(PredicateNumber, Held<Form>, TableNumber, Pick),
    /// A member of a record, by its place.
    Member(Held<Form>, usize),
    /// The key of a group.
    Key(Held<Form>),
    /// An operator or member with one operand.
    Unary(Op, Held<Form>),
    /// An operator with two operands, both of which are evaluated.
    Binary(Op, Held<Form>, Held<Form>),
    /// `&&`
    And(Held<Form>, Held<Form>),
    /// `||`
    Or(Held<Form>, Held<Form>),
    /// `??`
    Coalesce(Held<Form>, Held<Form>),
    /// `? :`, with its condition first.
    Conditional(Held<Form>, Held<Form>, Held<Form>),
    /// Whether a row, a record or a group is null; or, where the truth value is false, that it isn't.
    IsNull(bool, Held<Form>),
    /// `new` with its members.
    Record(List<Field<Form>>),
    /// A pair.
    Pair(Held<Form>, Held<Form>),
    /// An expression of a sequence's type: a fault met in making it is the ending of its stream.
    Sequence(Held<Form>),
    /// A method without an argument, on items of this type.
    Simple(Simple, Ty, Held<Form>),
    /// A method on what comes first, with its argument.
    Given(Given, Held<Form>, Held<Form>),
    /// The items on which a condition is true, which has one slot more.
    Where(Held<Form>, Held<Form>),
    /// What comes of each item, in one slot more.
    Select(Held<Form>, Held<Form>),
    /// Whether a condition is true on every item, in one slot more.
    All(Held<Form>, Held<Form>),
    /// What comes of each item, in one slot more, and of each item of the sequence that it leads to,
    /// in two.
    SelectMany(Held<Form>, Held<Form>, Held<Form>),
    /// A join of what comes first.
    Join(Held<Form>, Held<Joined<Form>>),
    /// The items sorted by keys, in one slot more, the first of which counts most.
    OrderBy(Held<Form>, List<SortKey<Form>>),
    /// The items grouped by a key, with the elements of each key, both in one slot more.
    GroupBy(Held<Form>, Held<Form>, Held<Form>),
}

/// A typed tree: a form with its type.
#[derive(Drop)]
pub struct Tree {
    /// Its type.
    pub ty: Ty,
    /// The form, in a box of its own: a tree is handed on with each step of binding, on a stack that is short.
    pub form: Held<Form>,
}

/// The type of a tree.
pub fn ty(tree: &Tree) -> &Ty
    ensures { result.now ≡ tree.now.ty }
{
    &tree.ty
}
